// What a command answers, and how it is printed.
use crate::command::Command;
use crate::failure::Failure;
use position::position::Position;
use range::range::Range;
use rows::node::NodeId;
use rows::refusal::Refusal;
use std::cmp::Ordering;
use std::fmt;

#[derive(Drop)]
pub enum Reply {
    // nothing is printed
    Silent,
    Flag(bool),
    Order(Ordering),
    // of a text that is no well-formed UTF-8
    IllFormed,
    // of rows that are as they must be
    Sound,
    Number(usize),
    Pair(usize, usize),
    Numbers(Vec<u16>),
    Row(Option<NodeId>),
    Place(Position),
    Ends(Range),
    Bytes(Vec<u8>),
    Counted(Vec<u8>),
    // a reader's range, and the piece that it read
    Read(Range, Vec<u8>),
}

pub type Answer = Result<Reply, Failure>;

// What a call answers for a line's command; a line with no word has no reply.
pub fn answer_line<F>(line: &[u8], call: F) -> Answer
where
    F: FnOnce(&mut Command<'_>) -> Answer + Drop,
    requires { F.IsAlwaysCallable call }
{
    let Some(mut command) = Command::of(line)? else {
        return Ok(Reply::Silent);
    };
    call(&mut command)
}

impl From<bool> for Reply {
    fn from(flag: bool) -> Reply {
        Reply::Flag(flag)
    }
}

impl From<Ordering> for Reply {
    fn from(order: Ordering) -> Reply {
        Reply::Order(order)
    }
}

impl From<usize> for Reply {
    fn from(number: usize) -> Reply {
        Reply::Number(number)
    }
}

impl From<Option<NodeId>> for Reply {
    fn from(row: Option<NodeId>) -> Reply {
        Reply::Row(row)
    }
}

impl From<Position> for Reply {
    fn from(position: Position) -> Reply {
        Reply::Place(position)
    }
}

impl From<Range> for Reply {
    fn from(range: Range) -> Reply {
        Reply::Ends(range)
    }
}

// A refusal's number, with the row or the bytes that go with it.
#[derive(Clone, Copy)]
pub struct Numbered(pub Refusal);

impl fmt::Display for Numbered {
    fn fmt<W: fmt::Write>(&self, f: &mut fmt::Formatter<W>) -> fmt::Result {
        let Numbered(refusal) = self;
        let number = refusal.number();
        match (refusal.row(), refusal.needed()) {
            (Some(row), _) => write!(f, "{number} {}", row.0),
            (None, Some(bytes)) => write!(f, "{number} {bytes}"),
            (None, None) => write!(f, "{number}"),
        }
    }
}

// ROOT:ROW:INDEX
#[derive(Clone, Copy)]
struct Spelt(Position);

impl fmt::Display for Spelt {
    fn fmt<W: fmt::Write>(&self, f: &mut fmt::Formatter<W>) -> fmt::Result {
        let Spelt(p) = self;
        write!(f, "{}:{}:{}", p.root.0, p.row.0, p.index)
    }
}

// Bytes in hexadecimal digits, behind a blank; nothing for none.
#[derive(Clone, Copy)]
struct Hex<'a>(&'a [u8]);

impl<'a> fmt::Display for Hex<'a> {
    fn fmt<W: fmt::Write>(&self, f: &mut fmt::Formatter<W>) -> fmt::Result {
        let Hex(bytes) = self;
        if !bytes.is_empty() {
            write!(f, " ")?;
        }
        for byte in bytes.iter() {
            write!(f, "{byte:02x}")?;
        }
        Ok(())
    }
}

// What stands behind the mark of a reply, each word behind a blank.
impl fmt::Display for Reply {
    fn fmt<W: fmt::Write>(&self, f: &mut fmt::Formatter<W>) -> fmt::Result {
        match self {
            Reply::Silent => Ok(()),
            Reply::Flag(true) => write!(f, " yes"),
            Reply::Flag(false) => write!(f, " no"),
            Reply::Order(Ordering::Less) => write!(f, " less"),
            Reply::Order(Ordering::Equal) => write!(f, " equal"),
            Reply::Order(Ordering::Greater) => write!(f, " greater"),
            Reply::IllFormed => write!(f, " ill-formed"),
            Reply::Sound => write!(f, " sound"),
            Reply::Number(n) => write!(f, " {n}"),
            Reply::Pair(m, n) => write!(f, " {m} {n}"),
            Reply::Numbers(all) => {
                for n in all.iter() {
                    write!(f, " {n}")?;
                }
                Ok(())
            }
            Reply::Row(None) => write!(f, " none"),
            Reply::Row(Some(row)) => write!(f, " {}", row.0),
            Reply::Place(p) => write!(f, " {}", Spelt(*p)),
            Reply::Ends(range) => write!(f, " {} {}", Spelt(range.start), Spelt(range.end)),
            Reply::Bytes(bytes) => write!(f, "{}", Hex(bytes.as_slice())),
            Reply::Counted(bytes) => write!(f, " {}{}", bytes.len(), Hex(bytes.as_slice())),
            Reply::Read(range, bytes) => write!(
                f,
                " {} {} {}{}",
                Spelt(range.start),
                Spelt(range.end),
                bytes.len(),
                Hex(bytes.as_slice())
            ),
        }
    }
}

pub fn print_answer(rt: &impl Print, answer: Answer) -> anyhow::Result<()> {
    match answer {
        Ok(Reply::Silent) => {}
        Ok(reply) => println!(rt; "={reply}")?,
        Err(Failure::Mistake(mistake)) => println!(rt; "? {mistake}")?,
        Err(Failure::Refusal(refusal)) => println!(rt; "! {}", Numbered(refusal))?,
        Err(Failure::OutOfMemory(error)) => return Err(error.into()),
    }
    Ok(())
}
