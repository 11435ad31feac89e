// The calls on a reader.
ghost use Rattle.panel.specs.Units.{stops_of};

use crate::command::Command;
use crate::failure::Mistake;
use crate::page_calls::{Open, answer_page};
use crate::range_calls::buffer_of;
use crate::reply::{Answer, Reply};
use crate::strip::Strip;
use position::position::Position;
use reader::reader::Reader;
use rows::refusal::Refusal;
use source::source::Source;
use std::alloc::Global;
use std::str::FromStr;
use unit::character::Character;
use unit::line::Line;
use unit::paragraph::Paragraph;
use unit::unit::Unit;
use unit::word::Word;

// The unit that a call names.
#[derive(Clone, Copy, PartialEq, Eq, Debug)]
pub enum TextUnit {
    Character,
    Word,
    Line,
    Paragraph,
}

impl FromStr for TextUnit {
    type Err = Mistake;

    fn from_str(name: &str) -> Result<TextUnit, Mistake> {
        match name {
            "character" => Ok(TextUnit::Character),
            "word" => Ok(TextUnit::Word),
            "line" => Ok(TextUnit::Line),
            "paragraph" => Ok(TextUnit::Paragraph),
            _ => Err(Mistake::NotUnit),
        }
    }
}

// Each call goes on to the unit that is named: here once, and not at each call that reads.
impl<S: Source> Unit<S> for TextUnit {
    ghost stops = { stops_of };

    fn forward(&self, s: &S, p: Position) -> Result<Position, Refusal> {
        match self {
            TextUnit::Character => Character.forward(s, p),
            TextUnit::Word => Word.forward(s, p),
            TextUnit::Line => Line.forward(s, p),
            TextUnit::Paragraph => Paragraph.forward(s, p),
        }
    }

    fn backward(&self, s: &S, p: Position) -> Result<Position, Refusal> {
        match self {
            TextUnit::Character => Character.backward(s, p),
            TextUnit::Word => Word.backward(s, p),
            TextUnit::Line => Line.backward(s, p),
            TextUnit::Paragraph => Paragraph.backward(s, p),
        }
    }
}

// `read_on UNIT CAPACITY`, `read_back UNIT CAPACITY`
fn answer_read<S: Source, F>(
    heap: Global,
    reader: &mut Reader<S>,
    command: &mut Command<'_>,
    read: F,
) -> Answer
where
    F: FnOnce(&mut Reader<S>, &TextUnit, &mut [u8]) -> Result<usize, Refusal> + Drop,
    requires { F.IsAlwaysCallable read }
{
    let name = command.word().ok_or(Mistake::NotNumbers)?;
    let capacity = command.number()?;
    command.end()?;
    let mut buffer = buffer_of(heap, capacity)?;
    let unit = name.parse::<TextUnit>()?;
    let count = read(reader, &unit, buffer.as_mut_slice())?;
    buffer.truncate(count);
    Ok(Reply::Read(reader.range(), buffer))
}

// `set_start P`, `set_end P`
fn answer_set<S: Source, F>(reader: &mut Reader<S>, command: &mut Command<'_>, set: F) -> Answer
where
    F: FnOnce(&mut Reader<S>, Position) -> Result<(), Refusal> + Drop,
    requires { F.IsAlwaysCallable set }
{
    let p = command.position()?;
    command.end()?;
    set(reader, p)?;
    Ok(reader.range().into())
}

// The answer to a call on a reader, or on the page that it reads.
pub fn answer_reader<S: Source>(
    heap: Global,
    open: &Open<'_>,
    reader: &mut Reader<S>,
    strip: &mut Strip,
    command: &mut Command<'_>,
) -> Answer {
    match command.verb {
        "read_on" => answer_read(heap, reader, command, |reader, unit, buffer| {
            reader.read_on(unit, strip.bytes(), buffer)
        }),
        "read_back" => answer_read(heap, reader, command, |reader, unit, buffer| {
            reader.read_back(unit, strip.bytes(), buffer)
        }),
        "set_start" => answer_set(reader, command, |reader, p| reader.set_start(p)),
        "set_end" => answer_set(reader, command, |reader, p| reader.set_end(p)),
        "reader_range" => {
            command.end()?;
            Ok(reader.range().into())
        }
        _ => answer_page(heap, open, strip, command),
    }
}
