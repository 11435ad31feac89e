// A line's command, and what the words behind its verb stand for.
use crate::failure::{Failure, Mistake};
use position::position::Position;
use rows::node::NodeId;
use std::alloc::Global;
use std::str::{FromStr, SplitWhitespace};

// The byte that two hexadecimal digits spell.
fn byte_of(pair: &[u8]) -> Option<u8> {
    let [high, low] = pair else {
        return None;
    };
    let high = char::from(*high).to_digit(16)?;
    let low = char::from(*low).to_digit(16)?;
    u8::try_from(high * 16 + low).ok()
}

// The bytes that hexadecimal digits spell.
pub fn unhex(heap: Global, digits: &str) -> Result<Vec<u8>, Failure> {
    digits
        .as_bytes()
        .chunks(2)
        .map(|pair| byte_of(pair).ok_or(Failure::from(Mistake::NotBytes)))
        .try_collect(heap)
}

// ROOT:ROW:INDEX. `FromStr` would need a type around the position, which the one caller would take out again.
fn position_of(word: &str) -> Option<Position> {
    let (root, rest) = word.split_once(':')?;
    let (row, index) = rest.split_once(':')?;
    Some(Position {
        root: NodeId(root.parse().ok()?),
        row: NodeId(row.parse().ok()?),
        index: index.parse().ok()?,
    })
}

// The heap is no part of it, since where a line belongs is asked with none at hand.
#[derive(Drop)]
pub struct Command<'a> {
    pub verb: &'a str,
    // the words that are yet to be read
    rest: SplitWhitespace<'a>,
}

impl<'a> Command<'a> {
    // The command before a comment; nothing where the line has no word.
    pub fn of(line: &'a [u8]) -> Result<Option<Command<'a>>, Mistake> {
        let text = std::str::from_utf8(line).map_err(|_| Mistake::NotText)?;
        let before = text.split_once('#').map_or(text, |(before, _)| before);
        let mut rest = before.split_whitespace();
        Ok(rest.next().map(|verb| Command { verb, rest }))
    }

    pub fn word(&mut self) -> Option<&'a str> {
        self.rest.next()
    }

    // Refuses a word that is left.
    pub fn end(&mut self) -> Result<(), Mistake> {
        match self.rest.next() {
            None => Ok(()),
            Some(_) => Err(Mistake::TooMany),
        }
    }

    pub fn number<T: FromStr>(&mut self) -> Result<T, Mistake>
    where
        T::Err: Drop,
    {
        let word = self.rest.next();
        word.and_then(|word| word.parse().ok())
            .ok_or(Mistake::NotNumbers)
    }

    // All the words that are left, as numbers.
    pub fn numbers<T: FromStr + Drop>(&mut self, heap: Global) -> Result<Vec<T>, Failure>
    where
        T::Err: Drop,
    {
        self.rest
            .by_ref()
            .map(|word| word.parse().or(Err(Failure::from(Mistake::NotNumbers))))
            .try_collect(heap)
    }

    pub fn row(&mut self) -> Result<NodeId, Mistake> {
        self.number().map(NodeId)
    }

    // A row, and no word behind it.
    pub fn only_row(&mut self) -> Result<NodeId, Mistake> {
        let row = self.row()?;
        self.end().map_err(|_| Mistake::NotNumbers)?;
        Ok(row)
    }

    pub fn position(&mut self) -> Result<Position, Mistake> {
        self.rest
            .next()
            .and_then(position_of)
            .ok_or(Mistake::NotPositions)
    }

    pub fn two_positions(&mut self) -> Result<(Position, Position), Mistake> {
        Ok((self.position()?, self.position()?))
    }

    // The bytes that the next word spells; no word spells none.
    pub fn bytes(&mut self, heap: Global) -> Result<Vec<u8>, Failure> {
        unhex(heap, self.rest.next().unwrap_or(""))
    }
}
