// The calls on ranges of a source: their ends, their text, and one run's piece.
use crate::command::Command;
use crate::failure::Mistake;
use crate::reply::{Answer, Reply};
use range::range::Range;
use range::text::text;
use source::source::Source;
use std::alloc::Global;

// No larger buffer is made: the longest text of a page is far shorter.
const LARGEST: usize = 1 << 30;

// A buffer of so many bytes.
pub fn buffer_of(heap: Global, capacity: usize) -> Result<Vec<u8>, Mistake> {
    if capacity > LARGEST {
        return Err(Mistake::NoMemory);
    }
    vec![in heap; 0u8; capacity].map_err(|_| Mistake::NoMemory)
}

// `range P Q`
pub fn answer_range<S: Source>(s: &S, command: &mut Command<'_>) -> Answer {
    let (p, q) = command.two_positions()?;
    command.end()?;
    Ok(Range::new(s, p, q)?.into())
}

// `text P Q CAPACITY`: the text between two positions, in a buffer of its own.
pub fn answer_written<S: Source>(
    heap: Global,
    s: &S,
    strip: &[u8],
    command: &mut Command<'_>,
) -> Answer {
    let (p, q) = command.two_positions()?;
    let capacity = command.number()?;
    command.end()?;
    let mut buffer = buffer_of(heap, capacity)?;
    let count = text(s, Range::new(s, p, q)?, strip, buffer.as_mut_slice())?;
    buffer.truncate(count);
    Ok(Reply::Counted(buffer))
}

// `piece ROW FIRST BEHIND`
pub fn answer_piece<S: Source>(
    heap: Global,
    s: &S,
    strip: &[u8],
    command: &mut Command<'_>,
) -> Answer {
    let row = command.row()?;
    let first = command.number()?;
    let behind = command.number()?;
    command.end()?;
    let bytes = s.piece(row, first, behind, strip)?;
    Ok(Reply::Bytes(bytes.to_vec(heap)?))
}
