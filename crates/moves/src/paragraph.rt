// Moves by paragraphs: line moves made again, at least once.
ghost use Rattle.std.specs.Prelude.{◌≡◌};
ghost use Rattle.position.specs.Places.{Lawful, Answers, offset, offset_in};
ghost use Rattle.starts.specs.Starts.{starts_paragraph, ends_paragraph};
ghost use Rattle.unit.specs.Marks.{paragraphs};
ghost use Rattle.moves.specs.Arrivals.{Arrives, Retreats};
ghost use Rattle.moves.specs.Lines.{EndsLine};
ghost use Rattle.moves.specs.Repeats.{Repeats, LineOn, LineBack, end_or_start};

use crate::line::{backward_to_line_start, forward_to_line_end, forward_to_line_start};
use position::position::Position;
use rows::refusal::Refusal;
use source::source::Source;
use starts::starts::{ends_document, ends_paragraph, starts_paragraph};

fn at_end_or_start<S: Source>(s: &S, p: Position) -> bool
    ensures { result ≡ end_or_start (S.Source.doc s.now) p }
{
    ends_document(s, p) || starts_paragraph(s, p)
}

// Each of these three loops is as short as a call with closures for its step and its test, which would have
// to promise besides that the step comes nearer to an end.

// To the next line's start, until a paragraph starts or the document ends.
pub fn forward_to_paragraph_start<S: Source>(s: &S, p: Position) -> Result<Position, Refusal>
    ensures repeats { Answers (Lawful (S.Source.doc s.now) p) (Repeats (LineOn (S.Source.doc s.now)) (end_or_start (S.Source.doc s.now)) p) result }
    ensures lands { Answers (Lawful (S.Source.doc s.now) p) (Arrives (S.Source.doc s.now) (paragraphs (S.Source.doc s.now)) (offset_in (S.Source.doc s.now).runs p.row.0 0)) result }
{
    let mut current = p;
    loop {
        current = forward_to_line_start(s, current)?;
        if at_end_or_start(s, current) {
            return Ok(current);
        }
    }
}

// To the line's end, until a paragraph or the document ends there.
pub fn forward_to_paragraph_end<S: Source>(s: &S, p: Position) -> Result<Position, Refusal>
    ensures { Answers (Lawful (S.Source.doc s.now) p) (Repeats (EndsLine (S.Source.doc s.now)) (ends_paragraph (S.Source.doc s.now)) p) result }
{
    let mut current = p;
    loop {
        current = forward_to_line_end(s, current)?;
        if ends_paragraph(s, current) {
            return Ok(current);
        }
    }
}

// To the line's start before, until a paragraph starts there.
pub fn backward_to_paragraph_start<S: Source>(s: &S, p: Position) -> Result<Position, Refusal>
    ensures repeats { Answers (Lawful (S.Source.doc s.now) p) (Repeats (LineBack (S.Source.doc s.now)) (starts_paragraph (S.Source.doc s.now)) p) result }
    ensures lands { Answers (Lawful (S.Source.doc s.now) p) (Retreats (S.Source.doc s.now) (paragraphs (S.Source.doc s.now)) (offset (S.Source.doc s.now) p)) result }
{
    let mut current = p;
    loop {
        current = backward_to_line_start(s, current)?;
        if starts_paragraph(s, current) {
            return Ok(current);
        }
    }
}
