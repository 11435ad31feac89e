// Moves by lines.
ghost use Rattle.position.specs.Places.{Lawful, Answers, offset, offset_in};
ghost use Rattle.unit.specs.Marks.{lines};
ghost use Rattle.moves.specs.Arrivals.{Arrives, Retreats};
ghost use Rattle.moves.specs.Lines.{EndsLine};

use crate::word::{stop_after, stop_before};
use position::bias::biased_to_start;
use position::position::Position;
use rows::refusal::Refusal;
use source::source::Source;
use starts::starts::joins;
use unit::line::Line;

// Leaves the line of the position's own run for the next line's start, else the document's end.
pub fn forward_to_line_start<S: Source>(s: &S, p: Position) -> Result<Position, Refusal>
    ensures { Answers (Lawful (S.Source.doc s.now) p) (Arrives (S.Source.doc s.now) (lines (S.Source.doc s.now)) (offset_in (S.Source.doc s.now).runs p.row.0 0)) result }
{
    let _ = biased_to_start(s, p)?;
    stop_after(s, &Line, Position { index: 0, ..p })
}

// The start of the line that holds the character before, else the document's start.
pub fn backward_to_line_start<S: Source>(s: &S, p: Position) -> Result<Position, Refusal>
    ensures { Answers (Lawful (S.Source.doc s.now) p) (Retreats (S.Source.doc s.now) (lines (S.Source.doc s.now)) (offset (S.Source.doc s.now) p)) result }
{
    stop_before(s, &Line, p)
}

// The end of the line of the position, biased to start.
pub fn forward_to_line_end<S: Source>(s: &S, p: Position) -> Result<Position, Refusal>
    ensures { Answers (Lawful (S.Source.doc s.now) p) (EndsLine (S.Source.doc s.now) p) result }
{
    let q = biased_to_start(s, p)?;
    let mut row = q.row;
    while joins(s, row) {
        row = s.next(row).ok_or(Refusal::Misplaced)?;
    }
    let index = s.character_count(row).ok_or(Refusal::Misplaced)?;
    Ok(Position { row, index, ..q })
}
