// A range: where a stretch of a text starts and where it ends.
ghost use Rattle.std.specs.Prelude.{◌≡◌, true};
ghost use Rattle.position.specs.Places.{Lawful, Answers};
ghost use Rattle.range.specs.Ranges.{Both, InOrder, StartMoved, EndMoved, Settles};

use position::bias::biased_to_start;
use position::order::compare;
use position::position::Position;
use rows::refusal::Refusal;
use source::source::Source;
use std::cmp::Ordering;

// The fields may be set by hand: a call judges them, and a start that is after the end has no text.
#[derive(Clone, Copy, PartialEq, Eq, Debug)]
pub struct Range {
    pub start: Position,
    pub end: Position,
}

impl Range {
    // The range between two positions, in the order of their places; equal ones stay as given.
    pub fn new<S: Source>(s: &S, p: Position, q: Position) -> Result<Range, Refusal>
        ensures { Answers (Lawful (S.Source.doc s.now) p × Lawful (S.Source.doc s.now) q) (InOrder (S.Source.doc s.now) p q) result }
    {
        match compare(s, p, q)? {
            Ordering::Greater => Ok(Range { start: q, end: p }),
            _ => Ok(Range { start: p, end: q }),
        }
    }

    // The range with another start; an end that the start is not before moves along.
    pub fn with_start<S: Source>(self, s: &S, p: Position) -> Result<Range, Refusal>
        ensures { Answers (Lawful (S.Source.doc s.now) p × Both (S.Source.doc s.now) self) (StartMoved (S.Source.doc s.now) p self) result }
    {
        let _ = biased_to_start(s, self.start)?;
        match compare(s, p, self.end)? {
            Ordering::Less => Ok(Range {
                start: biased_to_start(s, p)?,
                end: self.end,
            }),
            _ => Ok(Range { start: p, end: p }),
        }
    }

    // The range with another end; a start that is not before the end moves along.
    pub fn with_end<S: Source>(self, s: &S, p: Position) -> Result<Range, Refusal>
        ensures { Answers (Lawful (S.Source.doc s.now) p × Both (S.Source.doc s.now) self) (EndMoved (S.Source.doc s.now) p self) result }
    {
        let _ = biased_to_start(s, self.end)?;
        match compare(s, self.start, p)? {
            Ordering::Less => Ok(Range {
                start: biased_to_start(s, self.start)?,
                end: p,
            }),
            _ => Ok(Range { start: p, end: p }),
        }
    }

    // Another start, set in place; refused, the range stays as it was.
    pub fn set_start<S: Source>(&mut self, s: &S, p: Position) -> Result<(), Refusal>
        ensures { Settles (Lawful (S.Source.doc s.now) p × Both (S.Source.doc s.now) self.old) (StartMoved (S.Source.doc s.now) p self.old) self.old result self.new }
    {
        *self = self.with_start(s, p)?;
        Ok(())
    }

    // Another end, set in place; refused, the range stays as it was.
    pub fn set_end<S: Source>(&mut self, s: &S, p: Position) -> Result<(), Refusal>
        ensures { Settles (Lawful (S.Source.doc s.now) p × Both (S.Source.doc s.now) self.old) (EndMoved (S.Source.doc s.now) p self.old) self.old result self.new }
    {
        *self = self.with_end(s, p)?;
        Ok(())
    }
}
