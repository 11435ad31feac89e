// Units whose stops are known run by run: one pair of loops for all of them.
ghost use Rattle.std.specs.Prelude.{◌≡◌, Bool, ◌&&◌, Some, None, ◌==◌};
ghost use Rattle.source.specs.Runs.{Document, count_in};
ghost use Rattle.source.specs.Pieces.{Within};
ghost use Rattle.position.specs.declared.position.Position.{Position as Where};
ghost use Rattle.starts.specs.Starts.{opens_paragraph};
ghost use Rattle.unit.specs.Moves.{GoesOn, GoesBack};
ghost use Rattle.unit.specs.Marks.{stops_by, marks_of, First, Last, FirstIn, LastIn};

use crate::unit::Unit;
use position::bias::biased_to_start;
use position::position::Position;
use rows::node::NodeId;
use rows::refusal::Refusal;
use source::source::Source;
use starts::starts::opens_paragraph;

// Which positions of a run are marked: what a unit's moves ask of one run at a time.
pub trait Marks {
    ghost marks: { Self → Document → Where → Bool };

    fn first_from<S: Source>(&self, s: &S, row: NodeId, from: usize) -> Option<usize>
        ensures { FirstIn (S.Source.doc s.now) (marks self.now (S.Source.doc s.now)) row.0 from result };

    fn last_before<S: Source>(&self, s: &S, row: NodeId, below: usize) -> Option<usize>
        ensures { LastIn (S.Source.doc s.now) (marks self.now (S.Source.doc s.now)) row.0 below result };
}

// A unit that is given by its marks has them, and the first place, as its stops.
impl<S: Source, M: Marks> Unit<S> for M {
    ghost stops = { λ m d. stops_by d (M.Marks.marks m d) };

    fn forward(&self, s: &S, p: Position) -> Result<Position, Refusal> {
        onward(s, self, p)
    }

    fn backward(&self, s: &S, p: Position) -> Result<Position, Refusal> {
        back(s, self, p)
    }
}

// Whether a paragraph starts at the index of the run.
pub fn starts_paragraph_at<S: Source>(s: &S, row: NodeId, index: usize) -> bool
    ensures { result ≡ (index == 0 && opens_paragraph (S.Source.doc s.now).runs row.0) }
{
    index == 0 && opens_paragraph(s, row)
}

// The first marked index of a run of `n` characters from `from` on.
fn first_in<S: Source, M: Marks>(s: &S, m: &M, row: NodeId, from: usize, n: usize) -> Option<usize>
    ensures { Some n ≡ count_in (S.Source.doc s.now).runs row.0 → First (marks_of (S.Source.doc s.now) (M.Marks.marks m.now (S.Source.doc s.now)) row.0) n from result }
{
    if from < n {
        m.first_from(s, row, from)
    } else {
        None
    }
}

// The last marked index of a run below `below`.
fn last_in<S: Source, M: Marks>(s: &S, m: &M, row: NodeId, below: usize) -> Option<usize>
    ensures { Within below (count_in (S.Source.doc s.now).runs row.0) → Last (marks_of (S.Source.doc s.now) (M.Marks.marks m.now (S.Source.doc s.now)) row.0) below result }
{
    if below > 0 {
        m.last_before(s, row, below)
    } else {
        None
    }
}

// The first marked place after the position's, else the end place.
fn onward<S: Source, M: Marks>(s: &S, m: &M, p: Position) -> Result<Position, Refusal>
    ensures { GoesOn (S.Source.doc s.now) (stops_by (S.Source.doc s.now) (M.Marks.marks m.now (S.Source.doc s.now))) p result }
{
    let q = biased_to_start(s, p)?;
    let size = s.character_count(q.row).ok_or(Refusal::Misplaced)?;
    if q.index >= size {
        return Err(Refusal::AtEnd);
    }
    let mut row = q.row;
    let mut from = q.index + 1;
    loop {
        let n = s.character_count(row).ok_or(Refusal::Misplaced)?;
        if let Some(index) = first_in(s, m, row, from, n) {
            return Ok(Position { row, index, ..q });
        }
        let Some(next) = s.next(row) else {
            return Ok(Position { row, index: n, ..q });
        };
        row = next;
        from = 0;
    }
}

// The last marked place before the position's, else the first place.
fn back<S: Source, M: Marks>(s: &S, m: &M, p: Position) -> Result<Position, Refusal>
    ensures { GoesBack (S.Source.doc s.now) (stops_by (S.Source.doc s.now) (M.Marks.marks m.now (S.Source.doc s.now))) p result }
{
    let q = biased_to_start(s, p)?;
    let mut row = q.row;
    let mut below = q.index;
    loop {
        if let Some(index) = last_in(s, m, row, below) {
            return Ok(Position { row, index, ..q });
        }
        let Some(before) = s.previous(row) else {
            return if q.row != row || q.index > 0 {
                Ok(Position { row, index: 0, ..q })
            } else {
                Err(Refusal::AtStart)
            };
        };
        let n = s.character_count(before).ok_or(Refusal::Misplaced)?;
        row = before;
        below = n;
    }
}
