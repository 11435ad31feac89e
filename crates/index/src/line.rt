// Lines by number.
ghost use Rattle.std.specs.Prelude.{◌≡◌, ◌≤◌, if◌then◌else◌};
ghost use Rattle.position.specs.Places.{Lawful, Answers};
ghost use Rattle.starts.specs.Starts.{joins as joins_in};
ghost use Rattle.index.specs.LineIndexes.{lines_before, LineStarts, LineRange};

use moves::line::forward_to_line_end;
use position::bias::biased_to_start;
use position::position::Position;
use rows::node::NodeId;
use rows::refusal::Refusal;
use source::source::Source;
use starts::starts::joins;

// The number of lines that end with the run.
fn line_ends<S: Source>(s: &S, row: NodeId) -> usize
    ensures value { result ≡ (if joins_in (S.Source.doc s.now).runs row.0 then 0 else 1) }
    ensures small { result ≤ 1 }
{
    usize::from(!joins(s, row))
}

// The number of lines before the line of the position's own run.
pub fn to_line_index<S: Source>(s: &S, p: Position) -> Result<usize, Refusal>
    ensures { Answers (Lawful (S.Source.doc s.now) p) (λ n. n ≡ lines_before (S.Source.doc s.now).runs p.row.0) result }
{
    let _ = biased_to_start(s, p)?;
    let mut row = s.first();
    let mut lines: usize = 0;
    while row != p.row {
        let next = s.next(row).ok_or(Refusal::Misplaced)?;
        lines += line_ends(s, row);
        row = next;
    }
    Ok(lines)
}

// The run at which the line of this number starts.
fn line_start<S: Source>(s: &S, index: usize) -> Option<NodeId>
    ensures { LineStarts (S.Source.doc s.now) index result }
{
    let mut row = s.first();
    let mut left = index;
    while left > 0 {
        let next = s.next(row)?;
        left -= line_ends(s, row);
        row = next;
    }
    Some(row)
}

// The line of this number, from its start to its last run's end, which is not biased.
pub fn line_range_from_index<S: Source>(
    s: &S,
    index: usize,
) -> Result<(Position, Position), Refusal>
    ensures { LineRange (S.Source.doc s.now) index result }
{
    let row = line_start(s, index).ok_or(Refusal::Beyond)?;
    let start = Position {
        root: s.root(),
        row,
        index: 0,
    };
    let end = forward_to_line_end(s, start).map_err(|_| Refusal::Beyond)?;
    Ok((start, end))
}
