// What the characters of one run measure.
ghost use Rattle.std.specs.Prelude.{◌≡◌, true};
ghost use Rattle.source.specs.Runs.{characters_in};
ghost use Rattle.index.specs.Measured.{RunUnits};

use rows::node::NodeId;
use source::source::Source;
use unicode_text::measure::{Measure, measure_text};

// What the run's characters from `first` up to `behind` measure. Masked characters are bullets, and
// no byte of them is looked at.
pub fn run_units<S: Source, M: Measure>(
    s: &S,
    row: NodeId,
    first: usize,
    behind: usize,
) -> Option<usize>
    ensures { RunUnits M.Measure.units (S.Source.doc s.now) row.0 first behind result }
{
    if s.is_masked() {
        return masked_units::<S, M>(s, row, first, behind);
    }
    let bytes = s.piece(row, first, behind, &[]).ok()?;
    measure_text::<M>(bytes).ok()
}

fn masked_units<S: Source, M: Measure>(
    s: &S,
    row: NodeId,
    first: usize,
    behind: usize,
) -> Option<usize>
    ensures { (S.Source.doc s.now).masked ≡ true → RunUnits M.Measure.units (S.Source.doc s.now) row.0 first behind result }
{
    let n = s.character_count(row)?;
    if first > behind || behind > n {
        return None;
    }
    Some((behind - first) * M::BULLET)
}
