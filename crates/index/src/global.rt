// Indexes into the whole text under a measure: to a position's, and back.
ghost use Rattle.std.specs.Prelude.{◌≡◌, ◌≤◌, length, Some};
ghost use Rattle.unicode_text.specs.Measures.{usv_units, utf16_units};
ghost use Rattle.source.specs.Runs.{count_in, characters_in};
ghost use Rattle.position.specs.Places.{Lawful, Answers, offset};
ghost use Rattle.index.specs.Measured.{index_at, HeldIn, Finds};

use crate::units::run_units;
use position::bias::biased_to_start;
use position::position::Position;
use rows::node::NodeId;
use rows::refusal::Refusal;
use source::source::Source;
use unicode_text::measure::Measure;
use unicode_text::usv::Usv;
use unicode_text::utf16::Utf16;

// What the text before the position measures. Only the runs up to the position's own are asked.
pub fn to_global_index<S: Source, M: Measure>(s: &S, p: Position) -> Result<usize, Refusal>
    ensures { Answers (Lawful (S.Source.doc s.now) p) (λ n. n ≡ index_at M.Measure.units (S.Source.doc s.now) (offset (S.Source.doc s.now) p)) result }
{
    let _ = biased_to_start(s, p)?;
    let mut row = s.first();
    let mut sum: usize = 0;
    while row != p.row {
        let n = s.character_count(row).ok_or(Refusal::Misplaced)?;
        let units = run_units::<S, M>(s, row, 0, n).ok_or(Refusal::Misplaced)?;
        let next = s.next(row).ok_or(Refusal::Misplaced)?;
        sum += units;
        row = next;
    }
    let own = run_units::<S, M>(s, row, 0, p.index).ok_or(Refusal::Misplaced)?;
    Ok(sum + own)
}

// By the name that the original has for it, as the three below that name a measure.
pub fn to_global_usv_index<S: Source>(s: &S, p: Position) -> Result<usize, Refusal>
    ensures { Answers (Lawful (S.Source.doc s.now) p) (λ n. n ≡ index_at usv_units (S.Source.doc s.now) (offset (S.Source.doc s.now) p)) result }
{
    to_global_index::<S, Usv>(s, p)
}

pub fn to_global_utf16_index<S: Source>(s: &S, p: Position) -> Result<usize, Refusal>
    ensures { Answers (Lawful (S.Source.doc s.now) p) (λ n. n ≡ index_at utf16_units (S.Source.doc s.now) (offset (S.Source.doc s.now) p)) result }
{
    to_global_index::<S, Utf16>(s, p)
}

// The run's character that holds the unit.
fn held_in<S: Source, M: Measure>(s: &S, row: NodeId, n: usize, index: usize) -> Option<usize>
    ensures { Some n ≡ count_in (S.Source.doc s.now).runs row.0 → HeldIn M.Measure.units (characters_in (S.Source.doc s.now).runs row.0) index result }
{
    let mut left = index;
    for at in 0..n {
        let units = run_units::<S, M>(s, row, at, at + 1)?;
        if left < units {
            return Some(at);
        }
        left -= units;
    }
    None
}

// The character that holds the unit. The text's measure gives the document's end, and no index above
// it is taken.
pub fn position_from_global_index<S: Source, M: Measure>(
    s: &S,
    index: usize,
) -> Result<Position, Refusal>
    ensures { Finds M.Measure.units (S.Source.doc s.now) index result }
{
    let root = s.root();
    let mut row = s.first();
    let mut left = index;
    loop {
        let n = s.character_count(row).ok_or(Refusal::Beyond)?;
        let units = run_units::<S, M>(s, row, 0, n).ok_or(Refusal::Beyond)?;
        if left < units {
            let index = held_in::<S, M>(s, row, n, left).ok_or(Refusal::Beyond)?;
            return Ok(Position { root, row, index });
        }
        let Some(next) = s.next(row) else {
            return if left == units {
                Ok(Position {
                    root,
                    row,
                    index: n,
                })
            } else {
                Err(Refusal::Beyond)
            };
        };
        left -= units;
        row = next;
    }
}

pub fn text_position_from_global_usv_index<S: Source>(
    s: &S,
    index: usize,
) -> Result<Position, Refusal>
    ensures { Finds usv_units (S.Source.doc s.now) index result }
{
    position_from_global_index::<S, Usv>(s, index)
}

pub fn text_position_from_global_utf16_index<S: Source>(
    s: &S,
    index: usize,
) -> Result<Position, Refusal>
    ensures { Finds utf16_units (S.Source.doc s.now) index result }
{
    position_from_global_index::<S, Utf16>(s, index)
}
