// A run's end and the next run's start name one place: biasing chooses between them.
ghost use Rattle.std.specs.Prelude.{◌≡◌};
ghost use Rattle.source.specs.Runs.{count_in};
ghost use Rattle.position.specs.Places.{Lawful, Answers, BiasedStart, BiasedEnd, document_start, document_end, place, total, size_of};

use crate::position::Position;
use rows::refusal::Refusal;
use source::source::Source;

// A run's end becomes the next run's start, if a run follows.
pub fn biased_to_start<S: Source>(s: &S, p: Position) -> Result<Position, Refusal>
    ensures { Answers (Lawful (S.Source.doc s.now) p) (BiasedStart (S.Source.doc s.now) p) result }
{
    if p.root != s.root() {
        return Err(Refusal::Misplaced);
    }
    let count = s.character_count(p.row).ok_or(Refusal::Misplaced)?;
    if p.index > count {
        return Err(Refusal::Misplaced);
    }
    if p.index < count {
        return Ok(p);
    }
    let start = s.next(p.row).map(|row| Position { row, index: 0, ..p });
    Ok(start.unwrap_or(p))
}

// A run's start becomes the previous run's end, if a run precedes.
pub fn biased_to_end<S: Source>(s: &S, p: Position) -> Result<Position, Refusal>
    ensures { Answers (Lawful (S.Source.doc s.now) p) (BiasedEnd (S.Source.doc s.now) p) result }
{
    let _ = biased_to_start(s, p)?;
    if p.index > 0 {
        return Ok(p);
    }
    let Some(row) = s.previous(p.row) else {
        return Ok(p);
    };
    let index = s.character_count(row).ok_or(Refusal::Misplaced)?;
    Ok(Position { row, index, ..p })
}

// The first run's start, which is the first place.
pub fn document_start<S: Source>(s: &S) -> Position
    ensures edge { result ≡ document_start (S.Source.doc s.now) }
    ensures place { result ≡ place (S.Source.doc s.now) 0 }
{
    Position {
        root: s.root(),
        row: s.first(),
        index: 0,
    }
}

// The last run's end, which is the end place.
pub fn document_end<S: Source>(s: &S) -> Position
    ensures edge { result ≡ document_end (S.Source.doc s.now) }
    ensures place { result ≡ place (S.Source.doc s.now) (total (S.Source.doc s.now)) }
{
    let row = s.last();
    Position {
        root: s.root(),
        row,
        index: s.character_count(row).unwrap_or(0),
    }
}
