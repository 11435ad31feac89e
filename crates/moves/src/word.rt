// Moves to the stops of a unit, with an edge of the document where no stop is left.
ghost use Rattle.position.specs.Places.{Lawful, Answers, offset};
ghost use Rattle.unit.specs.Marks.{words};
ghost use Rattle.moves.specs.Arrivals.{Arrives, Retreats};

use position::bias::biased_to_start;
use position::position::Position;
use rows::refusal::Refusal;
use source::source::Source;
use unit::unit::Unit;
use unit::word::Word;

// The first stop after the position's place, else the end place.
pub fn stop_after<S: Source, U: Unit<S>>(s: &S, unit: &U, p: Position) -> Result<Position, Refusal>
    ensures { Answers (Lawful (S.Source.doc s.now) p) (Arrives (S.Source.doc s.now) (U.Unit.stops unit.now (S.Source.doc s.now)) (offset (S.Source.doc s.now) p)) result }
{
    match unit.forward(s, p) {
        Err(Refusal::AtEnd) => biased_to_start(s, p),
        r => r,
    }
}

// The last stop before the position's place, else the first place.
pub fn stop_before<S: Source, U: Unit<S>>(s: &S, unit: &U, p: Position) -> Result<Position, Refusal>
    ensures { Answers (Lawful (S.Source.doc s.now) p) (Retreats (S.Source.doc s.now) (U.Unit.stops unit.now (S.Source.doc s.now)) (offset (S.Source.doc s.now) p)) result }
{
    match unit.backward(s, p) {
        Err(Refusal::AtStart) => biased_to_start(s, p),
        r => r,
    }
}

// The first word start after the position, else the document's end.
pub fn forward_to_word_start<S: Source>(s: &S, p: Position) -> Result<Position, Refusal>
    ensures { Answers (Lawful (S.Source.doc s.now) p) (Arrives (S.Source.doc s.now) (words (S.Source.doc s.now)) (offset (S.Source.doc s.now) p)) result }
{
    stop_after(s, &Word, p)
}

// The last word start before the position, else the document's start.
pub fn backward_to_word_start<S: Source>(s: &S, p: Position) -> Result<Position, Refusal>
    ensures { Answers (Lawful (S.Source.doc s.now) p) (Retreats (S.Source.doc s.now) (words (S.Source.doc s.now)) (offset (S.Source.doc s.now) p)) result }
{
    stop_before(s, &Word, p)
}
