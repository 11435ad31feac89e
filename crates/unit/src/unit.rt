// What a unit is: a set of a source's places, its stops, and the moves from stop to stop.
ghost use Rattle.source.specs.Runs.{Document};
ghost use Rattle.unit.specs.Stops.{Stops};
ghost use Rattle.unit.specs.Moves.{GoesOn, GoesBack};

use position::position::Position;
use rows::refusal::Refusal;
use source::source::Source;

// The stops may depend on the unit's own value and on all that a document is, its text too.
pub trait Unit<S: Source> {
    ghost stops: { Self → Document → Stops };

    // The first stop after the position's place, else the end place.
    fn forward(&self, s: &S, p: Position) -> Result<Position, Refusal>
        ensures { GoesOn (S.Source.doc s.now) (stops self.now (S.Source.doc s.now)) p result };

    // The last stop before the position's place.
    fn backward(&self, s: &S, p: Position) -> Result<Position, Refusal>
        ensures { GoesBack (S.Source.doc s.now) (stops self.now (S.Source.doc s.now)) p result };
}
