// The unit of which every place is a stop.
ghost use Rattle.unit.specs.Stops.{every};

use crate::unit::*;
use position::character::{backward_to_character_start, forward_to_character_start};
use position::position::Position;
use rows::refusal::Refusal;
use source::source::Source;

#[derive(Clone, Copy)]
pub struct Character;

impl<S: Source> Unit<S> for Character {
    ghost stops = { λ _ _. every };

    fn forward(&self, s: &S, p: Position) -> Result<Position, Refusal> {
        forward_to_character_start(s, p)
    }

    fn backward(&self, s: &S, p: Position) -> Result<Position, Refusal> {
        backward_to_character_start(s, p)
    }
}
