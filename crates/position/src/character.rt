// Moves from place to place by one character.
ghost use Rattle.position.specs.Places.{NextPlace, PreviousPlace};

use crate::bias::biased_to_start;
use crate::position::Position;
use rows::refusal::Refusal;
use source::source::Source;

// The next place; the end place has none.
pub fn forward_to_character_start<S: Source>(s: &S, p: Position) -> Result<Position, Refusal>
    ensures { NextPlace (S.Source.doc s.now) p result }
{
    let q = biased_to_start(s, p)?;
    match s.character_count(q.row) {
        Some(n) if q.index < n => biased_to_start(
            s,
            Position {
                index: q.index + 1,
                ..q
            },
        ),
        _ => Err(Refusal::AtEnd),
    }
}

// The place before; the first place has none.
pub fn backward_to_character_start<S: Source>(s: &S, p: Position) -> Result<Position, Refusal>
    ensures { PreviousPlace (S.Source.doc s.now) p result }
{
    let q = biased_to_start(s, p)?;
    if q.index > 0 {
        return Ok(Position {
            index: q.index - 1,
            ..q
        });
    }
    let row = s.previous(q.row).ok_or(Refusal::AtStart)?;
    match s.character_count(row) {
        Some(n) if n > 0 => Ok(Position {
            row,
            index: n - 1,
            ..q
        }),
        _ => Err(Refusal::Misplaced),
    }
}
