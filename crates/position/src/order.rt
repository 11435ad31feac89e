// How positions compare. Places stand in the order of their runs, then of their indexes.
ghost use Rattle.std.specs.Prelude.{◌≡◌, ◌<◌, true};
ghost use Rattle.position.specs.Places.{Lawful, Answers};
ghost use Rattle.position.specs.Orders.{alike, numbers, by_runs, Ordered};

use crate::bias::biased_to_start;
use crate::position::Position;
use rows::refusal::Refusal;
use source::source::Source;
use std::cmp::Ordering;

// Equality of root, row and index as plain numbers, by the name that the rules give it: it asks no source
// and biases nothing.
pub fn same(p: Position, q: Position) -> bool
    ensures numbers { result ≡ alike p q }
    ensures yes { result ≡ true → p ≡ q }
    ensures no { p ≡ q → result ≡ true }
{
    p == q
}

fn compare_biased<S: Source>(s: &S, a: Position, b: Position) -> Ordering
    ensures { result ≡ by_runs (S.Source.doc s.now) a b }
{
    if a.row == b.row {
        a.index.cmp(&b.index)
    } else if s.is_before(a.row, b.row) {
        Ordering::Less
    } else {
        Ordering::Greater
    }
}

// The order of two positions' places.
pub fn compare<S: Source>(s: &S, p: Position, q: Position) -> Result<Ordering, Refusal>
    ensures { Answers (Lawful (S.Source.doc s.now) p × Lawful (S.Source.doc s.now) q) (Ordered (S.Source.doc s.now) p q) result }
{
    let a = biased_to_start(s, p)?;
    let b = biased_to_start(s, q)?;
    Ok(compare_biased(s, a, b))
}
