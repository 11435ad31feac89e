// The measure that counts Unicode scalar values.
ghost use Rattle.std.specs.Prelude.{◌≡◌, ℕ, ◌≤◌};
ghost use Rattle.unicode_text.specs.Measures.{usv_units};
ghost use Rattle.std.proofs.Common.{rules};

use crate::measure::Measure;

// Unicode scalar values: each counts as one.
#[derive(Clone, Copy)]
pub struct Usv;

impl Measure for Usv {
    ghost units = { usv_units };

    ghost BULLET = { 1 };

    const BULLET: usize = 1;

    ghost least = { Prim.search rules };

    ghost most = { Prim.search rules };

    ghost bullet = { Prim.search rules };

    fn units_of(_scalar: char) -> usize {
        1
    }
}
