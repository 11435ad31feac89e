// The measure that counts UTF-16 code units.
ghost use Rattle.std.specs.Prelude.{◌≡◌, ℕ, ◌≤◌, List, length};
ghost use Rattle.unicode_text.specs.Measures.{code_units, EncodesInUtf16, utf16_units};
ghost use Rattle.std.proofs.Common.{rules};

use crate::measure::Measure;

// UTF-16 code units: a scalar from U+10000 on has two, any other one.
#[derive(Clone, Copy)]
pub struct Utf16;

impl Measure for Utf16 {
    ghost units = { utf16_units };

    ghost BULLET = { 1 };

    const BULLET: usize = 1;

    ghost least = { Prim.search rules };

    ghost most = { Prim.search rules };

    ghost bullet = { Prim.search rules };

    fn units_of(scalar: char) -> usize
        ensures units { result ≡ utf16_units scalar }
        ensures encoded { EncodesInUtf16 scalar (code_units scalar) }
        ensures only { (us : List ℕ) → EncodesInUtf16 scalar us → result ≡ length us }
    {
        if scalar < '\u{10000}' { 1 } else { 2 }
    }
}
