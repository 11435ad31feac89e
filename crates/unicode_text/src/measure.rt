// Measures of text: a number for each scalar, and their sum for a text.
ghost use Rattle.std.specs.Prelude.{◌≡◌, ℕ, ◌+◌, ◌<◌, ◌≤◌};
ghost use Rattle.unicode_text.specs.Measures.{the_bullet};
ghost use Rattle.unicode_text.specs.Measures.{Measures as MeasuresOf};

use crate::scalar::scalar_at;

// Why a text is not measured: it has 2^62 bytes or more, so that the sum might not fit, or it is not
// well-formed UTF-8. Length is looked at first.
#[derive(Clone, Copy, PartialEq, Eq, Debug)]
pub enum Unmeasured {
    TooLong,
    IllFormed,
}

// No text of so many bytes is measured.
const TOO_LONG: usize = 0x4000_0000_0000_0000;

// A measure gives each scalar a number from 1 to 4.
pub trait Measure {
    ghost units: { ℕ → ℕ };

    ghost BULLET: { ℕ };

    // What the bullet, U+2022, measures.
    const BULLET: usize;

    fn units_of(scalar: char) -> usize
        ensures { result ≡ units scalar };

    ghost least: { (c : ℕ) → 1 ≤ units c };

    ghost most: { (c : ℕ) → units c ≤ 4 };

    ghost bullet: { BULLET ≡ units the_bullet };

    // The constant, with what it means.
    final fn bullet_units() -> usize
        ensures { result ≡ units the_bullet }
    {
        Self::BULLET
    }
}

// What a text measures: the sum over its scalars.
pub fn measure_text<M: Measure>(text: &[u8]) -> Result<usize, Unmeasured>
    ensures { MeasuresOf M.Measure.units text.now result }
{
    if text.len() >= TOO_LONG {
        return Err(Unmeasured::TooLong);
    }
    let mut sum = 0;
    let mut at = 0;
    // Each step is as long as its scalar, and an iterator of scalars would have this loop as its one user.
    while at < text.len() {
        let scalar = scalar_at(text, at).ok_or(Unmeasured::IllFormed)?;
        sum += M::units_of(scalar.value);
        at += scalar.length;
    }
    Ok(sum)
}
