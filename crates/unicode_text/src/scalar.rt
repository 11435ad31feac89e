// Unicode scalars in a text: which one stands at an offset, and where a text may be cut.
ghost use Rattle.std.specs.Prelude.{◌≡◌, ℕ, ◌+◌, ◌*◌, ◌%◌, ◌^◌, ◌<◌, ◌≤◌, ◌⊎◌, length, Option, MatchOption, slice_index, ◌↔◌, IsTrue};
ghost use Rattle.unicode_text.specs.declared.scalar.Scalar.{Scalar};
ghost use Rattle.unicode_text.specs.Table.{Trail, WellFormed};
ghost use Rattle.unicode_text.specs.Scalars.{IsScalar, StandsAt, Cut, Between};

// A scalar, and the number of bytes that its encoding has.
#[derive(Clone, Copy, PartialEq, Eq, Debug)]
pub struct Scalar {
    pub value: char,
    pub length: usize,
}

// The six bits of the trailing byte at an offset; nothing where no trailing byte stands there.
fn trailing_bits(text: &[u8], at: usize) -> Option<u32>
    ensures { MatchOption result (at < length text.now → Trail (slice_index text.now at) → ⊥) (λ x. (at < length text.now) × Trail (slice_index text.now at) × (x ≡ slice_index text.now at % 0x40)) }
{
    let byte = *text.get(at)?;
    matches!(byte, 0x80..=0xBF).then_some((byte % 0x40) as u32)
}

// A value as the scalar of so many bytes; nothing where fewer bytes would do, or for no scalar.
fn of_length(value: u32, least: u32, bytes: usize) -> Option<Scalar>
    ensures { MatchOption result (least ≤ value → IsScalar value → ⊥) (λ s. (least ≤ value) × IsScalar value × (s.value ≡ value) × (s.length ≡ bytes)) }
{
    if value < least {
        return None;
    }
    let value = char::from_u32(value)?;
    Some(Scalar {
        value,
        length: bytes,
    })
}

// The scalar whose encoding begins at an offset; nothing where none does, as at or past the end.
pub fn scalar_at(text: &[u8], at: usize) -> Option<Scalar>
    ensures stands { StandsAt text.now at result }
    ensures only { (o : Option Scalar) → StandsAt text.now at o → o ≡ result }
{
    if at < text.len() {
        read_at(text, at)
    } else {
        None
    }
}

// The scalar whose encoding begins at the byte at an offset, by that byte's range. It stands apart, since of
// `scalar_at` it is shown besides, once for all these cases, that no other answer fits.
fn read_at(text: &[u8], at: usize) -> Option<Scalar>
    requires { at < length text.now }
    ensures { StandsAt text.now at result }
{
    let lead = text[at] as u32;
    match lead {
        0x00..=0x7F => of_length(lead, 0, 1),
        0xC0..=0xDF => {
            let a = trailing_bits(text, at + 1)?;
            of_length((lead % 0x20) * 0x40 + a, 0x80, 2)
        }
        0xE0..=0xEF => {
            let a = trailing_bits(text, at + 1)?;
            let b = trailing_bits(text, at + 2)?;
            of_length((lead % 0x10) * 0x1000 + a * 0x40 + b, 0x800, 3)
        }
        0xF0..=0xF7 => {
            let a = trailing_bits(text, at + 1)?;
            let b = trailing_bits(text, at + 2)?;
            let c = trailing_bits(text, at + 3)?;
            of_length(
                (lead % 0x08) * 0x4_0000 + a * 0x1000 + b * 0x40 + c,
                0x1_0000,
                4,
            )
        }
        _ => None,
    }
}

// Whether a well-formed text may be cut at an offset: between two scalars, or at either end. Of any
// other text it tells only whether an encoding might begin there.
pub fn is_boundary(text: &[u8], at: usize) -> bool
    ensures cut { IsTrue result ↔ Cut text.now at }
    ensures between { WellFormed text.now → (IsTrue result ↔ Between text.now at) }
{
    text.get(at)
        .map_or(at == text.len(), |byte| !matches!(byte, 0x80..=0xBF))
}
