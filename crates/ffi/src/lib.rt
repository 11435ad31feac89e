// What C and Rust may call through the static library: a byte slice is passed as a pointer and then a
// length. C knows no type parameters, so that each measure has a call of its own.
#![tactic(auto)]

ghost use Rattle.std.specs.Prelude.{◌≡◌, ◌↔◌, IsTrue};
ghost use Rattle.unicode_text.specs.Table.{WellFormed};
ghost use Rattle.unicode_text.specs.Measures.{usv_units, utf16_units};
ghost use Rattle.ffi.specs.Counts.{Counted};

use unicode_text::measure::measure_text;
use unicode_text::usv::Usv;
use unicode_text::utf8::is_utf8;
use unicode_text::utf16::Utf16;

// Whether the text is well-formed UTF-8.
#[unsafe(no_mangle)]
pub extern "C" fn panel_is_utf8(text: &[u8]) -> bool
    ensures { IsTrue result ↔ WellFormed text.now }
{
    is_utf8(text)
}

// The text's scalars, or the largest number where it is not measured.
#[unsafe(no_mangle)]
pub extern "C" fn panel_usv_count(text: &[u8]) -> usize
    ensures { Counted usv_units text.now result }
{
    measure_text::<Usv>(text).unwrap_or(usize::MAX)
}

// The text's UTF-16 code units, or the largest number where it is not measured.
#[unsafe(no_mangle)]
pub extern "C" fn panel_utf16_count(text: &[u8]) -> usize
    ensures { Counted utf16_units text.now result }
{
    measure_text::<Utf16>(text).unwrap_or(usize::MAX)
}
