// Checks the UTF-8 check, the scalars, the cuts and the measures against vectors of the Unicode
// Standard, which stand in the file `stdin`: a line for each, with the bytes and then `ill-formed`, or the
// text's count of scalars, its count of UTF-16 code units, and its scalars.
#![tactic(auto)]

use std::alloc::{AllocError, Global};
use std::io::{BufRead, BufReader};
use std::str::SplitWhitespace;
use unicode_text::measure::{Measure, measure_text};
use unicode_text::scalar::{is_boundary, scalar_at};
use unicode_text::usv::Usv;
use unicode_text::utf8::is_utf8;
use unicode_text::utf16::Utf16;

// The bytes that hexadecimal digits spell; nothing where the line is no vector.
fn unhex(heap: Global, text: &str) -> Result<Option<Vec<u8>>, AllocError> {
    let mut bytes = Vec::new(heap);
    for at in (0..text.len()).step_by(2) {
        let pair = text.get(at..at.saturating_add(2));
        let Some(byte) = pair.and_then(|digits| u8::from_str_radix(digits, 16).ok()) else {
            return Ok(None);
        };
        bytes.push(byte)?;
    }
    Ok(Some(bytes))
}

// Whether a text measures as many units as a word says.
fn measures<M: Measure>(text: &[u8], word: Option<&str>) -> bool {
    let wanted = word.and_then(|digits| digits.parse().ok());
    measure_text::<M>(text).is_ok_and(|units| wanted == Some(units))
}

// Whether no offset of `length` from `at` on, but the first, is a cut.
fn is_uncut(text: &[u8], at: usize, length: usize) -> bool {
    !(1..length).any(|k| is_boundary(text, at.saturating_add(k)))
}

// Where the scalar at `at` ends; nothing where it is not the one that the word names, or is cut.
fn end_of_scalar(text: &[u8], at: usize, word: &str) -> Option<usize> {
    let wanted = u32::from_str_radix(word, 16).ok()?;
    let scalar = scalar_at(text, at)?;
    let is_right = scalar.value as u32 == wanted
        && is_boundary(text, at)
        && is_uncut(text, at, scalar.length);
    is_right.then_some(at.saturating_add(scalar.length))
}

// Whether the text's scalars are those that the words name, and it is cut just between them.
fn is_made_of(text: &[u8], mut words: SplitWhitespace<'_>) -> bool {
    let end = words.try_fold(0, |at, word| end_of_scalar(text, at, word));
    end == Some(text.len())
        && is_boundary(text, text.len())
        && !is_boundary(text, text.len().saturating_add(1))
        && scalar_at(text, text.len()).is_none()
}

// Whether the crate answers as the vector has it.
fn agrees(text: &[u8], mut words: SplitWhitespace<'_>) -> bool {
    match words.next() {
        Some("ill-formed") => !is_utf8(text)
            && measure_text::<Usv>(text).is_err()
            && measure_text::<Utf16>(text).is_err(),
        usv => is_utf8(text)
            && measures::<Usv>(text, usv)
            && measures::<Utf16>(text, words.next())
            && is_made_of(text, words),
    }
}

fn main(rt: HostRuntime) -> anyhow::Result<()> {
    let mut right = 0u32;
    let mut wrong = 0u32;
    for line in BufReader::new(rt.alloc(), rt.stdin())?.lines(rt.alloc()) {
        let text = line?;
        let mut words = text.as_str().split_whitespace();
        let Some(hex) = words.next().filter(|word| !word.starts_with('#')) else {
            continue;
        };
        match unhex(rt.alloc(), hex)? {
            Some(bytes) if agrees(bytes.as_slice(), words) => right = right.saturating_add(1),
            _ => {
                println!(rt; "wrong: {hex}")?;
                wrong = wrong.saturating_add(1);
            }
        }
    }
    println!(rt; "{right} vectors right, {wrong} wrong")?;
    Ok(())
}
