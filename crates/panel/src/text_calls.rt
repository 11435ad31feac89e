// The calls that need no page, and the last word on a verb that nothing else knows.
use crate::command::Command;
use crate::failure::Mistake;
use crate::position_calls::takes_position;
use crate::reply::{Answer, Reply};
use std::alloc::Global;
use unicode_text::measure::measure_text;
use unicode_text::usv::Usv;
use unicode_text::utf16::Utf16;

// `measure HEX`: what a text measures in scalars and in UTF-16 code units.
fn answer_measure(heap: Global, command: &mut Command<'_>) -> Answer {
    let bytes = command.bytes(heap)?;
    command.end()?;
    let text = bytes.as_slice();
    match (measure_text::<Usv>(text), measure_text::<Utf16>(text)) {
        (Ok(usv), Ok(utf16)) => Ok(Reply::Pair(usv, utf16)),
        _ => Ok(Reply::IllFormed),
    }
}

// Whether a verb is a call on an open page.
fn is_page_call(verb: &str) -> bool {
    let is_named = matches!(
        verb,
        "parent_and_index"
            | "path"
            | "first"
            | "last"
            | "next"
            | "previous"
            | "document_start"
            | "document_end"
            | "compare"
            | "same"
            | "line_range_from_index"
            | "range"
            | "text"
            | "piece"
            | "reader"
    );
    is_named || takes_position(verb) || verb.starts_with("text_position_")
}

// Whether a verb is a call on a reader.
fn is_reader_call(verb: &str) -> bool {
    matches!(
        verb,
        "set_start" | "set_end" | "read_on" | "read_back" | "reader_range" | "close"
    )
}

pub fn answer_text(heap: Global, command: &mut Command<'_>) -> Answer {
    match command.verb {
        "measure" => answer_measure(heap, command),
        verb if is_reader_call(verb) => Err(Mistake::NoReader.into()),
        verb if is_page_call(verb) => Err(Mistake::NoPage.into()),
        _ => Err(Mistake::Unknown.into()),
    }
}
