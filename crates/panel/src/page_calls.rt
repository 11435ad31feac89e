// The calls on an open page, and the sources that it is read through.
use crate::command::Command;
use crate::position_calls::answer_position;
use crate::range_calls::{answer_piece, answer_range, answer_written};
use crate::reply::Answer;
use crate::strip::Strip;
use crate::text_calls::answer_text;
use crate::tree_calls::{Step, answer_judge, answer_parent, answer_path, answer_walk};
use page::page::Page;
use rows::node::Tables;
use source::layered::Layered;
use source::source::Source;
use std::alloc::Global;

#[derive(Clone, Copy)]
pub struct Open<'a> {
    // what the page was opened on
    pub tables: Tables<'a>,
    pub page: Page<'a>,
    pub source: Layered<Page<'a>>,
}

// The answer to a call on the page or on its text.
pub fn answer_page(
    heap: Global,
    open: &Open<'_>,
    strip: &mut Strip,
    command: &mut Command<'_>,
) -> Answer {
    let page = &open.page;
    let source = &open.source;
    let root = source.root();
    match command.verb {
        "judge" => answer_judge(open.tables, command),
        "strip" => strip.change(heap, command),
        "parent_and_index" => answer_parent(page, command),
        "path" => answer_path(heap, page, command),
        "first" => answer_walk(page, root, command, |_| Ok(Step::First)),
        "last" => answer_walk(page, root, command, |_| Ok(Step::Last)),
        "next" => answer_walk(page, root, command, |words| words.row().map(Step::Next)),
        "previous" => answer_walk(page, root, command, |words| words.row().map(Step::Previous)),
        "range" => answer_range(source, command),
        "text" => answer_written(heap, source, strip.bytes(), command),
        "piece" => answer_piece(heap, source, strip.bytes(), command),
        _ => match answer_position(source, command)? {
            Some(reply) => Ok(reply),
            None => answer_text(heap, command),
        },
    }
}
