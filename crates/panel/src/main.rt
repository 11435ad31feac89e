// The talking panel's program: it reads commands from standard input, one a line, and prints one line
// for each call. docs/PANEL.md has the commands and what they print.
#![tactic(auto)]

mod command;
mod failure;
mod input;
mod page_calls;
mod position_calls;
mod range_calls;
mod reader_calls;
mod reply;
mod serve;
mod strip;
mod tables;
mod text_calls;
mod tree_calls;

use crate::command::Command;
use crate::input::Input;
use crate::reply::{Answer, print_answer};
use crate::serve::serve_page;
use crate::strip::Strip;
use crate::tables::Builder;
use crate::text_calls::answer_text;
use crate::tree_calls::answer_judge;
use std::alloc::Global;

// The commands that need no page. What no part of the program knows is unknown, or wants a page.
fn answer(
    heap: Global,
    tables: &mut Builder,
    strip: &mut Strip,
    command: &mut Command<'_>,
) -> Answer {
    match command.verb {
        "judge" => answer_judge(tables.lend(), command),
        "row" => tables.add_row(command),
        "child" => tables.add_children(heap, command),
        "text" => tables.add_text(heap, command),
        "length" => tables.add_lengths(heap, command),
        "word" => tables.add_words(heap, command),
        "clear" => tables.clear(heap, command),
        "strip" => strip.change(heap, command),
        _ => answer_text(heap, command),
    }
}

fn main(rt: HostRuntime) -> anyhow::Result<()> {
    let mut input = Input::new(&rt)?;
    let mut tables = Builder::new(rt.alloc());
    let mut strip = Strip::bullets(rt.alloc())?;
    while input.advance()? {
        match Command::of(input.line()) {
            Ok(None) => {}
            Ok(Some(mut command)) if command.verb == "open" => match command.only_row() {
                Ok(root) => serve_page(&rt, &mut input, &mut strip, tables.lend(), root)?,
                Err(mistake) => print_answer(&rt, Err(mistake.into()))?,
            },
            Ok(Some(mut command)) => print_answer(
                &rt,
                answer(rt.alloc(), &mut tables, &mut strip, &mut command),
            )?,
            Err(mistake) => print_answer(&rt, Err(mistake.into()))?,
        }
    }
    Ok(())
}
