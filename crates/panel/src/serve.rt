// Answers lines while a page is open, and while a reader is open on it. A line that changes the tables,
// or opens a page anew, closes both: it is handed back.
ghost use Rattle.std.specs.Prelude.{◌≤◌, OnOk};
ghost use Rattle.panel.specs.Lines.{lines_left};

use crate::command::Command;
use crate::failure::Mistake;
use crate::input::Input;
use crate::page_calls::{Open, answer_page};
use crate::reader_calls::answer_reader;
use crate::reply::{Numbered, answer_line, print_answer};
use crate::strip::Strip;
use page::page::Page;
use reader::reader::Reader;
use rows::node::{NodeId, Tables};
use rows::refusal::Refusal;
use source::source::Source;

// Where a line belongs while a page is open.
#[derive(Clone, Copy)]
enum Level {
    // changes the tables, or opens a page
    Tables,
    Reader,
    Close,
    Page,
}

fn level_of(line: &[u8]) -> Level {
    let Ok(Some(mut command)) = Command::of(line) else {
        return Level::Page;
    };
    match command.verb {
        "row" | "child" | "length" | "word" | "clear" | "open" => Level::Tables,
        "text" => text_level(&mut command),
        "reader" => Level::Reader,
        "close" => Level::Close,
        _ => Level::Page,
    }
}

// `text` with one word appends to the table, and with more it is a call.
fn text_level(command: &mut Command<'_>) -> Level {
    let _ = command.word();
    match command.end() {
        Ok(()) => Level::Tables,
        Err(_) => Level::Page,
    }
}

// As `Page::open` answers: a page is there in each case.
fn print_opened(rt: &impl Print, open: &Open<'_>, refusal: Option<Refusal>) -> anyhow::Result<()> {
    match refusal {
        Some(refusal) => println!(rt; "refused {}", Numbered(refusal))?,
        None if open.source.is_masked() => println!(rt; "page masked")?,
        None => println!(rt; "page plain")?,
    }
    Ok(())
}

// Whether a line has one word alone.
fn is_alone(line: &[u8]) -> bool {
    match Command::of(line) {
        Ok(Some(mut command)) => command.end().is_ok(),
        _ => false,
    }
}

// `reader`: a reader just opened, and the calls on it, up to `close`.
fn serve_reader(
    rt: &(impl Print + AllocGlobal),
    input: &mut Input,
    strip: &mut Strip,
    open: &Open<'_>,
) -> anyhow::Result<()>
    ensures { OnOk result (lines_left input.new ≤ lines_left input.old) }
{
    let mut reader = Reader::open(open.source);
    print_answer(rt, Ok(reader.range().into()))?;
    while input.advance()? {
        match level_of(input.line()) {
            Level::Page => print_answer(
                rt,
                answer_line(input.line(), |command| {
                    answer_reader(rt.alloc(), open, &mut reader, strip, command)
                }),
            )?,
            Level::Close if is_alone(input.line()) => {
                print_answer(rt, Ok(reader.close().into()))?;
                return Ok(());
            }
            Level::Close => print_answer(rt, Err(Mistake::TooMany.into()))?,
            Level::Tables | Level::Reader => {
                input.keep();
                break;
            }
        }
    }
    Ok(())
}

// `open ROOT`: opens a page, and answers the calls on it, or on the blank page.
pub fn serve_page(
    rt: &(impl Print + AllocGlobal),
    input: &mut Input,
    strip: &mut Strip,
    tables: Tables<'_>,
    root: NodeId,
) -> anyhow::Result<()>
    ensures { OnOk result (lines_left input.new ≤ lines_left input.old) }
{
    let (page, refusal) = Page::open(tables, root);
    let open = Open {
        tables,
        page,
        source: page.layered(),
    };
    print_opened(rt, &open, refusal)?;
    while input.advance()? {
        match level_of(input.line()) {
            Level::Tables => {
                input.keep();
                break;
            }
            Level::Reader if is_alone(input.line()) => serve_reader(rt, input, strip, &open)?,
            Level::Reader => print_answer(rt, Err(Mistake::TooMany.into()))?,
            Level::Close | Level::Page => print_answer(
                rt,
                answer_line(input.line(), |command| {
                    answer_page(rt.alloc(), &open, strip, command)
                }),
            )?,
        }
    }
    Ok(())
}
