// The calls on a page's tree, and the judging of its rows.
use crate::command::Command;
use crate::failure::Mistake;
use crate::reply::{Answer, Reply};
use page::page::Page;
use rows::filters::{FieldFilter, Filter, TextFilter};
use rows::node::{NodeId, Tables};
use rows::refusal::Refusal;
use std::alloc::Global;

// What a walk call asks for. A closure in its place could not be called with both filters, and an enum of both
// would be a match for a match.
#[derive(Clone, Copy)]
pub enum Step {
    First,
    Last,
    Next(NodeId),
    Previous(NodeId),
}

fn walk<F: Filter>(
    page: &Page<'_>,
    filter: &F,
    base: NodeId,
    step: Step,
) -> Result<Option<NodeId>, Refusal> {
    match step {
        Step::First => page.first_filtered(filter, base),
        Step::Last => page.last_filtered(filter, base),
        Step::Next(row) => page.next_filtered(filter, base, row),
        Step::Previous(row) => page.previous_filtered(filter, base, row),
    }
}

// `first FILTER BASE`, `last FILTER BASE`, `next FILTER BASE ROW`, `previous FILTER BASE ROW`.
pub fn answer_walk<F>(page: &Page<'_>, root: NodeId, command: &mut Command<'_>, step: F) -> Answer
where
    F: FnOnce(&mut Command<'_>) -> Result<Step, Mistake> + Drop,
    requires { F.IsAlwaysCallable step }
{
    let filter = command.word();
    let base = command.row()?;
    let step = step(command)?;
    command.end()?;
    let row = match filter {
        Some("text") => walk(page, &TextFilter(root), base, step)?,
        Some("field") => walk(page, &FieldFilter, base, step)?,
        _ => return Err(Mistake::NotFilter.into()),
    };
    Ok(row.into())
}

// `parent_and_index ROW`
pub fn answer_parent(page: &Page<'_>, command: &mut Command<'_>) -> Answer {
    let row = command.only_row()?;
    match page.parent_and_index(row)? {
        Some((parent, index)) => Ok(Reply::Pair(usize::from(parent), usize::from(index))),
        None => Ok(Reply::Row(None)),
    }
}

// `path BASE ROW`
pub fn answer_path(heap: Global, page: &Page<'_>, command: &mut Command<'_>) -> Answer {
    let base = command.row()?;
    let row = command.row()?;
    command.end()?;
    let mut places = [0; 64];
    let count = page.relative_index_path(base, row, &mut places)?;
    Ok(Reply::Numbers(places.iter().take(count).copied().collect(heap)?))
}

// `judge ROOT`: what judging the rows alone finds.
pub fn answer_judge(tables: Tables<'_>, command: &mut Command<'_>) -> Answer {
    let root = command.only_row()?;
    tables.verdict(root)?;
    Ok(Reply::Sound)
}
