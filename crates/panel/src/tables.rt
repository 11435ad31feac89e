// The tables as they are built line by line, before a page is opened on them.
use crate::command::Command;
use crate::failure::Mistake;
use crate::reply::{Answer, Reply};
use rows::node::{NodeId, Part, Row, Tables, TreeIndex};
use std::alloc::Global;

#[derive(Drop)]
pub struct Builder {
    rows: Vec<Row>,
    children: Vec<NodeId>,
    text: Vec<u8>,
    lengths: Vec<u8>,
    words: Vec<u8>,
}

// A part: its start, then its count.
fn part(command: &mut Command<'_>) -> Result<Part, Mistake> {
    Ok(Part {
        start: command.number()?,
        count: command.number()?,
    })
}

// 0 or 1.
fn mark(command: &mut Command<'_>) -> Result<bool, Mistake> {
    match command.number::<u16>()? {
        0 => Ok(false),
        1 => Ok(true),
        _ => Err(Mistake::NotNumbers),
    }
}

// ROLE HIDDEN TREE PARENT INDEX PREVIOUS NEXT, then start and count of the row's part of the child
// entries, the text, the lengths and the word starts.
fn row(command: &mut Command<'_>) -> Result<Row, Mistake> {
    Ok(Row {
        role: command.number()?,
        hidden: mark(command)?,
        tree: TreeIndex(command.number()?),
        parent: command.row()?,
        index: command.number()?,
        previous: command.row()?,
        next: command.row()?,
        children: part(command)?,
        text: part(command)?,
        lengths: part(command)?,
        words: part(command)?,
    })
}

impl Builder {
    pub fn new(heap: Global) -> Builder {
        Builder {
            rows: Vec::new(heap),
            children: Vec::new(heap),
            text: Vec::new(heap),
            lengths: Vec::new(heap),
            words: Vec::new(heap),
        }
    }

    pub fn lend(&self) -> Tables<'_> {
        Tables {
            rows: self.rows.as_slice(),
            children: self.children.as_slice(),
            text: self.text.as_slice(),
            lengths: self.lengths.as_slice(),
            words: self.words.as_slice(),
        }
    }

    pub fn add_row(&mut self, command: &mut Command<'_>) -> Answer {
        let row = row(command)?;
        command.end()?;
        self.rows.push(row)?;
        Ok(Reply::Silent)
    }

    pub fn add_children(&mut self, heap: Global, command: &mut Command<'_>) -> Answer {
        let ids = command.numbers::<u16>(heap)?;
        self.children.extend(ids.iter().copied().map(NodeId))?;
        Ok(Reply::Silent)
    }

    pub fn add_text(&mut self, heap: Global, command: &mut Command<'_>) -> Answer {
        let bytes = command.bytes(heap)?;
        command.end()?;
        self.text.extend_from_slice(bytes.as_slice())?;
        Ok(Reply::Silent)
    }

    pub fn add_lengths(&mut self, heap: Global, command: &mut Command<'_>) -> Answer {
        self.lengths.append(&mut command.numbers(heap)?)?;
        Ok(Reply::Silent)
    }

    pub fn add_words(&mut self, heap: Global, command: &mut Command<'_>) -> Answer {
        self.words.append(&mut command.numbers(heap)?)?;
        Ok(Reply::Silent)
    }

    pub fn clear(&mut self, heap: Global, command: &mut Command<'_>) -> Answer {
        command.end()?;
        *self = Builder::new(heap);
        Ok(Reply::Silent)
    }
}
