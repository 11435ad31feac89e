// The draft's runs, each call from the tree's: no list is built.
ghost use Rattle.std.specs.Prelude.{◌≡◌, unwrap_or, ◌↔◌, IsTrue};
ghost use Rattle.source.specs.Runs.{row_id, head_row, last_row, next_in, previous_in, before_in};
ghost use Rattle.rows.specs.Rows.{row as row_at};
ghost use Rattle.page.specs.Sheets.{sheet_of, runs_under, IsRun};
ghost use Rattle.page.specs.Parts.{PartsAt};

use crate::draft::Draft;
use crate::part::{Parts, part_of};
use rows::filters::TextFilter;
use rows::node::*;
use rows::role::Role;

// What a number past the table reads as.
const NO_PART: Part = Part { start: 0, count: 0 };

const NO_ROW: Row = Row {
    role: Role::Other as u8,
    hidden: false,
    tree: TreeIndex(0),
    parent: NodeId(0),
    index: 0,
    previous: NodeId(0),
    next: NodeId(0),
    children: NO_PART,
    text: NO_PART,
    lengths: NO_PART,
    words: NO_PART,
};

impl<'a> Draft<'a> {
    // Whether the row is a run here.
    pub(crate) fn is_run(&self, id: NodeId) -> bool
        ensures { IsTrue result ↔ IsRun (sheet_of self.now) id.0 }
    {
        self.tree.is_listed(&TextFilter(self.root), self.root, id)
    }

    // The row, a number past the table read as an empty one.
    pub(crate) fn row(&self, id: NodeId) -> Row
        ensures { result ≡ row_at (sheet_of self.now).rows id.0 }
    {
        self.tree.row(id).unwrap_or(NO_ROW)
    }

    // What the tables have of the row.
    #[inline(always)]
    pub(crate) fn parts(&self, id: NodeId) -> Parts<'a>
        ensures { PartsAt (sheet_of self.now) id.0 result }
    {
        let row = self.row(id);
        Parts {
            text: part_of(self.text, row.text),
            lengths: part_of(self.lengths, row.lengths),
            words: part_of(self.words, row.words),
            joined: row.next != NONE,
        }
    }

    // The first run, or nothing where there is none.
    pub(crate) fn first(&self) -> Option<NodeId>
        ensures { result ≡ head_row (runs_under (sheet_of self.now)) }
    {
        self.tree
            .first(&TextFilter(self.root), self.root)
            .unwrap_or(None)
    }

    // The last run, or nothing where there is none.
    pub(crate) fn last(&self) -> Option<NodeId>
        ensures { (unwrap_or result (row_id 0)).0 ≡ last_row (runs_under (sheet_of self.now)) }
    {
        self.tree
            .last(&TextFilter(self.root), self.root)
            .unwrap_or(None)
    }

    pub(crate) fn next(&self, id: NodeId) -> Option<NodeId>
        ensures { result ≡ next_in (runs_under (sheet_of self.now)) id.0 }
    {
        self.tree
            .next(&TextFilter(self.root), self.root, id)
            .unwrap_or(None)
    }

    pub(crate) fn previous(&self, id: NodeId) -> Option<NodeId>
        ensures { result ≡ previous_in (runs_under (sheet_of self.now)) id.0 }
    {
        self.tree
            .previous(&TextFilter(self.root), self.root, id)
            .unwrap_or(None)
    }

    // Whether one run stands before another.
    pub(crate) fn is_before(&self, one: NodeId, other: NodeId) -> bool
        ensures { result ≡ before_in (runs_under (sheet_of self.now)) one.0 other.0 }
    {
        self.is_run(one)
            && self.is_run(other)
            && self.tree.before(self.root, one, other).unwrap_or(false)
    }
}
