// The verdict on tables: their sizes, then each row in turn against each sentence that a sound row
// keeps, up to the first row at fault.
ghost use Rattle.std.specs.Prelude.{◌≡◌, ℕ, ◌+◌, ◌<◌, ◌≤◌, length, IfSome, None, ◌↔◌, IsTrue};
ghost use Rattle.rows.specs.Judge.{rows_in, entries_in, Within, RoleAt, PartsAt, RisingAt, PlacedAt, EntryAt, EnteredAt, GraftedAt, Topmost, Rivals, LoneAt, ShallowAt, Sound, Sized, Verdict, tree_of};
ghost use Rattle.rows.specs.Rows.{count as child_count, par, row as row_at};

use crate::node::*;
use crate::refusal::Refusal;
use crate::role::Role;

// The sum is taken in `usize`, where no two numbers of 16 bits wrap.
fn within(part: Part, len: usize) -> bool
    ensures { IsTrue result ↔ Within part len }
{
    part.start as usize + part.count as usize <= len
}

// A row of the tables, as it is judged.
#[derive(Clone, Copy)]
struct Candidate<'a> {
    tables: Tables<'a>,
    id: u16,
    ghost there: { id < length tables.rows.now },
}

impl Candidate<'_> {
    fn row(&self) -> Row
        ensures { result ≡ row_at (rows_in self.now.tables) self.now.id }
    {
        self.tables.rows[self.id as usize]
    }

    fn role_fits(&self) -> bool
        ensures { IsTrue result ↔ RoleAt (rows_in self.now.tables) self.now.id }
    {
        let here = self.row();
        Role::try_from(here.role).is_ok_and(|role| role != Role::TextRun
            || here.children.count == 0)
    }

    fn parts_fit(&self) -> bool
        ensures { IsTrue result ↔ PartsAt self.now.tables self.now.id }
    {
        let here = self.row();
        within(here.children, self.tables.children.len())
            && within(here.text, self.tables.text.len())
            && within(here.lengths, self.tables.lengths.len())
            && within(here.words, self.tables.words.len())
    }

    fn rises(&self) -> bool
        ensures { IsTrue result ↔ RisingAt (rows_in self.now.tables) self.now.id }
    {
        let parent = self.row().parent;
        if self.id == 0 {
            parent == NONE
        } else {
            parent.0 < self.id
        }
    }

    fn entry(&self, place: u16) -> bool
        requires parts { PartsAt self.now.tables self.now.id }
        requires has { place < child_count (rows_in self.now.tables) self.now.id }
        ensures { IsTrue result ↔ EntryAt (rows_in self.now.tables) (entries_in self.now.tables) self.now.id place }
    {
        let start = self.row().children.start as usize;
        let child = self.tables.children[start + place as usize];
        // Over `is_some_and` what this answers is left open, and so over `is_none_or` below.
        match self.tables.rows.get(child.0 as usize) {
            Some(row) => row.parent.0 == self.id && row.index == place,
            None => false,
        }
    }

    fn entered(&self) -> bool
        requires { PartsAt self.now.tables self.now.id }
        ensures { IsTrue result ↔ EnteredAt (rows_in self.now.tables) (entries_in self.now.tables) self.now.id }
    {
        for place in 0..self.row().children.count {
            if !self.entry(place) {
                return false;
            }
        }
        true
    }
}

// A row that is judged and lies below its parent, as each row before it does.
#[derive(Clone, Copy)]
struct Descendant<'a> {
    own: Candidate<'a>,
    ghost rising: { (q : ℕ) → q < own.id + 1 → RisingAt own.tables.rows.now q },
}

impl<'a> Descendant<'a> {
    // The row above it; nothing for row 0.
    fn parent(&self) -> Option<Row>
        ensures top { result ≡ None → self.now.own.id ≡ 0 }
        ensures above { IfSome result (λ x. (0 < self.now.own.id) × (x ≡ row_at (rows_in self.now.own.tables) (par (rows_in self.now.own.tables) self.now.own.id))) }
    {
        if self.own.id == 0 {
            None
        } else {
            Some(self.own.tables.rows[self.own.row().parent.0 as usize])
        }
    }

    // The rows before it are sound by now, so the parent's part may be read.
    fn placed(&self) -> bool
        requires { (q : ℕ) → q < self.now.own.id → PartsAt self.now.own.tables q }
        ensures { IsTrue result ↔ PlacedAt (rows_in self.now.own.tables) (entries_in self.now.own.tables) self.now.own.id }
    {
        let Some(parent) = self.parent() else {
            return true;
        };
        let part = parent.children;
        let index = self.own.row().index;
        index < part.count
            && self.own.tables.children[part.start as usize + index as usize].0 == self.own.id
    }

    fn grafted(&self) -> bool
        ensures { IsTrue result ↔ GraftedAt (rows_in self.now.own.tables) self.now.own.id }
    {
        match self.parent() {
            Some(parent) => self.own.row().tree == parent.tree || parent.children.count == 1,
            None => true,
        }
    }

    fn topmost(&self) -> bool
        ensures { IsTrue result ↔ Topmost (rows_in self.now.own.tables) self.now.own.id }
    {
        match self.parent() {
            Some(parent) => self.own.row().tree != parent.tree,
            None => true,
        }
    }

    // Whether the row is topmost for the tree number of `other`.
    fn rivals(&self, other: TreeIndex) -> bool
        ensures { IsTrue result ↔ Topmost (rows_in self.now.own.tables) self.now.own.id × (tree_of (rows_in self.now.own.tables) self.now.own.id ≡ other.0) }
    {
        self.own.row().tree == other && self.topmost()
    }

    // Whether no smaller row is topmost for its tree number. A function of its own in the program too: its
    // loop is the longest of the judging, and takes more instructions as a part of it.
    #[inline(never)]
    fn unrivalled(&self) -> bool
        ensures { IsTrue result ↔ ((q : ℕ) → q < self.now.own.id → Rivals (rows_in self.now.own.tables) self.now.own.id q → ⊥) }
    {
        let tree = self.own.row().tree;
        for id in 0..self.own.id {
            let before = Descendant {
                own: Candidate {
                    tables: self.own.tables,
                    id,
                },
            };
            if before.rivals(tree) {
                return false;
            }
        }
        true
    }

    fn lone(&self) -> bool
        ensures { IsTrue result ↔ LoneAt (rows_in self.now.own.tables) self.now.own.id }
    {
        !self.topmost() || self.unrivalled()
    }

    fn shallow(&self) -> bool
        ensures { IsTrue result ↔ ShallowAt (rows_in self.now.own.tables) self.now.own.id }
    {
        let mut current = self.own.id;
        for _ in 0..64u8 {
            if current == 0 {
                return true;
            }
            current = self.own.tables.rows[current as usize].parent.0;
        }
        current == 0
    }
}

impl Tables<'_> {
    // Whether no sentence is broken at this row.
    fn sound(&self, id: u16) -> bool
        requires there { id < length (rows_in self.now) }
        requires before { (q : ℕ) → q < id → Sound self.now q }
        ensures { IsTrue result ↔ Sound self.now id }
    {
        let row = Candidate { tables: *self, id };
        if !(row.role_fits() && row.parts_fit() && row.rises() && row.entered()) {
            return false;
        }
        let row = Descendant { own: row };
        row.placed() && row.grafted() && row.lone() && row.shallow()
    }

    fn sized(&self, root: NodeId) -> bool
        ensures { IsTrue result ↔ Sized self.now root.0 }
    {
        self.rows.len() <= 1024
            && self.children.len() <= 1024
            && self.text.len() <= 32768
            && self.lengths.len() <= 32768
            && self.words.len() <= 32768
            && (root.0 as usize) < self.rows.len()
    }

    // Accepts well-formed tables.
    pub fn verdict(&self, root: NodeId) -> Result<(), Refusal>
        ensures { Verdict self.now root.0 result }
    {
        if !self.sized(root) {
            return Err(Refusal::BadTables);
        }
        for id in 0..self.rows.len() as u16 {
            if !self.sound(id) {
                return Err(Refusal::BadRow(NodeId(id)));
            }
        }
        Ok(())
    }
}
