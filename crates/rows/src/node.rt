// The tables that a page is opened on: rows, and what the rows' parts are parts of.
ghost use Rattle.std.specs.Prelude.{◌≡◌, ◌≤◌, ◌↔◌, IsTrue};
ghost use Rattle.rows.specs.Roles.{code_of};

use crate::role::Role;

// A row's number. `NONE` stands for no row, as a parent and in line links.
#[derive(Clone, Copy, PartialEq, Eq, Debug)]
pub struct NodeId(pub u16);

// The number of the tree that a row belongs to: another kind of number than a row's.
#[derive(Clone, Copy, PartialEq, Eq, Debug)]
pub struct TreeIndex(pub u16);

// An `Option` would ask callers for another table than the one they have.
pub const NONE: NodeId = NodeId(65535);

// A stretch of a table, in the numbers of 16 bits that a row has: a slice could not be damaged, and so not
// judged.
#[derive(Clone, Copy)]
pub struct Part {
    pub start: u16,
    pub count: u16,
}

#[derive(Clone, Copy)]
pub struct Row {
    // a number, since a table may hold one that is no role, and is then refused
    pub role: u8,
    pub hidden: bool,
    pub tree: TreeIndex,
    pub parent: NodeId,
    // among the parent's children
    pub index: u16,
    // on the line
    pub previous: NodeId,
    pub next: NodeId,
    pub children: Part,
    pub text: Part,
    pub lengths: Part,
    pub words: Part,
}

impl Row {
    // Whether the table has this role for the row.
    pub fn has_role(&self, role: Role) -> bool
        ensures { IsTrue result ↔ (self.now.role ≡ code_of role) }
    {
        Role::try_from(self.role) == Ok(role)
    }

    // Whether the table has a role for the row whose rows hold text of their own.
    pub fn holds_text(&self) -> bool
        ensures { IsTrue result ↔ (2 ≤ self.now.role) × (self.now.role ≤ 6) }
    {
        Role::try_from(self.role).is_ok_and(Role::holds_text)
    }
}

#[derive(Clone, Copy)]
pub struct Tables<'a> {
    pub rows: &'a [Row],
    pub children: &'a [NodeId],
    pub text: &'a [u8],
    // the bytes of each character
    pub lengths: &'a [u8],
    // the characters that words start at
    pub words: &'a [u8],
}
