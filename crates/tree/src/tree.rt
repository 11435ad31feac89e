// A tree of rows that has been judged. Its ghost fields are what a walk relies on.
ghost use Rattle.std.specs.Prelude.{◌≡◌, ℕ, ◌+◌, ◌<◌, ◌≤◌, length, get_or};
ghost use Rattle.rows.specs.Rows.{Parted, Topped, Rising, Indexed, Placed, Rowed, Parented, Ordered, Shallow};

use rows::node::*;

pub mod judge;
pub mod order;
pub mod path;
pub mod walk;

// Rows are named by number, as the tables are the caller's and nothing is allocated.
#[derive(Clone, Copy)]
pub struct Tree<'a> {
    rows: &'a [Row],
    children: &'a [NodeId],
    root: NodeId,
    ghost few: { length rows.now ≤ 1024 },
    ghost rooted: { root.0 < length rows.now },
    ghost parted: { Parted rows.now children.now },
    ghost topped: { Topped rows.now },
    ghost rising: { Rising rows.now },
    ghost indexed: { Indexed rows.now },
    ghost placed: { Placed rows.now children.now },
    ghost rowed: { Rowed rows.now children.now },
    ghost parented: { Parented rows.now children.now },
    ghost ordered: { Ordered rows.now children.now },
    ghost shallow: { Shallow rows.now },
}
