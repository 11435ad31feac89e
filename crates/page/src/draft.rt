// A page as its tables have it, its runs not yet judged: the tree, and the tables that its rows' parts
// lie in.
ghost use Rattle.std.specs.Prelude.{◌<◌, length};
ghost use Rattle.tree.specs.Trees.{rows_of};

use rows::node::*;
use tree::tree::Tree;

mod judge;
mod make;
mod runs;

#[derive(Clone, Copy)]
pub struct Draft<'a> {
    pub(crate) tree: Tree<'a>,
    // the tree's, kept since nearly every call asks for it
    pub(crate) root: NodeId,
    pub(crate) text: &'a [u8],
    pub(crate) lengths: &'a [u8],
    pub(crate) words: &'a [u8],
    ghost rooted: { root.0 < length (rows_of tree) },
}
