// Where a place of a text stands: the root that is read, one of its runs, and an index in the run.
ghost use Rattle.std.specs.Prelude.{◌≡◌, true};

use rows::node::NodeId;

// Plain data: ranges and readers hold it, callers set it by hand, and each call judges it. A struct of a source
// and a position would be made anew for each call.
#[derive(Clone, Copy, PartialEq, Eq, Debug)]
pub struct Position {
    pub root: NodeId,
    pub row: NodeId,
    pub index: usize,
}
