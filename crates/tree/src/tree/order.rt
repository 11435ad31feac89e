// Document order: rows by their index paths.
ghost use Rattle.std.specs.Prelude.{◌≡◌};
ghost use Rattle.tree.specs.Trees.{BeforeOn};

use crate::tree::Tree;
use rows::node::*;
use rows::refusal::Refusal;

impl<'a> Tree<'a> {
    // Whether one row comes before another, by their index paths from `base`. No path has more than 64
    // steps, and nothing is allocated.
    pub fn before(&self, base: NodeId, one: NodeId, other: NodeId) -> Result<bool, Refusal>
        ensures { BeforeOn self.now base one other result }
    {
        let mut left = [0; 64];
        let mut right = [0; 64];
        let n = self.relative_index_path(base, one, &mut left)?;
        let m = self.relative_index_path(base, other, &mut right)?;
        Ok(left[..n] < right[..m])
    }
}
