// A row's place in its tree: its parent, and the indexes that lead down to it.
ghost use Rattle.std.specs.Prelude.{◌≡◌, ℕ, ◌+◌, ◌<◌, ◌≤◌, length};
ghost use Rattle.rows.specs.Rows.{row as row_at};
ghost use Rattle.tree.specs.Trees.{rows_of, RowOn, ParentOn, StepsOn, PathOn};

use crate::tree::Tree;
use rows::node::*;
use rows::refusal::Refusal;

impl<'a> Tree<'a> {
    pub fn root(&self) -> NodeId
        ensures { result ≡ self.now.root }
    {
        self.root
    }

    // How many rows there are.
    pub fn len(&self) -> usize
        ensures { result ≡ length (rows_of self.now) }
    {
        self.rows.len()
    }

    // What the table holds for a row, or nothing where it has no such row.
    pub fn row(&self, id: NodeId) -> Option<Row>
        ensures { RowOn self.now id result }
    {
        self.rows.get(id.0 as usize).copied()
    }

    // The parent row and the index among its children, or nothing for row 0.
    pub fn parent_and_index(&self, id: NodeId) -> Result<Option<(u16, u16)>, Refusal>
        ensures { ParentOn self.now id result }
    {
        let here = self.row(id).ok_or(Refusal::Misplaced)?;
        Ok((id.0 > 0).then_some((here.parent.0, here.index)))
    }

    // How many steps `base` lies above `row`, or nothing where it is neither the row nor above it.
    fn steps_to(&self, base: NodeId, row: NodeId) -> Option<usize>
        ensures { StepsOn self.now base row result }
    {
        if row.0 as usize >= self.rows.len() {
            return None;
        }
        let mut n = 0;
        let mut current = row.0;
        while current > base.0 {
            n += 1;
            current = self.rows[current as usize].parent.0;
        }
        (current == base.0).then_some(n)
    }

    // Writes the indexes that lead from `base` down to `row`, and gives their number. The caller lends the
    // array, as nothing is allocated here.
    pub fn relative_index_path(
        &self,
        base: NodeId,
        row: NodeId,
        out: &mut [u16; 64],
    ) -> Result<usize, Refusal>
        ensures { PathOn self.now base row out.old out.new result }
    {
        let n = self.steps_to(base, row).ok_or(Refusal::Misplaced)?;
        let mut current = row.0;
        // by number, since nothing is known behind the loop of what is written through `iter_mut().rev()`
        for place in (0..n).rev() {
            let here = &self.rows[current as usize];
            out[place] = here.index;
            current = here.parent.0;
        }
        Ok(n)
    }
}
