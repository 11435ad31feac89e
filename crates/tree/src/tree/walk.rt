// One walk for every filter, both ways: it climbs by parents and builds no list.
ghost use Rattle.std.specs.Prelude.{◌≡◌, ℕ, ◌+◌, ◌<◌, ◌≤◌, length, ◌↔◌, IsTrue};
ghost use Rattle.rows.specs.Rows.{count as child_count};
ghost use Rattle.tree.specs.Subtrees.{Under};
ghost use Rattle.rows.specs.Rows.{kid as kid_at};
ghost use Rattle.tree.specs.Walk.{Over, In, Sibling, Child, ahead, shown, answers};
ghost use Rattle.tree.specs.Walk.{head as head_of};
ghost use Rattle.tree.specs.Trees.{rows_of, entries_of, IsRow, Lists, Included, Walked, EdgeOn, BesideOn, FirstOn, LastOn, NextOn, PreviousOn};

use crate::tree::Tree;
use crate::way::Way;
use rows::filters::*;
use rows::node::*;
use rows::refusal::Refusal;

// The helpers of a walk ask that a row is there. A struct that knows it would be made anew at each step.
impl<'a> Tree<'a> {
    // The child of `row` at a place.
    fn kid(&self, row: NodeId, place: usize) -> NodeId
        requires within { IsRow self.now row }
        requires has { place < child_count (rows_of self.now) row.0 }
        ensures { result.0 ≡ kid_at (rows_of self.now) (entries_of self.now) row.0 place }
    {
        self.children[self.rows[row.0 as usize].children.start as usize + place]
    }

    // The sibling of `row` that a walk comes to next.
    fn sibling(&self, row: NodeId, way: Way) -> Option<NodeId>
        requires above { 0 < row.0 }
        requires within { IsRow self.now row }
        ensures { Sibling (rows_of self.now) (entries_of self.now) way row.0 result }
    {
        let here = &self.rows[row.0 as usize];
        let index = here.index as usize;
        match way {
            Way::Forward => {
                if index + 1 < self.rows[here.parent.0 as usize].children.count as usize {
                    Some(self.kid(here.parent, index + 1))
                } else {
                    None
                }
            }
            Way::Backward => {
                if index > 0 {
                    Some(self.kid(here.parent, index - 1))
                } else {
                    None
                }
            }
        }
    }

    // The child of `row` that a walk comes to first.
    fn child(&self, row: NodeId, way: Way) -> Option<NodeId>
        requires { IsRow self.now row }
        ensures { Child (rows_of self.now) (entries_of self.now) way row.0 result }
    {
        let last = (self.rows[row.0 as usize].children.count as usize).checked_sub(1)?;
        match way {
            Way::Forward => Some(self.kid(row, 0)),
            Way::Backward => Some(self.kid(row, last)),
        }
    }

    // The row that a walk below `base` comes to after `row` and all below it.
    fn step_over(&self, base: NodeId, row: NodeId, way: Way) -> Option<NodeId>
        requires based { IsRow self.now base }
        requires under { Under (rows_of self.now) base.0 row.0 }
        ensures { Over (rows_of self.now) (entries_of self.now) way base.0 row.0 result }
    {
        let mut current = row;
        loop {
            if let Some(sibling) = self.sibling(current, way) {
                return Some(sibling);
            }
            current = self.rows[current.0 as usize].parent;
            if current == base {
                return None;
            }
        }
    }

    // The first row that the filter includes, from `start` on.
    fn seek<F: Filter>(
        &self,
        filter: &F,
        base: NodeId,
        start: Option<NodeId>,
        way: Way,
    ) -> Option<NodeId>
        requires based { IsRow self.now base }
        requires under { In (rows_of self.now) base.0 start }
        ensures { result ≡ head_of (ahead (rows_of self.now) (entries_of self.now) way (shown (rows_of self.now) (entries_of self.now) way (answers (F.answer filter.now) (rows_of self.now))) base.0 start) }
    {
        let mut at = start;
        while let Some(id) = at {
            match filter.filter(id, &self.rows[id.0 as usize]) {
                FilterResult::Include => return Some(id),
                // as a match and no `or_else`, since each way on is shown by itself
                FilterResult::ExcludeNode => match self.child(id, way) {
                    Some(child) => at = Some(child),
                    None => at = self.step_over(base, id, way),
                },
                FilterResult::ExcludeSubtree => at = self.step_over(base, id, way),
            }
        }
        None
    }

    // Whether the tree has this row, and the filter includes it.
    fn includes<F: Filter>(&self, filter: &F, row: NodeId) -> bool
        ensures { IsTrue result ↔ Included self.now (F.answer filter.now) row }
    {
        self.rows
            .get(row.0 as usize)
            .is_some_and(|here| filter.filter(row, here) == FilterResult::Include)
    }

    // Whether `row` is of the list under `base`, and a walk may be based there.
    pub fn is_listed<F: Filter>(&self, filter: &F, base: NodeId, row: NodeId) -> bool
        ensures { IsTrue result ↔ Walked self.now (F.answer filter.now) base row }
    {
        if !self.includes(filter, base) || !self.includes(filter, row) {
            return false;
        }
        let mut current = row;
        while current.0 > base.0 {
            current = self.rows[current.0 as usize].parent;
            if current == base {
                return true;
            }
            if filter.filter(current, &self.rows[current.0 as usize]) != FilterResult::ExcludeNode {
                return false;
            }
        }
        false
    }

    // The row that a walk of the list under `base` comes to first.
    fn edge<F: Filter>(&self, filter: &F, base: NodeId, way: Way) -> Result<Option<NodeId>, Refusal>
        ensures { EdgeOn way self.now (F.answer filter.now) base result }
    {
        if !self.includes(filter, base) {
            return Err(Refusal::Misplaced);
        }
        let start = self.child(base, way);
        Ok(self.seek(filter, base, start, way))
    }

    // The row that a walk of the list under `base` comes to after `row`.
    fn beside<F: Filter>(
        &self,
        filter: &F,
        base: NodeId,
        row: NodeId,
        way: Way,
    ) -> Result<Option<NodeId>, Refusal>
        ensures { BesideOn way self.now (F.answer filter.now) base row result }
    {
        if !self.is_listed(filter, base, row) {
            return Err(Refusal::Misplaced);
        }
        let start = self.step_over(base, row, way);
        Ok(self.seek(filter, base, start, way))
    }

    // The first row of the list under `base`.
    pub fn first<F: Filter>(&self, filter: &F, base: NodeId) -> Result<Option<NodeId>, Refusal>
        ensures first { FirstOn self.now (F.answer filter.now) base result }
        ensures lists { IsRow self.now base → Lists self.now (F.answer filter.now) base }
    {
        self.edge(filter, base, Way::Forward)
    }

    // The last row of the list under `base`.
    pub fn last<F: Filter>(&self, filter: &F, base: NodeId) -> Result<Option<NodeId>, Refusal>
        ensures { LastOn self.now (F.answer filter.now) base result }
    {
        self.edge(filter, base, Way::Backward)
    }

    // The row after `row` in the list under `base`.
    pub fn next<F: Filter>(
        &self,
        filter: &F,
        base: NodeId,
        row: NodeId,
    ) -> Result<Option<NodeId>, Refusal>
        ensures { NextOn self.now (F.answer filter.now) base row result }
    {
        self.beside(filter, base, row, Way::Forward)
    }

    // The row before `row` in the list under `base`.
    pub fn previous<F: Filter>(
        &self,
        filter: &F,
        base: NodeId,
        row: NodeId,
    ) -> Result<Option<NodeId>, Refusal>
        ensures { PreviousOn self.now (F.answer filter.now) base row result }
    {
        self.beside(filter, base, row, Way::Backward)
    }
}
