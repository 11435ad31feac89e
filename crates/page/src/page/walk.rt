// The calls on the page's tree: paths, and walks with a filter. The blank page has row 0 alone.
ghost use Rattle.page.specs.Calls.{PageParent, PagePath, PageFirst, PageLast, PageNext, PagePrevious, PageTree};

use crate::page::Page;
use rows::filters::Filter;
use rows::node::*;
use rows::refusal::Refusal;
use tree::tree::Tree;

impl<'a> Page<'a> {
    // The tree, which the blank page lacks.
    fn tree(&self) -> Result<&Tree<'a>, Refusal>
        ensures { PageTree self.now result }
    {
        Ok(&self.draft.as_ref().ok_or(Refusal::Misplaced)?.tree)
    }

    // The parent row and the index among its children, or nothing for row 0.
    pub fn parent_and_index(&self, row: NodeId) -> Result<Option<(u16, u16)>, Refusal>
        ensures { PageParent self.now row result }
    {
        match &self.draft {
            Some(draft) => draft.tree.parent_and_index(row),
            None if row.0 == 0 => Ok(None),
            None => Err(Refusal::Misplaced),
        }
    }

    // Writes the indexes that lead from `base` down to `row`, and gives their number. The caller lends the
    // array, as nothing is allocated here.
    pub fn relative_index_path(
        &self,
        base: NodeId,
        row: NodeId,
        out: &mut [u16; 64],
    ) -> Result<usize, Refusal>
        ensures { PagePath self.now base row out.old out.new result }
    {
        match &self.draft {
            Some(draft) => draft.tree.relative_index_path(base, row, out),
            None if base.0 == 0 && row.0 == 0 => Ok(0),
            None => Err(Refusal::Misplaced),
        }
    }

    // The first row of the list under `base`.
    pub fn first_filtered<F: Filter>(
        &self,
        filter: &F,
        base: NodeId,
    ) -> Result<Option<NodeId>, Refusal>
        ensures { PageFirst self.now (F.Filter.answer filter.now) base result }
    {
        self.tree()?.first(filter, base)
    }

    // The last row of the list under `base`.
    pub fn last_filtered<F: Filter>(
        &self,
        filter: &F,
        base: NodeId,
    ) -> Result<Option<NodeId>, Refusal>
        ensures { PageLast self.now (F.Filter.answer filter.now) base result }
    {
        self.tree()?.last(filter, base)
    }

    // The row after `row` in the list under `base`.
    pub fn next_filtered<F: Filter>(
        &self,
        filter: &F,
        base: NodeId,
        row: NodeId,
    ) -> Result<Option<NodeId>, Refusal>
        ensures { PageNext self.now (F.Filter.answer filter.now) base row result }
    {
        self.tree()?.next(filter, base, row)
    }

    // The row before `row` in the list under `base`.
    pub fn previous_filtered<F: Filter>(
        &self,
        filter: &F,
        base: NodeId,
        row: NodeId,
    ) -> Result<Option<NodeId>, Refusal>
        ensures { PagePrevious self.now (F.Filter.answer filter.now) base row result }
    {
        self.tree()?.previous(filter, base, row)
    }
}
