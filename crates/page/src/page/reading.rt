// The page as a source of runs.
ghost use Rattle.page.specs.Pages.{page_doc};
ghost use Rattle.page.specs.Parts.{PartsOf};
ghost use Rattle.page.specs.Sounds.{page_sound};

use crate::page::Page;
use crate::part::*;
use rows::node::*;
use rows::refusal::Refusal;
use source::source::Source;
use source::strip::part;

impl<'a> Page<'a> {
    // What the page has of a run; the blank page's row 0 has no characters. Inlined, as `Draft::parts` is, so
    // that each call cuts out of the tables only what it asks for.
    #[inline(always)]
    fn parts(&self, row: NodeId) -> Option<Parts<'a>>
        ensures { PartsOf (page_doc self.now).runs row.0 result }
    {
        match &self.draft {
            Some(draft) => draft.is_run(row).then_some(draft.parts(row)),
            None => (row.0 == 0).then_some(Parts::none()),
        }
    }
}

impl Source for Page<'_> {
    ghost doc = { λ p. page_doc p };

    ghost sound = { λ p. page_sound p };

    fn root(&self) -> NodeId {
        self.draft.as_ref().map_or(NodeId(0), |draft| draft.root)
    }

    fn is_masked(&self) -> bool {
        false
    }

    fn first(&self) -> NodeId {
        self.draft
            .as_ref()
            .and_then(|draft| draft.first())
            .unwrap_or(NodeId(0))
    }

    fn last(&self) -> NodeId {
        self.draft
            .as_ref()
            .and_then(|draft| draft.last())
            .unwrap_or(NodeId(0))
    }

    fn next(&self, row: NodeId) -> Option<NodeId> {
        self.draft.as_ref()?.next(row)
    }

    fn previous(&self, row: NodeId) -> Option<NodeId> {
        self.draft.as_ref()?.previous(row)
    }

    fn character_count(&self, row: NodeId) -> Option<usize> {
        Some(self.parts(row)?.lengths.len())
    }

    fn is_joined(&self, row: NodeId) -> Option<bool> {
        Some(self.parts(row)?.joined)
    }

    fn has_break(&self, row: NodeId) -> Option<bool> {
        Some(self.parts(row)?.has_break())
    }

    fn character_length(&self, row: NodeId, index: usize) -> Option<usize> {
        let length = self.parts(row)?.lengths.get(index)?;
        Some(usize::from(*length))
    }

    fn word_start_from(&self, row: NodeId, index: usize) -> Option<usize> {
        first_from(self.parts(row)?.words, index)
    }

    fn word_start_before(&self, row: NodeId, index: usize) -> Option<usize> {
        last_before(self.parts(row)?.words, index)
    }

    fn is_before(&self, one: NodeId, other: NodeId) -> bool {
        self.draft
            .as_ref()
            .is_some_and(|draft| draft.is_before(one, other))
    }

    fn piece<'b>(
        &'b self,
        row: NodeId,
        first: usize,
        behind: usize,
        strip: &'b [u8],
    ) -> Result<&'b [u8], Refusal> {
        let parts = self.parts(row).ok_or(Refusal::Misplaced)?;
        let lengths = parts.lengths;
        if first > behind || behind > lengths.len() {
            return Err(Refusal::Misplaced);
        }
        let from = total(&lengths[..first]);
        let to = from + total(&lengths[first..behind]);
        part(parts.text, strip, false, from, to).ok_or(Refusal::Misplaced)
    }
}
