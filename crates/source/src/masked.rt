// A masked source over any other: each character is the bullet, and its bytes are a part of the
// caller's strip.
ghost use Rattle.std.specs.Prelude.{◌≡◌};
ghost use Rattle.source.specs.Layers.{masked_doc};
ghost use Rattle.source.specs.Keeping.{masked_sound};

use crate::source::Source;
use crate::strip::{BULLET, STRIP_LENGTH, is_strip, part};
use rows::node::NodeId;
use rows::refusal::Refusal;

// Each method is written out, as in `Unworded`.
#[derive(Clone, Copy)]
pub struct Masked<S> {
    pub(crate) inner: S,
}

impl<S> Masked<S> {
    pub fn new(inner: S) -> Masked<S>
        ensures { result.inner ≡ inner }
    {
        Masked { inner }
    }
}

#[tactic(auto, using(crate::proofs::Laws::masked))]
impl<S: Source> Source for Masked<S> {
    ghost doc = { λ m. masked_doc (S.Source.doc m.inner) };

    ghost sound = { λ m. masked_sound (S.Source.doc m.inner) (S.Source.sound m.inner) };

    fn root(&self) -> NodeId {
        self.inner.root()
    }

    fn is_masked(&self) -> bool {
        true
    }

    fn first(&self) -> NodeId {
        self.inner.first()
    }

    fn last(&self) -> NodeId {
        self.inner.last()
    }

    fn next(&self, row: NodeId) -> Option<NodeId> {
        self.inner.next(row)
    }

    fn previous(&self, row: NodeId) -> Option<NodeId> {
        self.inner.previous(row)
    }

    fn character_count(&self, row: NodeId) -> Option<usize> {
        self.inner.character_count(row)
    }

    fn is_joined(&self, row: NodeId) -> Option<bool> {
        self.inner.is_joined(row)
    }

    fn has_break(&self, row: NodeId) -> Option<bool> {
        self.inner.has_break(row)
    }

    fn character_length(&self, row: NodeId, index: usize) -> Option<usize> {
        let count = self.inner.character_count(row)?;
        (index < count).then_some(BULLET.len())
    }

    fn word_start_from(&self, row: NodeId, index: usize) -> Option<usize> {
        self.inner.word_start_from(row, index)
    }

    fn word_start_before(&self, row: NodeId, index: usize) -> Option<usize> {
        self.inner.word_start_before(row, index)
    }

    fn is_before(&self, one: NodeId, other: NodeId) -> bool {
        self.inner.is_before(one, other)
    }

    fn piece<'b>(
        &'b self,
        row: NodeId,
        first: usize,
        behind: usize,
        strip: &'b [u8],
    ) -> Result<&'b [u8], Refusal> {
        let count = self.inner.character_count(row).ok_or(Refusal::Misplaced)?;
        if first > behind || behind > count {
            return Err(Refusal::Misplaced);
        }
        if !is_strip(strip) {
            return Err(Refusal::Needed(STRIP_LENGTH));
        }
        part(strip, strip, true, 0, BULLET.len() * (behind - first)).ok_or(Refusal::Misplaced)
    }
}
