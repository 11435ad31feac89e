// A source without word starts, over any other: a password is read as no words.
ghost use Rattle.std.specs.Prelude.{◌≡◌};
ghost use Rattle.source.specs.Layers.{unworded_doc};
ghost use Rattle.source.specs.Keeping.{unworded_sound};

use crate::source::Source;
use rows::node::NodeId;
use rows::refusal::Refusal;

// Each method is written out: a trait that gave the ones that pass a call on would be as long, and would
// have to be told for each layer which ones it changes.
#[derive(Clone, Copy)]
pub struct Unworded<S> {
    pub(crate) inner: S,
}

impl<S> Unworded<S> {
    pub fn new(inner: S) -> Unworded<S>
        ensures { result.inner ≡ inner }
    {
        Unworded { inner }
    }
}

#[tactic(auto, using(crate::proofs::Laws::unworded))]
impl<S: Source> Source for Unworded<S> {
    ghost doc = { λ u. unworded_doc (S.Source.doc u.inner) };

    ghost sound = { λ u. unworded_sound (S.Source.doc u.inner) (S.Source.sound u.inner) };

    fn root(&self) -> NodeId {
        self.inner.root()
    }

    fn is_masked(&self) -> bool {
        self.inner.is_masked()
    }

    fn first(&self) -> NodeId {
        self.inner.first()
    }

    fn last(&self) -> NodeId {
        self.inner.last()
    }

    fn next(&self, row: NodeId) -> Option<NodeId> {
        self.inner.next(row)
    }

    fn previous(&self, row: NodeId) -> Option<NodeId> {
        self.inner.previous(row)
    }

    fn character_count(&self, row: NodeId) -> Option<usize> {
        self.inner.character_count(row)
    }

    fn is_joined(&self, row: NodeId) -> Option<bool> {
        self.inner.is_joined(row)
    }

    fn has_break(&self, row: NodeId) -> Option<bool> {
        self.inner.has_break(row)
    }

    fn character_length(&self, row: NodeId, index: usize) -> Option<usize> {
        self.inner.character_length(row, index)
    }

    fn word_start_from(&self, _row: NodeId, _index: usize) -> Option<usize> {
        None
    }

    fn word_start_before(&self, _row: NodeId, _index: usize) -> Option<usize> {
        None
    }

    fn is_before(&self, one: NodeId, other: NodeId) -> bool {
        self.inner.is_before(one, other)
    }

    fn piece<'b>(
        &'b self,
        row: NodeId,
        first: usize,
        behind: usize,
        strip: &'b [u8],
    ) -> Result<&'b [u8], Refusal> {
        self.inner.piece(row, first, behind, strip)
    }
}
