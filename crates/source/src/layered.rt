// A choice of layers that is made while the program runs: it is itself a source.
ghost use Rattle.std.specs.Prelude.{◌≡◌};
ghost use Rattle.source.specs.Layers.{layered_doc};
ghost use Rattle.source.specs.Keeping.{layered_sound};

use crate::masked::Masked;
use crate::source::Source;
use crate::unworded::Unworded;
use rows::node::NodeId;
use rows::refusal::Refusal;

// How much of the pile is read.
#[derive(Clone, Copy)]
pub enum Layer {
    Plain,
    Unworded,
    Masked,
}

// The whole pile, and how much of it is read. An enum with a case for each layer would be no plainer: what no
// layer changes is one line here, and would be a match there. A closure in the layer's place would have to be
// called with three types.
#[derive(Clone, Copy)]
pub struct Layered<S> {
    stack: Masked<Unworded<S>>,
    layer: Layer,
}

impl<S> Layered<S> {
    pub fn new(inner: S, layer: Layer) -> Layered<S>
        ensures inner { result.stack.inner.inner ≡ inner }
        ensures layer { result.layer ≡ layer }
    {
        Layered {
            stack: Masked::new(Unworded::new(inner)),
            layer,
        }
    }
}

#[tactic(auto, using(crate::proofs::Laws::layered))]
impl<S: Source> Source for Layered<S> {
    ghost doc = { λ l. layered_doc S.Source.doc l };

    ghost sound = { λ l. layered_sound S.Source.doc S.Source.sound l };

    fn root(&self) -> NodeId {
        self.stack.inner.inner.root()
    }

    fn is_masked(&self) -> bool {
        match self.layer {
            Layer::Plain => self.stack.inner.inner.is_masked(),
            Layer::Unworded => self.stack.inner.is_masked(),
            Layer::Masked => self.stack.is_masked(),
        }
    }

    fn first(&self) -> NodeId {
        self.stack.inner.inner.first()
    }

    fn last(&self) -> NodeId {
        self.stack.inner.inner.last()
    }

    fn next(&self, row: NodeId) -> Option<NodeId> {
        self.stack.inner.inner.next(row)
    }

    fn previous(&self, row: NodeId) -> Option<NodeId> {
        self.stack.inner.inner.previous(row)
    }

    fn character_count(&self, row: NodeId) -> Option<usize> {
        self.stack.inner.inner.character_count(row)
    }

    fn is_joined(&self, row: NodeId) -> Option<bool> {
        self.stack.inner.inner.is_joined(row)
    }

    fn has_break(&self, row: NodeId) -> Option<bool> {
        self.stack.inner.inner.has_break(row)
    }

    fn character_length(&self, row: NodeId, index: usize) -> Option<usize> {
        match self.layer {
            Layer::Plain => self.stack.inner.inner.character_length(row, index),
            Layer::Unworded => self.stack.inner.character_length(row, index),
            Layer::Masked => self.stack.character_length(row, index),
        }
    }

    fn word_start_from(&self, row: NodeId, index: usize) -> Option<usize> {
        match self.layer {
            Layer::Plain => self.stack.inner.inner.word_start_from(row, index),
            Layer::Unworded => self.stack.inner.word_start_from(row, index),
            Layer::Masked => self.stack.word_start_from(row, index),
        }
    }

    fn word_start_before(&self, row: NodeId, index: usize) -> Option<usize> {
        match self.layer {
            Layer::Plain => self.stack.inner.inner.word_start_before(row, index),
            Layer::Unworded => self.stack.inner.word_start_before(row, index),
            Layer::Masked => self.stack.word_start_before(row, index),
        }
    }

    fn is_before(&self, one: NodeId, other: NodeId) -> bool {
        self.stack.inner.inner.is_before(one, other)
    }

    fn piece<'b>(
        &'b self,
        row: NodeId,
        first: usize,
        behind: usize,
        strip: &'b [u8],
    ) -> Result<&'b [u8], Refusal> {
        match self.layer {
            Layer::Plain => self.stack.inner.inner.piece(row, first, behind, strip),
            Layer::Unworded => self.stack.inner.piece(row, first, behind, strip),
            Layer::Masked => self.stack.piece(row, first, behind, strip),
        }
    }
}
