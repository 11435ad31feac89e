// A source of runs, by its meaning: a root, whether it is masked, and its runs in document order.
ghost use Rattle.std.specs.Prelude.{◌≡◌};
ghost use Rattle.source.specs.Runs.{Document, Sound, first_row, last_row, next_in, previous_in, count_in, joined_in, breaks_in, length_in, word_from, word_before, before_in};
ghost use Rattle.source.specs.Pieces.{Pieces};

use rows::node::NodeId;
use rows::refusal::Refusal;

// Every call is total, and asking changes nothing: a row that is no run here gets nothing, and is
// before no other.
pub trait Source {
    // What the source means, and that it is all that a source must be.
    ghost doc: { Self → Document };

    ghost sound: { (s : Self) → Sound (doc s) };

    fn root(&self) -> NodeId
        ensures { result.0 ≡ (doc self.now).root };

    fn is_masked(&self) -> bool
        ensures { result ≡ (doc self.now).masked };

    fn first(&self) -> NodeId
        ensures { result.0 ≡ first_row (doc self.now).runs };

    fn last(&self) -> NodeId
        ensures { result.0 ≡ last_row (doc self.now).runs };

    // The run after this one, nothing behind the last.
    fn next(&self, row: NodeId) -> Option<NodeId>
        ensures { result ≡ next_in (doc self.now).runs row.0 };

    // The run before this one, nothing before the first.
    fn previous(&self, row: NodeId) -> Option<NodeId>
        ensures { result ≡ previous_in (doc self.now).runs row.0 };

    // The number of characters, and so whether the row is a run here.
    fn character_count(&self, row: NodeId) -> Option<usize>
        ensures { result ≡ count_in (doc self.now).runs row.0 };

    // Whether the run is joined on its line to the next one.
    fn is_joined(&self, row: NodeId) -> Option<bool>
        ensures { result ≡ joined_in (doc self.now).runs row.0 };

    // Whether the run has the break mark.
    fn has_break(&self, row: NodeId) -> Option<bool>
        ensures { result ≡ breaks_in (doc self.now).runs row.0 };

    // The bytes of one character.
    fn character_length(&self, row: NodeId, index: usize) -> Option<usize>
        ensures { result ≡ length_in (doc self.now).runs row.0 index };

    // The run's first word start at an index or behind it.
    fn word_start_from(&self, row: NodeId, index: usize) -> Option<usize>
        ensures { result ≡ word_from (doc self.now).runs row.0 index };

    // The run's last word start before an index.
    fn word_start_before(&self, row: NodeId, index: usize) -> Option<usize>
        ensures { result ≡ word_before (doc self.now).runs row.0 index };

    // Whether one run stands before another.
    fn is_before(&self, one: NodeId, other: NodeId) -> bool
        ensures { result ≡ before_in (doc self.now).runs one.0 other.0 };

    // The bytes of the run's characters from `first` up to `behind`: a part of the page's text, or of
    // the caller's strip when masked.
    fn piece<'b>(
        &'b self,
        row: NodeId,
        first: usize,
        behind: usize,
        strip: &'b [u8],
    ) -> Result<&'b [u8], Refusal>
        ensures { Pieces (doc self.now) row.0 first behind strip.now result };
}
