// The unit whose stops are the starts of words and of paragraphs.
ghost use Rattle.starts.specs.Starts.{starts_word};

use crate::marks::*;
use rows::node::NodeId;
use source::source::Source;
use starts::starts::opens_paragraph;

#[derive(Clone, Copy)]
pub struct Word;

impl Marks for Word {
    ghost marks = { λ _ d. starts_word d };

    fn first_from<S: Source>(&self, s: &S, row: NodeId, from: usize) -> Option<usize> {
        if starts_paragraph_at(s, row, from) {
            Some(from)
        } else {
            s.word_start_from(row, from)
        }
    }

    fn last_before<S: Source>(&self, s: &S, row: NodeId, below: usize) -> Option<usize> {
        s.word_start_before(row, below)
            .or_else(|| opens_paragraph(s, row).then_some(0))
    }
}
