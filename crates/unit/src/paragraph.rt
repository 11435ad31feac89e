// The unit whose stops are the starts of paragraphs.
ghost use Rattle.starts.specs.Starts.{starts_paragraph};

use crate::marks::*;
use rows::node::NodeId;
use source::source::Source;
use starts::starts::opens_paragraph;

#[derive(Clone, Copy)]
pub struct Paragraph;

impl Marks for Paragraph {
    ghost marks = { λ _ d. starts_paragraph d };

    fn first_from<S: Source>(&self, s: &S, row: NodeId, from: usize) -> Option<usize> {
        starts_paragraph_at(s, row, from).then_some(from)
    }

    fn last_before<S: Source>(&self, s: &S, row: NodeId, below: usize) -> Option<usize> {
        opens_paragraph(s, row).then_some(0)
    }
}
