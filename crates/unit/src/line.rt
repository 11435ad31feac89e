// The unit whose stops are the starts of lines.
ghost use Rattle.starts.specs.Starts.{starts_line};

use crate::marks::*;
use rows::node::NodeId;
use source::source::Source;
use starts::starts::opens_line;

#[derive(Clone, Copy)]
pub struct Line;

impl Marks for Line {
    ghost marks = { λ _ d. starts_line d };

    fn first_from<S: Source>(&self, s: &S, row: NodeId, from: usize) -> Option<usize> {
        (from == 0 && opens_line(s, row)).then_some(from)
    }

    fn last_before<S: Source>(&self, s: &S, row: NodeId, below: usize) -> Option<usize> {
        opens_line(s, row).then_some(0)
    }
}
