// What a call declines with: a case for each number, and the row or the bytes that go with it.
ghost use Rattle.std.specs.Prelude.{◌≡◌};
ghost use Rattle.rows.specs.Refusals.{number_of, fault_of, needed_of};

use crate::node::*;

#[derive(Clone, Copy, PartialEq, Eq, Debug)]
pub enum Refusal {
    BadTables,
    BadRow(NodeId),
    BadRoot(NodeId),
    BadRun(NodeId),
    BadWords(NodeId),
    BadLine(NodeId),
    AtEnd,
    AtStart,
    // not a place of this page
    Misplaced,
    // an index above the total, or no such line
    Beyond,
    // the bytes that a buffer must have
    Needed(usize),
}

impl Refusal {
    pub fn number(&self) -> u8
        ensures { result ≡ number_of self.now }
    {
        match self {
            Refusal::BadTables => 1,
            Refusal::BadRow(_) => 2,
            Refusal::BadRoot(_) => 3,
            Refusal::BadRun(_) => 4,
            Refusal::BadWords(_) => 5,
            Refusal::BadLine(_) => 6,
            Refusal::AtEnd => 7,
            Refusal::AtStart => 8,
            Refusal::Misplaced => 9,
            Refusal::Beyond => 10,
            Refusal::Needed(_) => 11,
        }
    }

    // The row at fault, where the refusal names one.
    pub fn row(&self) -> Option<NodeId>
        ensures { result ≡ fault_of self.now }
    {
        match *self {
            Refusal::BadRow(row)
            | Refusal::BadRoot(row)
            | Refusal::BadRun(row)
            | Refusal::BadWords(row)
            | Refusal::BadLine(row) => Some(row),
            _ => None,
        }
    }

    // The bytes needed, where the refusal names them.
    pub fn needed(&self) -> Option<usize>
        ensures { result ≡ needed_of self.now }
    {
        match *self {
            Refusal::Needed(bytes) => Some(bytes),
            _ => None,
        }
    }
}
