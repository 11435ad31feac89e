// The tables that a page is opened on: rows and what they have a part of, how they are judged, the
// filters that a walk asks about a row, and the refusals that every call may answer with.
#![tactic(auto)]

pub mod filters;
pub mod node;
pub mod refusal;
pub mod role;
pub mod verdict;
