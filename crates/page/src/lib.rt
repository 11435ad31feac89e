// The page: the tree and its texts as a source of runs, and how it is opened.
#![tactic(auto)]

mod draft;
pub mod layers;
pub mod page;
mod part;
