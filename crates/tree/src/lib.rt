// The tree that judged rows make: its paths, the order of its rows, and the one walk that serves every
// filter.
#![tactic(auto)]

pub mod tree;
pub mod way;
