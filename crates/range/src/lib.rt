// Ranges of a text: two positions, and the characters between them.
#![tactic(auto)]

pub mod range;
pub mod text;
pub mod theorem;
