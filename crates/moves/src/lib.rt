// Moves along a text by words, lines and paragraphs, from any position.
#![tactic(auto)]

pub mod line;
pub mod paragraph;
pub mod theorem;
pub mod word;
