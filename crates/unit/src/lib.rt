// Units of text: sets of a source's places, and the moves from stop to stop.
#![tactic(auto)]

pub mod character;
pub mod line;
mod marks;
pub mod paragraph;
pub mod theorem;
pub mod unit;
pub mod word;
