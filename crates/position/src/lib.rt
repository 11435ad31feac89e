// Positions of a text: which there are, how they are biased, how they compare, and moves by character.
#![tactic(auto)]

pub mod bias;
pub mod character;
pub mod order;
pub mod position;
pub mod theorem;
