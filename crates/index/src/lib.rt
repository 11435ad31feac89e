// Indexes into a text as one: its lines, and its units under a measure.
#![tactic(auto)]

pub mod global;
pub mod line;
pub mod theorem;
mod units;
