// Readers: a source that is read on and back by units.
#![tactic(auto)]

pub mod reader;
