// Sources of runs: what a page, or a layer over one, is read through.
#![tactic(auto)]

pub mod layered;
pub mod masked;
pub mod source;
pub mod strip;
pub mod unworded;
