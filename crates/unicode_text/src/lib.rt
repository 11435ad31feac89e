// Unicode text: the UTF-8 check, the scalars of a text, and measures of it.
// It knows bytes and scalars, and nothing of rows or runs.
#![tactic(auto)]

pub mod measure;
pub mod scalar;
pub mod usv;
pub mod utf16;
pub mod utf8;
