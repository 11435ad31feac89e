// Where the document, lines, paragraphs and words start and end.
#![tactic(auto)]

pub mod starts;
