// Whole texts: own numbers, cells, lines in each other; or why a text is refused, and where.
#![tactic(auto)]

pub mod blocks;
pub mod heads;
pub mod texts;
