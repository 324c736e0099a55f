// Cells in a text: as they are printed, or as decimal numbers.
#![tactic(auto)]

pub mod scan;
pub mod text;
