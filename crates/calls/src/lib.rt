// The calls that programs make: a text and a field's bytes, and the lent slices.
// A text and a field's bytes stay two parameters: they are two files, each is refused by itself, and what is promised names each.
#![tactic(auto)]

pub mod answer;
mod judge;
mod load;
pub mod memory;
pub mod plan;
pub mod programs;
mod told;
