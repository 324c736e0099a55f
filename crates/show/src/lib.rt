// What the programs that run a text share: the memory that they lend, and what a person sees.
#![tactic(auto)]

mod lines;
mod order;
mod programs;
mod slices;
mod told;

pub use programs::{any_shown, rewrite_shown, run_shown, turns_shown};
pub use slices::{Slices, lend};
pub use told::show;
