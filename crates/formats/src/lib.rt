// The outer formats: a field's bytes, what is told in print, lent memory by size.
#![tactic(auto)]

pub mod field;
pub mod packed;
pub mod pen;
pub mod print;
pub mod refusal;
pub mod sizes;
pub mod told;
