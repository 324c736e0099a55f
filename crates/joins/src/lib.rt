// The joins of a row of lanes: where lanes that a branch has parted come together again.
#![tactic(auto)]

mod place;
mod row;
mod stack;
mod story;

pub use place::RowPlace;
pub use row::{depth, full, join_of, width};
pub use stack::{clear, leave, push};
pub use story::joins_kept_stands;

// A join: the entry of its branch, the entry where its lanes join, and the lanes, as bits, that have not gone on from there.
#[derive(Clone, Copy)]
pub struct Join {
    pub branch: u32,
    pub line: u32,
    pub lanes: u32,
}
