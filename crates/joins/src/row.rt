// The words of a row's stack: how many joins, and each of them.
ghost use Rattle.std.specs.Prelude.{◌≡◌, ℕ, ◌+◌, ◌*◌, ◌<◌, ◌≤◌, length, nat_lt};
ghost use Rattle.masks.specs.Masks.{on};
ghost use Rattle.store.specs.Layout.{room};
ghost use Rattle.joins.specs.Stack.{width_of, depth_of, join_at};
ghost use Rattle.joins.specs.Words.{Deep, JoinPut};

use crate::Join;
use crate::place::RowPlace;
use masks::first_lanes;
use store::{put_word, word_of};

// How many lanes the row has that begins at lane `start`, of so many lanes.
#[tactic(auto, unfolding(crate::specs::Stack::width_of))]
pub fn width(lanes: usize, start: usize) -> usize
    requires { start < lanes }
    ensures is { result ≡ width_of lanes start }
    ensures some { (0 < result) × (result ≤ 32) }
{
    (lanes - start).min(32)
}

// All lanes of the row.
pub fn full(lanes: usize, start: usize) -> u32
    requires { start < lanes }
    ensures { (i : ℕ) → on result i ≡ nat_lt i (width_of lanes start) }
{
    first_lanes(width(lanes, start))
}

// How many joins the row has room for.
pub fn most(row: &RowPlace) -> usize
    ensures { result ≡ 16 * width_of row.now.sizes.lanes row.now.start }
{
    16 * width(row.sizes.lanes, row.start)
}

// How many joins are on the stack.
#[tactic(auto, unfolding(crate::specs::Stack::depth_of))]
pub fn depth(row: &RowPlace, lanes: &[u32]) -> usize
    requires fit { room row.now.sizes ≤ length lanes.now }
    ensures is { result ≡ depth_of row.now.sizes lanes.now row.now.group row.now.start }
    ensures most { result ≤ 16 * width_of row.now.sizes.lanes row.now.start }
{
    (word_of(row.sizes, lanes, row.group, 6, row.start) as usize).min(most(row))
}

// Join k, counted from the oldest.
#[tactic(auto, using(crate::proofs::Stackframes::lane_there), unfolding(crate::specs::Stack::width_of))]
pub fn join_of(row: &RowPlace, lanes: &[u32], k: usize) -> Join
    requires fit { room row.now.sizes ≤ length lanes.now }
    requires there { k < 16 * width_of row.now.sizes.lanes row.now.start }
    ensures { result ≡ join_at row.now.sizes lanes.now row.now.group row.now.start k }
{
    let l = row.start + k / 16;
    let s = k % 16;
    Join {
        branch: word_of(row.sizes, lanes, row.group, 16 + s, l),
        line: word_of(row.sizes, lanes, row.group, 32 + s, l),
        lanes: word_of(row.sizes, lanes, row.group, 48 + s, l),
    }
}

// Says how many joins are on the stack.
pub fn put_depth(row: &RowPlace, lanes: &mut [u32], n: usize)
    requires fit { room row.now.sizes ≤ length lanes.old }
    requires most { n ≤ 16 * width_of row.now.sizes.lanes row.now.start }
    ensures { Deep row.now.sizes row.now.group row.now.start n lanes.old lanes.new }
{
    put_word(row.sizes, lanes, row.group, 6, row.start, n as u32);
}

// Puts join k.
#[tactic(auto, using(crate::proofs::Stackframes::lane_there), unfolding(crate::specs::Stack::width_of))]
pub fn put_join(row: &RowPlace, lanes: &mut [u32], k: usize, join: Join)
    requires fit { room row.now.sizes ≤ length lanes.old }
    requires there { k < 16 * width_of row.now.sizes.lanes row.now.start }
    ensures { JoinPut row.now.sizes row.now.group row.now.start k join lanes.old lanes.new }
{
    let l = row.start + k / 16;
    let s = k % 16;
    put_word(row.sizes, lanes, row.group, 16 + s, l, join.branch);
    put_word(row.sizes, lanes, row.group, 32 + s, l, join.line);
    put_word(row.sizes, lanes, row.group, 48 + s, l, join.lanes);
}
