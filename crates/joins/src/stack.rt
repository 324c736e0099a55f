// The row's stack: a join is put on top, or lanes go on from one.
ghost use Rattle.std.specs.Prelude.{◌≡◌, ℕ, ◌+◌, ◌*◌, ◌<◌, ◌≤◌, List, [], ◌∷◌, length};
ghost use Rattle.masks.specs.Masks.{lacking};
ghost use Rattle.store.specs.Layout.{room};
ghost use Rattle.joins.specs.Stack.{width_of, depth_of, join_at, stack_of, leaves, Stacked};

use crate::Join;
use crate::place::RowPlace;
use crate::row::{depth, join_of, most, put_depth, put_join};
use masks::without;

// No join is on the stack.
pub fn clear(row: &RowPlace, lanes: &mut [u32])
    requires fit { room row.now.sizes ≤ length lanes.old }
    ensures is { stack_of row.now.sizes lanes.new row.now.group row.now.start ≡ [] }
    ensures frame { Stacked row.now.sizes row.now.group row.now.start lanes.old lanes.new }
{
    put_depth(row, lanes, 0);
}

// Puts a join on top, if there is room for it.
pub fn push(row: &RowPlace, lanes: &mut [u32], join: Join)
    requires fit { room row.now.sizes ≤ length lanes.old }
    ensures is { depth_of row.now.sizes lanes.old row.now.group row.now.start < 16 * width_of row.now.sizes.lanes row.now.start → stack_of row.now.sizes lanes.new row.now.group row.now.start ≡ (join ∷ stack_of row.now.sizes lanes.old row.now.group row.now.start) }
    ensures refused { 16 * width_of row.now.sizes.lanes row.now.start ≤ depth_of row.now.sizes lanes.old row.now.group row.now.start → lanes.new ≡ lanes.old }
    ensures frame { Stacked row.now.sizes row.now.group row.now.start lanes.old lanes.new }
{
    let n = depth(row, lanes);
    if n >= most(row) {
        return;
    }
    put_join(row, lanes, n, join);
    put_depth(row, lanes, n + 1);
}

// Takes join k out of n: those above it move down. Kept as a loop over places: a join is three words in slots apart, and joins are no
// slice that could be moved as a whole.
fn take_out(row: &RowPlace, lanes: &mut [u32], k: usize, n: usize)
    requires fit { room row.now.sizes ≤ length lanes.old }
    requires there { k < n }
    requires deep { n ≡ depth_of row.now.sizes lanes.old row.now.group row.now.start }
    requires most { n ≤ 16 * width_of row.now.sizes.lanes row.now.start }
    ensures is { (mask : ℕ) → lacking (join_at row.now.sizes lanes.old row.now.group row.now.start k).lanes mask ≡ 0 → stack_of row.now.sizes lanes.new row.now.group row.now.start ≡ leaves (stack_of row.now.sizes lanes.old row.now.group row.now.start) k mask }
    ensures frame { Stacked row.now.sizes row.now.group row.now.start lanes.old lanes.new }
{
    for i in k + 1..n {
        let above = join_of(row, lanes, i);
        put_join(row, lanes, i - 1, above);
    }
    put_depth(row, lanes, n - 1);
}

// The lanes of the mask go on from join k, counted from the oldest; if it has no more lanes, it is taken out.
pub fn leave(row: &RowPlace, lanes: &mut [u32], k: usize, mask: u32)
    requires fit { room row.now.sizes ≤ length lanes.old }
    ensures is { stack_of row.now.sizes lanes.new row.now.group row.now.start ≡ leaves (stack_of row.now.sizes lanes.old row.now.group row.now.start) k mask }
    ensures frame { Stacked row.now.sizes row.now.group row.now.start lanes.old lanes.new }
{
    let n = depth(row, lanes);
    if k >= n {
        return;
    }
    let old = join_of(row, lanes, k);
    let left = without(old.lanes, mask);
    if left == 0 {
        take_out(row, lanes, k, n);
        return;
    }
    put_join(row, lanes, k, Join { lanes: left, ..old });
}
