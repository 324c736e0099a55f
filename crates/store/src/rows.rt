// One slot of neighbouring lanes, which are neighbouring words: written as a whole.
ghost use Rattle.std.specs.Prelude.{◌≡◌, ℕ, ◌+◌, ◌<◌, ◌≤◌, length, if◌then◌else◌, nat_eq, slice_index};
ghost use Rattle.std.proofs.Math.Seq.{paste};
ghost use Rattle.store.specs.Layout.{slots, place_of, room};
ghost use Rattle.store.specs.Rows.{slot_row, put_row_spec};

use crate::Sizes;
use crate::acts::chosen;
use crate::words::place;

// By an index: of what is written through iter_mut() behind a zip nothing is known afterwards.
fn choose(to: &mut [u32], from: &[u32], yes: u32, no: u32)
    requires { length to.old ≡ length from.now }
    ensures { (k : ℕ) → k < length to.new → slice_index to.new k ≡ (if nat_eq (slice_index from.now k) 0 then no else yes) }
{
    for (i, x) in from.iter().enumerate() {
        to[i] = chosen(*x, yes, no);
    }
}

// Cells from place i on, one for each of the numbers, are these numbers.
pub fn copy_cells(cells: &mut [u32], i: usize, ys: &[u32])
    requires { i + length ys.now ≤ length cells.old }
    ensures { cells.new ≡ paste cells.old i ys.now (length ys.now) }
{
    cells[i..i + ys.len()].copy_from_slice(ys);
}

// The place of slot s of lane l of group g, behind which those of n - 1 lanes more lie.
fn row_place(z: Sizes, g: usize, s: usize, l: usize, n: usize) -> usize
    requires group { g < z.groups }
    requires slot { s < slots z }
    requires lane { l < z.lanes }
    requires within { l + n ≤ z.lanes }
    ensures is { result ≡ place_of z g s l }
    ensures within { result + n ≤ room z }
{
    place(z, g, s, l)
}

// Lanes of group g from lane l on, one for each of the numbers: slot s of each is its number.
fn copy_row(z: Sizes, lanes: &mut [u32], g: usize, s: usize, l: usize, xs: &[u32])
    requires fit { room z ≤ length lanes.old }
    requires group { g < z.groups }
    requires slot { s < slots z }
    requires lane { l < z.lanes }
    requires within { l + length xs.now ≤ z.lanes }
    ensures { lanes.new ≡ slot_row z g s l (λ i. slice_index xs.now i) (length xs.now) lanes.old }
{
    let a = row_place(z, g, s, l, xs.len());
    lanes[a..a + xs.len()].copy_from_slice(xs);
}

// Slot s of the n lanes of group g from lane l on is v.
pub fn fill_row(z: Sizes, lanes: &mut [u32], g: usize, s: usize, l: usize, n: usize, v: u32)
    requires fit { room z ≤ length lanes.old }
    requires group { g < z.groups }
    requires slot { s < slots z }
    requires lane { l < z.lanes }
    requires within { l + n ≤ z.lanes }
    ensures { lanes.new ≡ slot_row z g s l (λ _. v) n lanes.old }
{
    let a = row_place(z, g, s, l, n);
    lanes[a..a + n].fill(v);
}

// Lanes of group g from lane l on, one for each of the numbers: each stands at `no` if its number is 0, else at `yes`.
pub fn branch_row(z: Sizes, lanes: &mut [u32], g: usize, l: usize, xs: &[u32], yes: u32, no: u32)
    requires fit { room z ≤ length lanes.old }
    requires group { g < z.groups }
    requires lane { l < z.lanes }
    requires within { l + length xs.now ≤ z.lanes }
    ensures { lanes.new ≡ slot_row z g 0 l (λ i. (if nat_eq (slice_index xs.now i) 0 then no else yes)) (length xs.now) lanes.old }
{
    let a = row_place(z, g, 0, l, xs.len());
    choose(&mut lanes[a..a + xs.len()], xs, yes, no);
}

// Lanes of group g from lane l on, one for each of the numbers: own number k of each is its number, and each stands at a line.
pub fn put_row(z: Sizes, lanes: &mut [u32], g: usize, l: usize, k: u32, xs: &[u32], line: u32)
    requires fit { room z ≤ length lanes.old }
    requires group { g < z.groups }
    requires lane { l < z.lanes }
    requires there { k < z.owns }
    requires within { l + length xs.now ≤ z.lanes }
    ensures { lanes.new ≡ put_row_spec z g l k (λ i. slice_index xs.now i) line (length xs.now) lanes.old }
{
    copy_row(z, lanes, g, 128 + k as usize, l, xs);
    fill_row(z, lanes, g, 0, l, xs.len(), line);
}
