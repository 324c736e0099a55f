// The value of an expression for all lanes of a row.
ghost use Rattle.std.specs.Prelude.{◌≡◌, ℕ, ◌+◌, ◌^◌, ◌<◌, ◌≤◌, ◌≢◌, length, slice_index};
ghost use Rattle.values.specs.Rows.{LeafWorth, Evaluated};

use crate::leaves::{Leaf, leaf_of};
use crate::ops::op_from;
use crate::row::Row;
use crate::rows::apply_row;
use grammar::bytes::byte;
use grammar::words::word_end;

// A loop, and not the slice's fill, which clones all but the last and takes a fifth longer for a row.
fn fill(out: &mut [u32], v: u32)
    ensures { (i : ℕ) → i < length out.new → slice_index out.new i ≡ v }
{
    for x in out.iter_mut() {
        *x = v;
    }
}

// The numbers from first on.
fn count(out: &mut [u32], first: u32)
    requires { first + length out.old ≤ 2 ^ 32 }
    ensures { (i : ℕ) → i < length out.new → slice_index out.new i ≡ first + i }
{
    for (i, x) in out.iter_mut().enumerate() {
        *x = first + i as u32;
    }
}

// What lies from a place on.
fn load(out: &mut [u32], own: &[u32], from: usize)
    requires { from + length out.old ≤ length own.now }
    ensures { (i : ℕ) → i < length out.new → slice_index out.new i ≡ slice_index own.now (from + i) }
{
    out.copy_from_slice(&own[from..from + out.len()]);
}

// A word's value for each lane.
pub fn leaf_row(leaf: Leaf, row: &Row, out: &mut [u32])
    requires { length out.old ≡ row.now.width }
    ensures { LeafWorth leaf row.now out.new }
{
    match leaf {
        Leaf::Fixed(a) => fill(out, a),
        Leaf::Own(k) => {
            if (k as usize) < row.owns {
                load(out, row.own, row.base + k as usize * row.stride);
            } else {
                fill(out, 0);
            }
        }
        Leaf::Lane => count(out, row.first),
        Leaf::Group => fill(out, row.group),
        Leaf::Lanes => fill(out, row.lanes),
    }
}

// A word of the text; zeros if there is none.
fn word_row(text: &[u8], at: usize, row: &Row, out: &mut [u32]) -> usize
    requires { length out.old ≡ row.now.width }
    ensures { slice_index text.now at ≢ 40 → Evaluated text.now at row.now out.new result }
{
    if at >= text.len() {
        fill(out, 0);
        return at;
    }
    let end = word_end(text, at);
    leaf_row(leaf_of(text, at, end), row, out);
    end
}

// The value of the expression that stands at a byte of the text, for each lane of a row, and the byte behind it. One walk over the
// text serves all lanes. It goes no deeper than the brackets of a line do, with a row of 32 numbers on the stack for each.
pub fn eval_row(text: &[u8], at: usize, row: &Row, out: &mut [u32]) -> usize
    requires { length out.old ≡ row.now.width }
    ensures { Evaluated text.now at row.now out.new result }
{
    if byte(text, at) != b'(' {
        return word_row(text, at, row, out);
    }
    let mid = eval_row(text, at + 1, row, out);
    // a space, the operator, a space
    if mid + 3 > text.len() {
        return mid;
    }
    let Some(op) = op_from(text[mid + 1]) else {
        return mid;
    };
    let mut room = [0; 32];
    let right = &mut room[..out.len()];
    let end = eval_row(text, mid + 3, row, right);
    apply_row(op, out, right);
    if end < text.len() { end + 1 } else { end }
}
