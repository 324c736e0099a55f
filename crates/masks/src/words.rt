// Which words of a row are the same.
ghost use Rattle.std.specs.Prelude.{◌≡◌, ℕ, ◌≤◌, ◌&&◌, length, ◌==◌, nat_lt, slice_index};
ghost use Rattle.masks.specs.Masks.{on};

use std::simd::Simd;

// Which of a whole row's words are v, all compared at once.
fn row_at(xs: &[u32], v: u32) -> u32
    requires { length xs.now ≡ 32 }
    ensures { (i : ℕ) → on result i ≡ (nat_lt i 32 && slice_index xs.now i == v) }
{
    let row: Simd<u32, 32> = Simd::from_slice(xs);
    row.simd_eq(Simd::splat(v)).to_bitmask() as u32
}

// Which words are v, one lane after the other.
fn each_at(xs: &[u32], v: u32) -> u32
    requires { length xs.now ≤ 32 }
    ensures { (i : ℕ) → on result i ≡ (nat_lt i (length xs.now) && slice_index xs.now i == v) }
{
    let mut mask = 0;
    for (i, x) in xs.iter().enumerate() {
        if *x == v {
            mask |= 1 << i;
        }
    }
    mask
}

// The lanes whose words are v.
pub fn at(xs: &[u32], v: u32) -> u32
    requires { length xs.now ≤ 32 }
    ensures { (i : ℕ) → on result i ≡ (nat_lt i (length xs.now) && slice_index xs.now i == v) }
{
    if xs.len() == 32 {
        return row_at(xs, v);
    }
    each_at(xs, v)
}
