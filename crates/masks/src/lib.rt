// Masks: sets of up to 32 lanes of a row, as bits.
#![tactic(auto)]

mod spans;
mod words;

ghost use Rattle.std.specs.Prelude.{◌≡◌, ℕ, ◌≤◌, ◌<◌, false, not, ◌&&◌, ◌||◌, MatchOption, nat_lt};
ghost use Rattle.masks.specs.Masks.{on, lanes_in, lacking, Lowest};

pub use spans::{Span, span_at};
pub use words::at;

// Lane i of the row is in the mask.
pub fn is_on(mask: u32, i: usize) -> bool
    requires { i < 32 }
    ensures { result ≡ on mask i }
{
    (mask >> i) % 2 == 1
}

// The lanes that are in both masks.
pub fn both(a: u32, b: u32) -> u32
    ensures { (i : ℕ) → on result i ≡ (on a i && on b i) }
{
    a & b
}

// The lanes that are in either mask.
pub fn either(a: u32, b: u32) -> u32
    ensures { (i : ℕ) → on result i ≡ (on a i || on b i) }
{
    a | b
}

// The lanes of a that are not in b.
pub fn without(a: u32, b: u32) -> u32
    ensures is { result ≡ lacking a b }
    ensures bits { (i : ℕ) → on result i ≡ (on a i && not (on b i)) }
{
    a ^ (a & b)
}

// The lowest lane of the mask, if it has one.
pub fn lowest(mask: u32) -> Option<usize>
    ensures { MatchOption result ((i : ℕ) → on mask i ≡ false) (λ i. Lowest mask i) }
{
    let i = mask.trailing_zeros() as usize;
    (i < 32).then_some(i)
}

// How many lanes are in the mask.
pub fn count(mask: u32) -> u64
    ensures { result ≡ lanes_in mask 32 }
{
    u64::from(mask.count_ones())
}

// The lanes below `width`.
pub fn first_lanes(width: usize) -> u32
    requires { width ≤ 32 }
    ensures { (i : ℕ) → on result i ≡ nat_lt i width }
{
    if width == 32 {
        return u32::MAX;
    }
    (1 << width) - 1
}
