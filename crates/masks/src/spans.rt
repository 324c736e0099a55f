// A mask's lanes as spans of neighbouring ones.
ghost use Rattle.std.specs.Prelude.{◌≡◌, ℕ, ◌<◌, ◌≤◌, false, MatchOption};
ghost use Rattle.masks.specs.Masks.{on};
ghost use Rattle.masks.specs.Spans.{Spanned};

use crate::lowest;

// Lanes from .. to of a row. No range, which can't be copied.
#[derive(Clone, Copy, PartialEq, Eq, Debug)]
pub struct Span {
    pub from: usize,
    pub to: usize,
}

// The first span of lanes in the mask at lane i or behind it, if there is one.
pub fn span_at(mask: u32, i: usize) -> Option<Span>
    requires { i < 32 }
    ensures { MatchOption result ((j : ℕ) → i ≤ j → on mask j ≡ false) (λ r. Spanned mask i r) }
{
    let from = i + lowest(mask >> i)?;
    let to = lowest(!(mask >> from)).map_or(32, |n| from + n);
    Some(Span { from, to })
}
