// A row of lanes: its group, how many lanes a group has, the number of its first lane, how many lanes it has, and its own numbers.
// That `out` is as long as the row each function asks for itself: it is written, and a row is shared.
ghost use Rattle.std.specs.Prelude.{ℕ, ◌+◌, ◌*◌, ◌^◌, ◌<◌, ◌≤◌, length};

#[derive(Clone, Copy, Debug, PartialEq, Eq)]
pub struct Row<'a> {
    pub group: u32,
    pub lanes: u32,
    pub first: u32,
    pub width: usize,
    // own number k of the row's lane i lies at base + k * stride + i, for k below owns
    pub own: &'a [u32],
    pub base: usize,
    pub stride: usize,
    pub owns: usize,
    pub ghost narrow: { width ≤ 32 },
    pub ghost counted: { first + width ≤ 2 ^ 32 },
    pub ghost within: { (k : ℕ) → k < owns → base + k * stride + width ≤ length own.now },
}
