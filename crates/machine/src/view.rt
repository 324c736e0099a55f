// What a scheduler looks at.
ghost use Rattle.std.specs.Prelude.{◌≤◌, length};
ghost use Rattle.store.specs.Layout.{room};

use store::Sizes;

// A program's steps in words, and its lanes as they stand.
#[derive(Clone, Copy)]
pub struct View<'a> {
    pub steps: &'a [u32],
    pub lines: usize,
    pub sizes: Sizes,
    pub lanes: &'a [u32],
    ghost fit: { room sizes ≤ length lanes.now },
}
