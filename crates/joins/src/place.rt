// Where a row lies.
ghost use Rattle.joins.specs.Stack.{RowAt};

use store::Sizes;

// A row of the grid, by its group and its first lane.
// Not the lanes: they are read in one function and written in the next.
#[derive(Clone, Copy)]
pub struct RowPlace {
    pub sizes: Sizes,
    pub group: usize,
    pub start: usize,
    ghost there: { RowAt sizes group start },
}
