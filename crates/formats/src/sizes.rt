// Lent memory by size.
ghost use Rattle.std.specs.Prelude.{◌≡◌, cond, Err, Ok, nat_lt};
ghost use Rattle.formats.specs.declared.refusal.Refusal as Refusal;
ghost use Rattle.formats.specs.Sizes.{InBounds, wanted_for, Bounded, check_as};

use crate::refusal::{Lent, Refusal};

// What a run is made of: lines of the text, groups, lanes of a group, own numbers of a lane, cells of a group, cells of the field.
#[derive(Clone, Copy, PartialEq, Eq, Debug)]
pub struct Shape {
    pub lines: usize,
    pub groups: usize,
    pub lanes: usize,
    pub owns: usize,
    pub shared: usize,
    pub field: usize,
}

// How long the lent slices are, each in its own words: u32 for steps, lanes and cells, u64 for touches, bytes for what is printed.
#[derive(Clone, Copy, PartialEq, Eq, Debug)]
pub struct Room {
    pub steps: usize,
    pub lanes: usize,
    pub cells: usize,
    pub touches: usize,
    pub printed: usize,
}

// How long they have to be.
pub fn wanted(shape: Shape) -> Room
    requires { InBounds shape }
    ensures value { result ≡ wanted_for shape }
    ensures bounds { Bounded result }
{
    let all = shape.groups * shape.lanes;
    let cells = shape.groups * shape.shared + shape.field;
    Room {
        steps: 16 * shape.lines,
        lanes: all * (128 + shape.owns),
        cells,
        touches: 6 * cells,
        printed: 10 * shape.field + 256,
    }
}

fn long_enough(lent: usize, wanted: usize, slice: Lent) -> Result<(), Refusal>
    ensures { result ≡ cond (nat_lt lent wanted) (Err (Refusal.Short slice)) (Ok tt) }
{
    if lent < wanted {
        return Err(Refusal::Short(slice));
    }
    Ok(())
}

// The first slice that is too short is refused.
pub fn check_sizes(shape: Shape, lent: Room) -> Result<(), Refusal>
    requires { InBounds shape }
    ensures { result ≡ check_as (wanted_for shape) lent }
{
    let wanted = wanted(shape);
    long_enough(lent.steps, wanted.steps, Lent::Steps)?;
    long_enough(lent.lanes, wanted.lanes, Lent::Lanes)?;
    long_enough(lent.cells, wanted.cells, Lent::Cells)?;
    long_enough(lent.touches, wanted.touches, Lent::Touches)?;
    long_enough(lent.printed, wanted.printed, Lent::Printed)
}
