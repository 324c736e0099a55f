// One line for the lanes of a row that are in a mask, with the numbers that were worked out for each. Lanes, cells and touches are lent
// beside each other: in a struct, a proof would know no more than the length of a slice that was lent from it to be read, unless each of these
// functions takes it out first.
ghost use Rattle.std.specs.Prelude.{◌≡◌, ℕ, ◌+◌, ◌*◌, ◌<◌, ◌≤◌, Bool, true, length};
ghost use Rattle.store.specs.Layout.{cells_room};
ghost use Rattle.store.specs.Lent.{Lent, phase_of_spec};
ghost use Rattle.store.specs.Acts.{TodoFits};
ghost use Rattle.masks.specs.Masks.{on};
ghost use Rattle.machine.specs.Masks.{LaneDid, RowOutcome};

use super::note::note;
use super::outcome::Stopped;
use masks::is_on;
use store::{Sizes, Todo, perform, phase_of};

// Lanes of one row of a group: bit i of the mask is lane `start + i`. Whether they are there depends on the sizes, which are lent with the
// lanes, so that is asked where both are at hand (`RowIn`).
#[derive(Clone, Copy, PartialEq, Eq, Debug)]
pub struct Active {
    pub group: usize,
    pub start: usize,
    pub mask: u32,
}

// What they do. A lane that goes wrong then stands at `stop`; `line` is the line of the text, by which a race is explained.
#[derive(Clone, Copy)]
pub struct Work {
    pub todo: Todo,
    pub stop: u32,
    pub line: u32,
}

// Lane l of group g, which is in that phase, does its step, and its touch is looked at.
pub fn do_lane(
    z: Sizes,
    lanes: &mut [u32],
    cells: &mut [u32],
    marks: &mut [u64],
    g: usize,
    l: usize,
    phase: u64,
    work: Work,
    c: u32,
    v: u32,
) -> Result<(), Stopped>
    requires lent { Lent z lanes.old cells.old }
    requires watch { 6 * cells_room z ≤ length marks.old }
    requires group { g < z.groups }
    requires lane { l < z.lanes }
    requires phase { phase ≡ phase_of_spec z lanes.old g }
    requires there { TodoFits z work.todo }
    ensures { LaneDid z lanes.old cells.old marks.old lanes.new cells.new marks.new g l work.stop work.todo c v result }
{
    let deed = perform(z, lanes, cells, g, l, work.stop, work.todo, c, v);
    note(marks, g, l, phase, work.line, deed)
}

// The lanes in the mask do their line, lowest first, until one goes wrong or races.
#[inline(always)]
pub fn do_masked(
    z: Sizes,
    lanes: &mut [u32],
    cells: &mut [u32],
    marks: &mut [u64],
    row: Active,
    work: Work,
    xs: &[u32],
    ys: &[u32],
) -> Result<(), Stopped>
    requires lent { Lent z lanes.old cells.old }
    requires watch { 6 * cells_room z ≤ length marks.old }
    requires group { row.group < z.groups }
    requires start { row.start < z.lanes }
    requires masked { (i : ℕ) → i < 32 → on row.mask i ≡ true → row.start + i < z.lanes }
    requires there { TodoFits z work.todo }
    requires firsts { 32 ≤ length xs.now }
    requires seconds { 32 ≤ length ys.now }
    ensures { RowOutcome z lanes.old cells.old marks.old lanes.new cells.new marks.new row.group row.start row.mask work.stop work.todo xs.now ys.now result }
{
    let phase = phase_of(z, lanes, row.group);
    // A loop: of slices that a closure writes a proof knows nothing behind the chain.
    for i in 0..32usize {
        if is_on(row.mask, i) {
            do_lane(
                z,
                lanes,
                cells,
                marks,
                row.group,
                row.start + i,
                phase,
                work,
                xs[i],
                ys[i],
            )?;
        }
    }
    Ok(())
}
