// The lanes of a mask, which all stand at one line, do it.
ghost use Rattle.std.specs.Prelude.{◌≡◌, ℕ, suc, ◌+◌, ◌*◌, ◌<◌, ◌≤◌, true, List, length};
ghost use Rattle.lanes.specs.Syntax.{Body};
ghost use Rattle.lanes.specs.Grid.{Grid, Turn};
ghost use Rattle.store.specs.Layout.{room, cells_room};
ghost use Rattle.store.specs.Lent.{Lent, Lined};
ghost use Rattle.machine.specs.Sofar.{Sofar};
ghost use Rattle.machine.specs.Line.{LoadedAs, LineDone};
ghost use Rattle.machine.specs.Schedule.{RowCan};
ghost use Rattle.machine.specs.Plans.{RowIn, RowStood, RowSettled, RowRan};

use super::exec::Active;
use super::line::{do_line, is_inside};
use super::outcome::Stopped;
use super::source::Source;
use code::settle;
use masks::{is_on, lowest};
use store::{Sizes, line_of, stand};

// The lanes of the mask stand at a line.
fn stand_all(z: Sizes, lanes: &mut [u32], row: Active, line: u32)
    requires fit { room z ≤ length lanes.old }
    requires inside { RowIn z row.group row.start row.mask }
    ensures { RowStood z row.group row.start row.mask line 32 lanes.old lanes.new }
{
    // A loop: of slices that a closure writes a proof knows nothing behind the chain.
    for i in 0..32usize {
        if is_on(row.mask, i) {
            stand(z, lanes, row.group, row.start + i, line);
        }
    }
}

// The lanes of the mask, which all stand at `line`, stand where its jumps lead.
fn settle_row(
    steps: &[u32],
    lines: usize,
    z: Sizes,
    lanes: &mut [u32],
    row: Active,
    line: usize,
) -> usize
    requires fit { room z ≤ length lanes.old }
    requires inside { RowIn z row.group row.start row.mask }
    requires few { lines < 4294967296 }
    ensures { RowSettled z steps.now lines row.group row.start row.mask line result lanes.old lanes.new }
{
    let entry = settle(steps, lines, line);
    if entry == line || entry > lines {
        return entry;
    }
    stand_all(z, lanes, row, entry as u32);
    entry
}

// The lanes of the mask, which all stand at one line, do it, lowest first. At an else or an end they first go where that goes.
#[inline(always)]
pub fn do_row(
    source: &Source,
    z: Sizes,
    lanes: &mut [u32],
    cells: &mut [u32],
    marks: &mut [u64],
    row: Active,
) -> Result<(), Stopped>
    requires lent { Lent z lanes.old cells.old }
    requires watch { 6 * cells_room z ≤ length marks.old }
    requires few { source.now.lines < 4294967296 }
    ensures ran { (ns : List (List ℕ)) (at : ℕ → Body) → LoadedAs ns source.now z at → Lined z (suc source.now.lines) lanes.old → RowCan z at lanes.old cells.old row.group row.start row.mask → RowRan z at (suc source.now.lines) lanes.old cells.old marks.old lanes.new cells.new marks.new row.group row.start row.mask result }
    ensures done { (ns : List (List ℕ)) (at : ℕ → Body) (d : Grid) (ts : List Turn) → LoadedAs ns source.now z at → Lined z (suc source.now.lines) lanes.old → RowCan z at lanes.old cells.old row.group row.start row.mask → Sofar z at d ts lanes.old cells.old marks.old → LineDone z at d ts row.group row.start row.mask lanes.new cells.new marks.new result }
{
    if !is_inside(z, row) {
        return Ok(());
    }
    let Some(low) = lowest(row.mask) else {
        return Ok(());
    };
    let line = line_of(z, lanes, row.group, row.start + low) as usize;
    let entry = settle_row(source.steps, source.lines, z, lanes, row, line);
    do_line(source, z, lanes, cells, marks, row, entry)
}
