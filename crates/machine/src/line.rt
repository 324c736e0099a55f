// One line of the program for the lanes of a row that are in a mask: decoded once, its expressions worked out once for the whole row,
// then done lane by lane.
ghost use Rattle.std.specs.Prelude.{◌≡◌, ℕ, suc, ◌+◌, ◌*◌, ◌<◌, ◌≤◌, true, List, length};
ghost use Rattle.lanes.specs.Syntax.{Body};
ghost use Rattle.lanes.specs.Grid.{Grid, Turn};
ghost use Rattle.store.specs.Layout.{room, cells_room};
ghost use Rattle.store.specs.Lent.{Lent};
ghost use Rattle.machine.specs.Sofar.{Sofar};
ghost use Rattle.machine.specs.Line.{LoadedAs, Masked, LineDone};
ghost use Rattle.machine.specs.Plans.{plan_of_spec, Worked, SecondWorked, RowIn, LineOutcome};

use super::exec::{Active, Work, do_masked};
use super::outcome::Stopped;
use super::source::Source;
use code::{Step, decode, text_line_of};
use masks::{first_lanes, without};
use store::{Sizes, Todo, own_base};
use values::eval::eval_row;
use values::row::Row;

// What the lanes do, and the bytes of the text where the expressions stand.
#[derive(Clone, Copy)]
pub struct Plan {
    pub todo: Todo,
    pub first: u32,
    pub second: u32,
}

// What a step has a lane do.
fn plan_of(owns: usize, step: Step) -> Option<Plan>
    ensures { result ≡ plan_of_spec owns step }
{
    match step {
        Step::Put { own, expr, next } => ((own as usize) < owns).then_some(Plan {
            todo: Todo::Put { own, next },
            first: expr,
            second: expr,
        }),
        Step::Read {
            field,
            own,
            expr,
            next,
        } => ((own as usize) < owns).then_some(Plan {
            todo: Todo::Read { field, own, next },
            first: expr,
            second: expr,
        }),
        Step::Write {
            field,
            place,
            value,
            next,
        } => {
            Some(Plan {
                todo: Todo::Write { field, next },
                first: place,
                second: value,
            })
        }
        Step::Branch { expr, yes, no, .. } => {
            Some(Plan {
                todo: Todo::Branch { yes, no },
                first: expr,
                second: expr,
            })
        }
        Step::Jump { .. } | Step::Barrier { .. } | Step::End => None,
    }
}

// The value of the expression at a byte of the text, for each lane of the row.
fn values_of(text: &[u8], at: u32, z: Sizes, lanes: &[u32], row: Active, out: &mut [u32])
    requires fit { room z ≤ length lanes.now }
    requires inside { RowIn z row.group row.start row.mask }
    requires long { length out.old ≡ 32 }
    ensures { Worked z lanes.now row.group row.start text.now at out.new }
{
    let many = z.lanes;
    let owns = z.owns;
    let width = (many - row.start).min(32);
    let place = Row {
        group: row.group as u32,
        lanes: many as u32,
        first: row.start as u32,
        width,
        own: lanes,
        base: own_base(z, row.group, row.start),
        stride: many,
        owns,
    };
    eval_row(text, at as usize, &place, &mut out[..width]);
}

// The second numbers, which only a write has.
fn seconds_of(text: &[u8], plan: Plan, z: Sizes, lanes: &[u32], row: Active, out: &mut [u32])
    requires fit { room z ≤ length lanes.now }
    requires inside { RowIn z row.group row.start row.mask }
    requires long { length out.old ≡ 32 }
    ensures { SecondWorked z lanes.now row.group row.start text.now plan.todo plan.second out.new }
{
    if let Todo::Write { .. } = plan.todo {
        values_of(text, plan.second, z, lanes, row, out);
    }
}

// The lanes of the mask are lanes of a group.
pub fn is_inside(z: Sizes, row: Active) -> bool
    ensures yes { result ≡ true → RowIn z row.group row.start row.mask }
    ensures no { RowIn z row.group row.start row.mask → result ≡ true }
{
    if row.group >= z.groups || row.start >= z.lanes {
        return false;
    }
    let width = (z.lanes - row.start).min(32);
    without(row.mask, first_lanes(width)) == 0
}

// The lanes of the mask do the line at the entry at which they all stand, lowest first. The first that touches a cell that isn't there,
// or whose touch races, stops it.
#[inline(always)]
pub fn do_line(
    source: &Source,
    z: Sizes,
    lanes: &mut [u32],
    cells: &mut [u32],
    marks: &mut [u64],
    row: Active,
    entry: usize,
) -> Result<(), Stopped>
    requires lent { Lent z lanes.old cells.old }
    requires watch { 6 * cells_room z ≤ length marks.old }
    requires few { source.now.lines < 4294967296 }
    ensures did { (ns : List (List ℕ)) (at : ℕ → Body) → LoadedAs ns source.now z at → Masked z at source.now.steps.now source.now.lines lanes.old cells.old row.group row.start row.mask entry → LineOutcome z at (suc source.now.lines) lanes.old cells.old marks.old lanes.new cells.new marks.new row.group row.start row.mask result }
    ensures done { (ns : List (List ℕ)) (at : ℕ → Body) (d : Grid) (ts : List Turn) → LoadedAs ns source.now z at → Masked z at source.now.steps.now source.now.lines lanes.old cells.old row.group row.start row.mask entry → Sofar z at d ts lanes.old cells.old marks.old → LineDone z at d ts row.group row.start row.mask lanes.new cells.new marks.new result }
{
    let Some(plan) = plan_of(z.owns, decode(source.steps, source.lines, entry)) else {
        return Ok(());
    };
    if !is_inside(z, row) {
        return Ok(());
    }
    // Of a fixed size, as a row is, and as the machine asks for no memory.
    let mut xs = [0; 32];
    let mut ys = [0; 32];
    values_of(source.text, plan.first, z, lanes, row, &mut xs);
    seconds_of(source.text, plan, z, lanes, row, &mut ys);
    let work = Work {
        todo: plan.todo,
        stop: source.lines as u32,
        line: text_line_of(source.steps, entry),
    };
    do_masked(z, lanes, cells, marks, row, work, &xs, &ys)
}
