// The machine's own row of turns, to its verdict.
ghost use Rattle.std.specs.Prelude.{◌≡◌, ℕ, suc, ◌+◌, ◌*◌, ◌<◌, ◌≤◌, List, length};
ghost use Rattle.lanes.specs.Syntax.{Body};
ghost use Rattle.lanes.specs.Grid.{Grid, Turn};
ghost use Rattle.lanes.specs.Promise.{Still};
ghost use Rattle.lanes.specs.Told.{Shows};
ghost use Rattle.store.specs.Layout.{cells_room};
ghost use Rattle.store.specs.Lent.{Lent, grid_of, field_of};
ghost use Rattle.machine.specs.Line.{RunsIn, grid_in};
ghost use Rattle.machine.specs.Verdict.{Over, Waiting, SetsOut, told_of};

use super::choose::do_choice;
use super::schedule::Scheduler;
use super::source::Source;
use super::verdict::Verdict;
use super::view::View;
use store::Sizes;

// A lane of the group waits, or can step; where nothing can be done, none can step.
fn waiting(view: &View, g: usize) -> bool
    requires { g < view.now.sizes.groups }
    ensures { (at : ℕ → Body) (cs : List ℕ) → RunsIn view.now at → Still view.now.sizes.lanes (grid_in view.now at cs) → Waiting view.now.sizes at view.now.lanes.now g result }
{
    let z = view.sizes;
    (0..z.lanes).any(|l| !view.has_ended(g, l))
}

// What is told where nothing can be done: the field, or the first group that is stuck.
pub fn over(view: &View) -> Verdict
    ensures { (at : ℕ → Body) (cs : List ℕ) → RunsIn view.now at → Still view.now.sizes.lanes (grid_in view.now at cs) → Over view.now.sizes at view.now.lanes.now result }
{
    let z = view.sizes;
    match (0..z.groups).find(|g| waiting(view, *g)) {
        Some(group) => Verdict::Stuck { group },
        None => Verdict::Field,
    }
}

// Turn after turn, as the scheduler names them, until there is something to tell.
pub fn run_turns<S: Scheduler>(
    s: &mut S,
    text: &[u8],
    steps: &[u32],
    lines: usize,
    z: Sizes,
    lanes: &mut [u32],
    cells: &mut [u32],
    marks: &mut [u64],
    granted: u64,
) -> Verdict
    requires lent { Lent z lanes.old cells.old }
    requires watch { 6 * cells_room z ≤ length marks.old }
    requires few { lines ≤ 65536 }
    requires most { granted ≤ 1099511627776 }
    requires sets { (ns : List (List ℕ)) × (at : ℕ → Body) × SetsOut S.Scheduler.knows s.old ns text.now steps.now lines z at lanes.old cells.old marks.old }
    ensures { (ns : List (List ℕ)) (at : ℕ → Body) → SetsOut S.Scheduler.knows s.old ns text.now steps.now lines z at lanes.old cells.old marks.old → (ts : List Turn) × Shows granted z.lanes (grid_of z at lanes.old cells.old) ts (told_of result (field_of z cells.new)) }
{
    let source = Source { text, steps, lines };
    let mut done = 0;
    // A loop: the scheduler says what comes next, and the slices are written in between.
    loop {
        let view = View {
            steps,
            lines,
            sizes: z,
            lanes: &*lanes,
        };
        let Some(choice) = s.next(&view) else {
            return over(&view);
        };
        match do_choice(&source, z, lanes, cells, marks, granted, done, choice) {
            Ok(k) => done = k,
            Err(verdict) => return verdict,
        }
    }
}
