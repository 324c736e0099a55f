// What a scheduler chose is done.
ghost use Rattle.std.specs.Prelude.{◌≡◌, ℕ, suc, ◌+◌, ◌*◌, ◌<◌, ◌≤◌, List, length};
ghost use Rattle.lanes.specs.Syntax.{Body};
ghost use Rattle.lanes.specs.Grid.{Grid, Turn};
ghost use Rattle.store.specs.Layout.{cells_room};
ghost use Rattle.store.specs.Lent.{Lent};
ghost use Rattle.machine.specs.Line.{LoadedAs};
ghost use Rattle.machine.specs.Schedule.{CanDo};
ghost use Rattle.machine.specs.Verdict.{StandsAt, Moved, MayGo};

use super::exec::Active;
use super::release::release;
use super::row::do_row;
use super::schedule::Choice;
use super::source::Source;
use super::verdict::Verdict;
use masks::count;
use store::Sizes;

// How many steps there are by then; or what is told. Before a row's step: if it would be more steps than were granted, it is too long.
#[inline(always)]
pub fn do_choice(
    source: &Source,
    z: Sizes,
    lanes: &mut [u32],
    cells: &mut [u32],
    marks: &mut [u64],
    granted: u64,
    done: u64,
    choice: Choice,
) -> Result<u64, Verdict>
    requires lent { Lent z lanes.old cells.old }
    requires watch { 6 * cells_room z ≤ length marks.old }
    requires few { source.now.lines < 4294967290 }
    requires within { done ≤ granted }
    requires goes { MayGo z source.now.steps.now source.now.lines lanes.old choice }
    ensures { (ns : List (List ℕ)) (at : ℕ → Body) (d : Grid) (ts : List Turn) → LoadedAs ns source.now z at → StandsAt z at source.now.lines d ts lanes.old cells.old marks.old done → CanDo z at lanes.old cells.old choice → Moved z at source.now.lines d lanes.old cells.old lanes.new cells.new marks.new granted done choice result }
{
    match choice {
        Choice::GoOn { group } => {
            release(source.steps, source.lines, z, lanes, group);
            Ok(done)
        }
        Choice::Row { group, start, mask } => {
            let many = count(mask);
            if granted - done < many {
                return Err(Verdict::TooLong);
            }
            do_row(
                source,
                z,
                lanes,
                cells,
                marks,
                Active { group, start, mask },
            )?;
            Ok(done + many)
        }
    }
}
