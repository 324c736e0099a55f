// A text and a field's bytes are answered with what is told of them, in print, or with a refusal.
ghost use Rattle.std.specs.Prelude.{◌≡◌, ℕ, ◌≤◌, length};
ghost use Rattle.lanes.specs.Grid.{Grid};
ghost use Rattle.store.specs.Layout.{cells_room};
ghost use Rattle.store.specs.Lent.{field_of};
ghost use Rattle.calls.specs.Answers.{Answered, SameLent, slices_of};

use crate::judge::judge;
use crate::memory::Memory;
use crate::plan::{Plan, Refused, make_plan};
use crate::told::told_by;
use formats::print::print_told;
use formats::told::Told;
use machine::schedule::Scheduler;
use machine::verdict::Verdict;
use store::Sizes;

// What is told, the machine's verdict, which names lines of the text too, and how many bytes are printed.
// `len` and no bytes: they lie in the lent slice, and an answer is copied.
#[derive(Clone, Copy)]
pub struct Answer {
    pub verdict: Verdict,
    pub told: Told,
    pub len: usize,
}

// The cells of the field, behind those of the groups.
fn field_cells(z: Sizes, cells: &[u32]) -> &[u32]
    requires { cells_room z ≤ length cells.now }
    ensures { result.now ≡ field_of z cells.now }
{
    let from = z.groups * z.shared;
    &cells[from..from + z.field]
}

// The scheduler is one that is ready for any beginning.
pub fn answer_by<S: Scheduler>(
    s: &mut S,
    text: &[u8],
    bytes: &[u8],
    lent: &mut Memory<'_>,
) -> Result<Answer, Refused>
    requires { (n : ℕ) (d : Grid) → S.Scheduler.knows s.old n d }
    ensures same { SameLent lent.old lent.new }
    ensures answered { Answered text.now bytes.now (slices_of lent.old) (slices_of lent.new) result }
{
    let Plan { sizes, granted } = make_plan(text, bytes, lent.room())?;
    let verdict = judge(s, text, bytes, sizes, granted, lent);
    let told = told_by(verdict);
    // Both are taken out first: one of them can't be read from behind `lent` while the other is written there.
    let cells = &mut *lent.cells;
    let printed = &mut *lent.printed;
    let len = print_told(printed, told, field_cells(sizes, cells)).unwrap();
    Ok(Answer { verdict, told, len })
}
