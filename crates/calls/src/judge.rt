// A text that was taken, and a field, brought to a verdict.
ghost use Rattle.std.specs.Prelude.{◌≡◌, ℕ, ◌+◌, ◌*◌, ◌≤◌, List, length};
ghost use Rattle.lanes.specs.Syntax.{Program};
ghost use Rattle.lanes.specs.Grid.{Turn, begin};
ghost use Rattle.lanes.specs.Told.{Shows};
ghost use Rattle.formats.specs.Field.{cells_read};
ghost use Rattle.store.specs.Layout.{cells_room};
ghost use Rattle.store.specs.Lent.{Lent, field_of};
ghost use Rattle.machine.specs.Verdict.{told_of};
ghost use Rattle.calls.specs.Answers.{SameLent};
ghost use Rattle.calls.specs.Load.{For, Starts};

use crate::load::load;
use crate::memory::Memory;
use machine::run::run_turns;
use machine::schedule::Scheduler;
use machine::verdict::Verdict;
use store::Sizes;

// The slices are long enough, the field's bytes are there, and the text is a program for which the scheduler is ready.
pub fn judge<S: Scheduler>(
    s: &mut S,
    text: &[u8],
    bytes: &[u8],
    z: Sizes,
    granted: u64,
    lent: &mut Memory<'_>,
) -> Verdict
    requires lent { Lent z lent.old.lanes.now lent.old.cells.now }
    requires watch { 6 * cells_room z ≤ length lent.old.marks.now }
    requires field { 16 + 4 * z.field ≤ length bytes.now }
    requires most { granted ≤ 1099511627776 }
    requires starts { Starts S.Scheduler.knows s.old z text.now bytes.now lent.old.steps.now }
    ensures same { SameLent lent.old lent.new }
    ensures printed { lent.new.printed.now ≡ lent.old.printed.now }
    ensures shown { (ns : List (List ℕ)) (p : Program) → For ns p z text.now lent.old.steps.now → (ts : List Turn) × Shows granted z.lanes (begin p z.groups z.lanes (cells_read bytes.now z.field)) ts (told_of result (field_of z lent.new.cells.now)) }
{
    let lines = load(text, bytes, z, lent);
    // Taken out first: it can't be read from behind `lent` while others are written there.
    let steps = &mut *lent.steps;
    run_turns(
        s, text, steps, lines, z, lent.lanes, lent.cells, lent.marks, granted,
    )
}
