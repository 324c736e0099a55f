// A program and a field are loaded into the lent slices.
ghost use Rattle.std.specs.Prelude.{◌≡◌, ℕ, ◌+◌, ◌*◌, ◌≤◌, List, length};
ghost use Rattle.lanes.specs.Syntax.{Program};
ghost use Rattle.store.specs.Lent.{Lent};
ghost use Rattle.calls.specs.Answers.{SameLent};
ghost use Rattle.calls.specs.Load.{Loads, For};

use crate::memory::Memory;
use code::compile::compile;
use formats::field::copy_cells;
use store::{Sizes, start};
use touches::clear;

// How many entries the steps have.
pub fn load(text: &[u8], bytes: &[u8], z: Sizes, lent: &mut Memory<'_>) -> usize
    requires lent { Lent z lent.old.lanes.now lent.old.cells.now }
    requires field { 16 + 4 * z.field ≤ length bytes.now }
    ensures same { SameLent lent.old lent.new }
    ensures printed { lent.new.printed.now ≡ lent.old.printed.now }
    ensures loaded { (ns : List (List ℕ)) (p : Program) → For ns p z text.now lent.old.steps.now → Loads ns p z text.now bytes.now lent.new.steps.now lent.new.lanes.now lent.new.cells.now lent.new.marks.now result }
{
    let from = z.groups * z.shared;
    copy_cells(bytes, &mut lent.cells[from..from + z.field]);
    start(z, lent.lanes, lent.cells);
    clear(lent.marks);
    compile(text, lent.steps)
}
