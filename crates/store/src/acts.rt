// What one lane does.
ghost use Rattle.std.specs.Prelude.{◌≡◌, ℕ, ◌+◌, ◌<◌, ◌≤◌, ◌⊎◌, if◌then◌else◌, nat_eq};
ghost use Rattle.store.specs.Layout.{whose, numbered};
ghost use Rattle.store.specs.Lent.{Lent, line_at, slot_of};
ghost use Rattle.store.specs.Acts.{TodoFits, Did, SentTo};

use crate::words::{go_wrong, put_own, spot, stand};
use crate::{Deed, Seen, Sizes, Todo, Whereabouts};

// Where the cells of the field lie, or of group g.
pub fn owner(field: bool, g: usize) -> Whereabouts
    ensures { numbered result ≡ whose field g }
{
    if field {
        Whereabouts::Field
    } else {
        Whereabouts::Group(g)
    }
}

// Where a branch goes on.
pub fn chosen(c: u32, yes: u32, no: u32) -> u32
    ensures { result ≡ (if nat_eq c 0 then no else yes) }
{
    if c == 0 { no } else { yes }
}

// Lane l of group g does what it has to do next, with the numbers that were worked out: c is what is put, or the cell, or the
// condition; v is what is written. A lane that goes wrong then stands at `stop`.
pub fn perform(
    z: Sizes,
    lanes: &mut [u32],
    cells: &mut [u32],
    g: usize,
    l: usize,
    stop: u32,
    todo: Todo,
    c: u32,
    v: u32,
) -> Deed
    requires lent { Lent z lanes.old cells.old }
    requires group { g < z.groups }
    requires lane { l < z.lanes }
    requires there { TodoFits z todo }
    ensures did { Did z lanes.old cells.old lanes.new cells.new g l stop todo c v result }
    ensures sent { SentTo todo (line_at z lanes.new g l) ⊎ (slot_of z lanes.new g 1 l ≡ 1) }
{
    match todo {
        Todo::Put { own, next } => {
            put_own(z, lanes, g, l, own, c, next);
            Deed::Quiet
        }
        Todo::Read { field, own, next } => {
            let place = owner(field, g);
            let Some(i) = spot(z, place, c) else {
                go_wrong(z, lanes, g, l, stop);
                return Deed::Wrong;
            };
            put_own(z, lanes, g, l, own, cells[i], next);
            Deed::Touched(Seen {
                place,
                cell: c,
                wrote: false,
                index: i,
            })
        }
        Todo::Write { field, next } => {
            let place = owner(field, g);
            let Some(i) = spot(z, place, c) else {
                go_wrong(z, lanes, g, l, stop);
                return Deed::Wrong;
            };
            cells[i] = v;
            stand(z, lanes, g, l, next);
            Deed::Touched(Seen {
                place,
                cell: c,
                wrote: true,
                index: i,
            })
        }
        Todo::Branch { yes, no } => {
            stand(z, lanes, g, l, chosen(c, yes, no));
            Deed::Quiet
        }
    }
}
