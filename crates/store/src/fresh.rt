// The start.
ghost use Rattle.std.specs.Prelude.{◌≡◌, ℕ, ◌+◌, ◌*◌, ◌<◌, ◌≤◌, length, slice_index};
ghost use Rattle.store.specs.Layout.{room, cells_room};
ghost use Rattle.store.specs.Lent.{Lent, Started};

use crate::Sizes;

// How many words the lanes want.
#[tactic(auto, unfolding(crate::specs::Layout::room))]
pub fn room_of(z: Sizes) -> usize
    ensures { result ≡ room z }
{
    z.groups * (128 + z.owns) * z.lanes
}

// Each lane at line 0 with own numbers 0, each group in phase 0 with cells 0, and the field as lent, whatever the rest held.
pub fn start(z: Sizes, lanes: &mut [u32], cells: &mut [u32])
    requires { Lent z lanes.old cells.old }
    ensures { Started z lanes.old cells.old lanes.new cells.new }
{
    lanes[..room_of(z)].fill(0);
    cells[..z.groups * z.shared].fill(0);
}
