// The words of a lane and the places of cells. Each function reads or writes one place, or two.
#![tactic(auto, unfolding(crate::specs::Layout::place_of, crate::specs::Layout::base, crate::specs::Layout::size, crate::specs::Lent::slot_of, crate::specs::Lent::line_at))]

ghost use Rattle.std.specs.Prelude.{◌≡◌, ℕ, ◌+◌, ◌*◌, ◌<◌, ◌≤◌, Bool, true, List, length, MatchOption, ◌==◌, slice_index, slice_set};
ghost use Rattle.lanes.specs.Syntax.{Body};
ghost use Rattle.store.specs.Layout.{slots, place_of, room, base, size, numbered, cells_room};
ghost use Rattle.store.specs.Lent.{slot_of, line_at, own_of, Settled};

use crate::{Sizes, Whereabouts};

// The place of slot s of lane l of group g.
pub fn place(z: Sizes, g: usize, s: usize, l: usize) -> usize
    requires group { g < z.groups }
    requires slot { s < slots z }
    requires lane { l < z.lanes }
    ensures is { result ≡ place_of z g s l }
    ensures within { result < room z }
{
    (g * (128 + z.owns) + s) * z.lanes + l
}

// Where own numbers lie: own number k of lane l + i of group g is at this place, k times the lanes and i further.
// Not by `place`: where lanes have no own numbers there is no slot 128.
pub fn own_base(z: Sizes, g: usize, l: usize) -> usize
    requires group { g < z.groups }
    requires lane { l < z.lanes }
    ensures { result ≡ place_of z g 128 l }
{
    (g * (128 + z.owns) + 128) * z.lanes + l
}

// Where the cells of the field begin, or of a group.
fn first_cell(z: Sizes, of: Whereabouts) -> usize
    requires { numbered of ≤ z.groups }
    ensures is { result ≡ base z (numbered of) }
    ensures few { result ≤ 16777216 }
{
    match of {
        Whereabouts::Field => z.groups * z.shared,
        Whereabouts::Group(g) => g * z.shared,
    }
}

// How many cells the field has, or a group.
fn many_cells(z: Sizes, of: Whereabouts) -> usize
    ensures { result ≡ size z (numbered of) }
{
    match of {
        Whereabouts::Field => z.field,
        Whereabouts::Group(_) => z.shared,
    }
}

// The place of a cell of the field, or of a group, if it is there.
pub fn spot(z: Sizes, of: Whereabouts, c: u32) -> Option<usize>
    requires there { numbered of ≤ z.groups }
    ensures { MatchOption result (size z (numbered of) ≤ c) (λ i. (i ≡ base z (numbered of) + c) × (c < size z (numbered of)) × (i < cells_room z)) }
{
    let i = first_cell(z, of) + c as usize;
    ((c as usize) < many_cells(z, of)).then_some(i)
}

// The place of n neighbouring cells of the field, or of a group, from cell c on, if all of them are there.
pub fn spot_row(z: Sizes, of: Whereabouts, c: u32, n: usize) -> Option<usize>
    requires there { numbered of ≤ z.groups }
    requires few { (0 < n) × (n ≤ 1024) }
    ensures { MatchOption result (size z (numbered of) < c + n) (λ i. (i ≡ base z (numbered of) + c) × (c + n ≤ size z (numbered of)) × (i + n ≤ cells_room z)) }
{
    let i = spot(z, of, c)?;
    (c as usize + n <= many_cells(z, of)).then_some(i)
}

// The line at which the lane stands.
pub fn line_of(z: Sizes, lanes: &[u32], g: usize, l: usize) -> u32
    requires fit { room z ≤ length lanes.now }
    requires group { g < z.groups }
    requires lane { l < z.lanes }
    ensures { result ≡ line_at z lanes.now g l }
{
    lanes[place(z, g, 0, l)]
}

// Its own number k.
#[tactic(auto, using(crate::proofs::Slots::own_slot), unfolding(crate::specs::Lent::slot_of))]
pub fn own_of(z: Sizes, lanes: &[u32], g: usize, l: usize, k: usize) -> u32
    requires fit { room z ≤ length lanes.now }
    requires group { g < z.groups }
    requires lane { l < z.lanes }
    requires there { k < z.owns }
    ensures { result ≡ slice_index (own_of z lanes.now g l) k }
{
    lanes[place(z, g, 128 + k, l)]
}

// Whether it went wrong.
pub fn is_wrong(z: Sizes, lanes: &[u32], g: usize, l: usize) -> bool
    requires fit { room z ≤ length lanes.now }
    requires group { g < z.groups }
    requires lane { l < z.lanes }
    ensures { result ≡ (slot_of z lanes.now g 1 l == 1) }
{
    lanes[place(z, g, 1, l)] == 1
}

// The lane stands at a line. Where as much is left there as was left where it stood, the grid stays what it is.
pub fn stand(z: Sizes, lanes: &mut [u32], g: usize, l: usize, line: u32)
    requires fit { room z ≤ length lanes.old }
    requires group { g < z.groups }
    requires lane { l < z.lanes }
    ensures is { lanes.new ≡ slice_set lanes.old (place_of z g 0 l) line }
    ensures settled { Settled z g l line lanes.old lanes.new }
{
    lanes[place(z, g, 0, l)] = line;
}

// Own number k is v, and the lane stands at a line.
pub fn put_own(z: Sizes, lanes: &mut [u32], g: usize, l: usize, k: u32, v: u32, line: u32)
    requires fit { room z ≤ length lanes.old }
    requires group { g < z.groups }
    requires lane { l < z.lanes }
    requires there { k < z.owns }
    ensures { lanes.new ≡ slice_set (slice_set lanes.old (place_of z g (128 + k) l) v) (place_of z g 0 l) line }
{
    lanes[place(z, g, 128 + k as usize, l)] = v;
    stand(z, lanes, g, l, line);
}

// The lane is wrong, and stands where nothing is left.
pub fn go_wrong(z: Sizes, lanes: &mut [u32], g: usize, l: usize, stop: u32)
    requires fit { room z ≤ length lanes.old }
    requires group { g < z.groups }
    requires lane { l < z.lanes }
    ensures { lanes.new ≡ slice_set (slice_set lanes.old (place_of z g 1 l) 1) (place_of z g 0 l) stop }
{
    lanes[place(z, g, 1, l)] = 1;
    stand(z, lanes, g, l, stop);
}
