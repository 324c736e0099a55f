// The words of a group, and that it goes on.
#![tactic(auto, unfolding(crate::specs::Lent::slot_of, crate::specs::Lent::phase_of_spec))]

ghost use Rattle.std.specs.Prelude.{◌≡◌, ℕ, ◌+◌, ◌<◌, ◌≤◌, List, length};
ghost use Rattle.store.specs.Layout.{slots, place_of, room};
ghost use Rattle.store.specs.Lent.{slot_of, phase_of_spec, Lined, Aside, Raised};
ghost use Rattle.store.specs.Acts.{Released};

use crate::Sizes;
use crate::words::{line_of, place, stand};

// The place of a group's own word: it lies at the first lane, and there is one.
pub fn first_place(z: Sizes, g: usize, s: usize) -> usize
    requires group { g < z.groups }
    requires slot { s < slots z }
    ensures is { result ≡ place_of z g s 0 }
    ensures within { result < room z }
    ensures some { 0 < z.lanes }
{
    prove!(z.lanes > 0);
    place(z, g, s, 0)
}

// The group's phase: how many barriers it has passed.
pub fn phase_of(z: Sizes, lanes: &[u32], g: usize) -> u64
    requires fit { room z ≤ length lanes.now }
    requires group { g < z.groups }
    ensures { result ≡ phase_of_spec z lanes.now g }
{
    let low = lanes[first_place(z, g, 2)];
    let high = lanes[first_place(z, g, 3)];
    low as u64 + 4294967296 * high as u64
}

// What stands in slot s of lane l.
pub fn word_of(z: Sizes, lanes: &[u32], g: usize, s: usize, l: usize) -> u32
    requires fit { room z ≤ length lanes.now }
    requires group { g < z.groups }
    requires slot { s < slots z }
    requires lane { l < z.lanes }
    ensures { result ≡ slot_of z lanes.now g s l }
{
    lanes[place(z, g, s, l)]
}

// Puts a word that the grid does not depend on: a count of the group's lanes, or what whoever picks lanes keeps.
pub fn put_word(z: Sizes, lanes: &mut [u32], g: usize, s: usize, l: usize, v: u32)
    requires fit { room z ≤ length lanes.old }
    requires group { g < z.groups }
    requires slot { (4 ≤ s) × (s < 128) }
    requires lane { l < z.lanes }
    ensures { Aside z g s l v lanes.old lanes.new }
{
    lanes[place(z, g, s, l)] = v;
}

// The phase is one more.
fn raise_phase(z: Sizes, lanes: &mut [u32], g: usize)
    requires fit { room z ≤ length lanes.old }
    requires group { g < z.groups }
    requires phase { phase_of_spec z lanes.old g < 18446744073709551615 }
    ensures { Raised z g lanes.old lanes.new }
{
    let next = phase_of(z, lanes, g) + 1;
    lanes[first_place(z, g, 2)] = (next % 4294967296) as u32;
    lanes[first_place(z, g, 3)] = (next / 4294967296) as u32;
}

// The group goes on: each of its lanes stands one line further, behind its barrier, and its phase is one more.
pub fn go_on(z: Sizes, lanes: &mut [u32], g: usize)
    requires fit { room z ≤ length lanes.old }
    requires group { g < z.groups }
    requires phase { phase_of_spec z lanes.old g < 18446744073709551615 }
    requires lined { Lined z 4294967295 lanes.old }
    ensures { (cs : List ℕ) → Released z g lanes.old cs lanes.new }
{
    for l in 0..z.lanes {
        let line = line_of(z, lanes, g, l);
        stand(z, lanes, g, l, line + 1);
    }
    raise_phase(z, lanes, g);
}
