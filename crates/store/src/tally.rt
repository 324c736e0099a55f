// The two counts of a group: how many of its lanes wait at a barrier, and how many have ended.
ghost use Rattle.std.specs.Prelude.{◌≡◌, ℕ, ◌+◌, ◌<◌, ◌≤◌, length};
ghost use Rattle.store.specs.Layout.{slots, room};
ghost use Rattle.store.specs.Lent.{slot_of, waiting_of_spec, ended_of, Aside};
ghost use Rattle.store.specs.Counts.{Tallied};

use crate::Sizes;
use crate::groups::first_place;

// A word of the group, at its first lane.
#[tactic(auto, unfolding(crate::specs::Lent::slot_of))]
fn group_word(z: Sizes, lanes: &[u32], g: usize, s: usize) -> u32
    requires fit { room z ≤ length lanes.now }
    requires group { g < z.groups }
    requires slot { s < slots z }
    ensures { result ≡ slot_of z lanes.now g s 0 }
{
    lanes[first_place(z, g, s)]
}

// Puts it, if the grid does not depend on it.
fn put_group_word(z: Sizes, lanes: &mut [u32], g: usize, s: usize, v: u32)
    requires fit { room z ≤ length lanes.old }
    requires group { g < z.groups }
    requires slot { (4 ≤ s) × (s < 128) }
    ensures some { 0 < z.lanes }
    ensures put { Aside z g s 0 v lanes.old lanes.new }
{
    lanes[first_place(z, g, s)] = v;
}

// How many lanes of the group are counted as waiting.
pub fn waiting_of(z: Sizes, lanes: &[u32], g: usize) -> u32
    requires fit { room z ≤ length lanes.now }
    requires group { g < z.groups }
    ensures { result ≡ waiting_of_spec z lanes.now g }
{
    group_word(z, lanes, g, 4)
}

// How many are counted as ended.
pub fn ended_of(z: Sizes, lanes: &[u32], g: usize) -> u32
    requires fit { room z ≤ length lanes.now }
    requires group { g < z.groups }
    ensures { result ≡ ended_of z lanes.now g }
{
    group_word(z, lanes, g, 5)
}

// Puts both counts. Nothing else changes.
#[tactic(auto, using(crate::proofs::Counts::tallied))]
pub fn put_counts(z: Sizes, lanes: &mut [u32], g: usize, waiting: u32, ended: u32)
    requires fit { room z ≤ length lanes.old }
    requires group { g < z.groups }
    ensures { Tallied z g waiting ended lanes.old lanes.new }
{
    put_group_word(z, lanes, g, 4, waiting);
    put_group_word(z, lanes, g, 5, ended);
}
