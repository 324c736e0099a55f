// A group goes on. Its lanes are written, so a View, which is shared, can't bring that they are there.
ghost use Rattle.std.specs.Prelude.{◌≡◌, ℕ, suc, ◌+◌, ◌<◌, ◌≤◌, true, List, length};
ghost use Rattle.lanes.specs.Syntax.{Body};
ghost use Rattle.lanes.specs.Grid.{release as goes_on, can, turn};
ghost use Rattle.store.specs.Layout.{room};
ghost use Rattle.store.specs.Lent.{Lined, phase_of_spec, grid_of};
ghost use Rattle.machine.specs.Line.{Runs};
ghost use Rattle.machine.specs.Moves.{LaneSettled, GroupSettled, WentOn};

use code::settle;
use store::{Sizes, go_on, line_of, stand};

// A lane that stands at an else or an end stands where that goes. Nothing else changes.
pub fn settle_lane(steps: &[u32], lines: usize, z: Sizes, lanes: &mut [u32], g: usize, l: usize)
    requires fit { room z ≤ length lanes.old }
    requires few { lines < 4294967295 }
    requires group { g < z.groups }
    requires lane { l < z.lanes }
    ensures { LaneSettled z steps.now lines g l lanes.old lanes.new }
{
    let line = line_of(z, lanes, g, l) as usize;
    let entry = settle(steps, lines, line);
    if entry <= lines {
        stand(z, lanes, g, l, entry as u32);
    }
}

// So do all lanes of a group.
fn settle_group(steps: &[u32], lines: usize, z: Sizes, lanes: &mut [u32], g: usize)
    requires fit { room z ≤ length lanes.old }
    requires few { lines < 4294967295 }
    requires group { g < z.groups }
    ensures some { 0 < z.lanes }
    ensures settled { GroupSettled z steps.now lines g z.lanes lanes.old lanes.new }
{
    for l in 0..z.lanes {
        settle_lane(steps, lines, z, lanes, g, l);
    }
}

// A group that can go on goes on.
pub fn release(steps: &[u32], lines: usize, z: Sizes, lanes: &mut [u32], g: usize)
    requires fit { room z ≤ length lanes.old }
    requires few { lines < 4294967290 }
    requires group { g < z.groups }
    requires phase { phase_of_spec z lanes.old g < 18446744073709551615 }
    requires runs { (at : ℕ → Body) × Runs z at steps.now lines lanes.old }
    ensures { WentOn z steps.now lines g lanes.old lanes.new }
{
    settle_group(steps, lines, z, lanes, g);
    go_on(z, lanes, g);
}
