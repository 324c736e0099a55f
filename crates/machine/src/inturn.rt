// One lane after the other, each up to its next barrier; then its group goes on; then the next group.
ghost use Rattle.std.specs.Prelude.{◌≡◌, ℕ, ◌<◌, ◌≤◌, true, false, List, MatchOption};
ghost use Rattle.lanes.specs.Syntax.{Body};
ghost use Rattle.lanes.specs.Grid.{of, can};
ghost use Rattle.machine.specs.Line.{RunsIn, grid_in};
ghost use Rattle.machine.specs.Schedule.{Passed, Picked, come_to};

use super::schedule::{Choice, Scheduler};
use super::view::View;

// The first lane of the group, from lane `from` on, that can step.
fn lane_from(view: &View, g: usize, from: usize) -> Option<usize>
    ensures { (at : ℕ → Body) (cs : List ℕ) → RunsIn view.now at → MatchOption result ((k : ℕ) → from ≤ k → k < view.now.sizes.lanes → can view.now.sizes.lanes (grid_in view.now at cs) (of g k) ≡ false) (λ l. (from ≤ l) × (l < view.now.sizes.lanes) × (can view.now.sizes.lanes (grid_in view.now at cs) (of g l) ≡ true) × ((k : ℕ) → from ≤ k → k < l → can view.now.sizes.lanes (grid_in view.now at cs) (of g k) ≡ false)) }
{
    let z = view.sizes;
    (from..z.lanes).find(|l| view.can_step(g, *l))
}

// What can be done from lane `lane` of group `group` on.
#[inline(always)]
pub fn find_from(view: &View, group: usize, lane: usize) -> Option<Choice>
    ensures { (at : ℕ → Body) (cs : List ℕ) → RunsIn view.now at → Passed view.now.sizes.lanes (grid_in view.now at cs) group lane → Picked view.now.sizes at view.now.lanes.now cs result }
{
    let z = view.sizes;
    let mut from = lane;
    for g in group..z.groups {
        if let Some(start) = lane_from(view, g, from) {
            return Some(Choice::Row {
                group: g,
                start,
                mask: 1,
            });
        }
        if view.can_go_on(g) {
            return Some(Choice::GoOn { group: g });
        }
        from = 0;
    }
    None
}

// Where it has come to: nothing before this lane of this group can be done.
#[derive(Clone, Copy, PartialEq, Eq, Debug)]
pub struct InTurn {
    pub group: usize,
    pub lane: usize,
}

// A lane that steps may step again; the lanes of a group that goes on are looked at from the first.
fn came_to(choice: Choice) -> InTurn
    ensures { result ≡ come_to choice }
{
    match choice {
        Choice::Row { group, start, .. } => InTurn { group, lane: start },
        Choice::GoOn { group } => InTurn { group, lane: 0 },
    }
}

impl Scheduler for InTurn {
    ghost knows = { λ s n d. Passed n d s.group s.lane };

    #[inline(always)]
    fn next(&mut self, view: &View) -> Option<Choice> {
        let choice = find_from(view, self.group, self.lane)?;
        *self = came_to(choice);
        Some(choice)
    }
}
