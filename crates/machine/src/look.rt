// What can be done next.
ghost use Rattle.std.specs.Prelude.{◌≡◌, ℕ, suc, ◌+◌, ◌<◌, ◌≤◌, true, List, length};
ghost use Rattle.lanes.specs.Syntax.{Body, at_barrier, ended};
ghost use Rattle.lanes.specs.Grid.{of, release, can};
ghost use Rattle.grammar.specs.Spelling.{Named};
ghost use Rattle.code.specs.Words.{step_at};
ghost use Rattle.code.specs.Code.{Coded};
ghost use Rattle.store.specs.Lent.{line_at};
ghost use Rattle.machine.specs.Line.{RunsIn, grid_in};
ghost use Rattle.machine.specs.Choices.{StanceIs, stance_of_spec};

use super::view::View;
use code::{Step, decode, settle};
use store::line_of;

#[derive(Clone, Copy, PartialEq, Eq, Debug)]
pub enum Stance {
    Steps,
    Waits,
    Ended,
}

fn stance_by(step: Step) -> Stance
    ensures { result ≡ stance_of_spec step }
{
    match step {
        Step::Barrier { .. } => Stance::Waits,
        Step::End => Stance::Ended,
        _ => Stance::Steps,
    }
}

// What a lane that stands at this entry can do. At an else or an end it is what it can do where that goes.
pub fn stance_at(steps: &[u32], lines: usize, entry: usize) -> Stance
    ensures { (ns : List (List ℕ)) (text : List ℕ) (owns : ℕ) (at : ℕ → Body) → entry ≤ lines → Coded (Named ns) text owns lines at (step_at steps.now lines) → StanceIs (at entry) result }
{
    let here = settle(steps, lines, entry);
    stance_by(decode(steps, lines, here))
}

impl View<'_> {
    // What lane l of group g can do.
    pub fn stance_of(&self, g: usize, l: usize) -> Stance
        requires group { g < self.now.sizes.groups }
        requires lane { l < self.now.sizes.lanes }
        ensures { (at : ℕ → Body) → RunsIn self.now at → StanceIs (at (line_at self.now.sizes self.now.lanes.now g l)) result }
    {
        stance_at(
            self.steps,
            self.lines,
            line_of(self.sizes, self.lanes, g, l) as usize,
        )
    }

    // Lane l of group g can step.
    pub fn can_step(&self, g: usize, l: usize) -> bool
        ensures { (at : ℕ → Body) (cs : List ℕ) → RunsIn self.now at → result ≡ can self.now.sizes.lanes (grid_in self.now at cs) (of g l) }
    {
        let z = self.sizes;
        if g >= z.groups || l >= z.lanes {
            return false;
        }
        self.stance_of(g, l) == Stance::Steps
    }

    // Lane l of group g waits at a barrier.
    pub(crate) fn waits(&self, g: usize, l: usize) -> bool
        requires group { g < self.now.sizes.groups }
        requires lane { l < self.now.sizes.lanes }
        ensures { (at : ℕ → Body) → RunsIn self.now at → result ≡ at_barrier (at (line_at self.now.sizes self.now.lanes.now g l)) }
    {
        self.stance_of(g, l) == Stance::Waits
    }

    // Lane l of group g has ended.
    pub(crate) fn has_ended(&self, g: usize, l: usize) -> bool
        requires group { g < self.now.sizes.groups }
        requires lane { l < self.now.sizes.lanes }
        ensures { (at : ℕ → Body) → RunsIn self.now at → result ≡ ended (at (line_at self.now.sizes self.now.lanes.now g l)) }
    {
        matches!(self.stance_of(g, l), Stance::Ended)
    }

    // All lanes of group g wait: it can go on.
    pub fn can_go_on(&self, g: usize) -> bool
        ensures { (at : ℕ → Body) (cs : List ℕ) → RunsIn self.now at → result ≡ can self.now.sizes.lanes (grid_in self.now at cs) (release g) }
    {
        let z = self.sizes;
        g < z.groups && (0..z.lanes).all(|l| self.waits(g, l))
    }
}
