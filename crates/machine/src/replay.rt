// The turns that are written down, and behind them one lane after the other. A written turn that can't be done does nothing.
ghost use Rattle.std.specs.Prelude.{◌≡◌, ℕ, ◌≤◌, List, length};
ghost use Rattle.lanes.specs.Syntax.{Body};
ghost use Rattle.machine.specs.Line.{RunsIn, grid_in};
ghost use Rattle.machine.specs.Schedule.{Passed, named};

use super::inturn::InTurn;
use super::schedule::{Choice, Scheduler};
use super::script::Written;
use super::view::View;
use std::slice::Iter;

// What a written turn names, if it can be done.
fn choice_of(view: &View, turn: Written) -> Option<Choice>
    ensures { (at : ℕ → Body) (cs : List ℕ) → RunsIn view.now at → result ≡ named view.now.sizes.lanes (grid_in view.now at cs) turn }
{
    match turn {
        Written::Of { group, lane } => {
            let group = group as usize;
            let start = lane as usize;
            view.can_step(group, start).then_some(Choice::Row {
                group,
                start,
                mask: 1,
            })
        }
        Written::Release { group } => {
            let group = group as usize;
            view.can_go_on(group).then_some(Choice::GoOn { group })
        }
    }
}

// The written turns that are left, and where it has come to behind them all.
#[derive(Drop)]
pub struct Scripted<'a> {
    pub turns: Iter<'a, Written>,
    pub rest: InTurn,
}

impl<'a> Scheduler for Scripted<'a> {
    ghost knows = { λ s n d. Passed n d s.rest.group s.rest.lane };

    fn next(&mut self, view: &View) -> Option<Choice> {
        let Some(choice) = self.turns.find_map(|turn| choice_of(view, *turn)) else {
            return self.rest.next(view);
        };
        self.rest = InTurn { group: 0, lane: 0 };
        Some(choice)
    }
}
