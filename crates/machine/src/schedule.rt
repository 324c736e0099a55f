// Schedulers.
ghost use Rattle.std.specs.Prelude.{ℕ, List};
ghost use Rattle.lanes.specs.Syntax.{Body};
ghost use Rattle.lanes.specs.Grid.{Grid};
ghost use Rattle.machine.specs.Line.{RunsIn, grid_in};
ghost use Rattle.machine.specs.Schedule.{Says};

use super::view::View;

// The lanes in a mask of one row, bit i for lane `start + i`, do the line at which they stand; or a group goes on.
#[derive(Clone, Copy, PartialEq, Eq, Debug)]
pub enum Choice {
    Row {
        group: usize,
        start: usize,
        mask: u32,
    },
    GoOn {
        group: usize,
    },
}

// Names what is done next. What it names can be done, and it names something as long as anything can be done. `knows` is what it has
// to know of the grid; it holds again after what it named is done.
pub trait Scheduler {
    ghost knows: { Self → ℕ → Grid → Type 0 };

    fn next(&mut self, view: &View) -> Option<Choice>
        ensures { (at : ℕ → Body) (cs : List ℕ) → RunsIn view.now at → knows self.old view.now.sizes.lanes (grid_in view.now at cs) → Says knows self.new view.now.sizes at view.now.lanes.now cs result };
}
