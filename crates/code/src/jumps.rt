// Where a lane that stands at an else or at an end goes on.
ghost use Rattle.std.specs.Prelude.{◌≡◌, ℕ, ◌≤◌, List, length};
ghost use Rattle.lanes.specs.Syntax.{Body};
ghost use Rattle.grammar.specs.Spelling.{Named};
ghost use Rattle.code.specs.Words.{step_at};
ghost use Rattle.code.specs.Code.{Coded, Settled};
ghost use Rattle.code.specs.Settle.{Settles};

use super::step::Step;
use super::words::decode;

// Follows the jumps from entry i on. Each goes forward, but for the end of a while, which goes back to its branch.
// A loop of its own: each jump says where the next one stands, so there is nothing to count and no list to walk.
pub fn settle(steps: &[u32], lines: usize, i: usize) -> usize
    ensures settled { (ns : List (List ℕ)) (text : List ℕ) (owns : ℕ) (at : ℕ → Body) → i ≤ lines → Coded (Named ns) text owns lines at (step_at steps.now lines) → Settled at (step_at steps.now lines) lines i result }
    ensures leads { (ns : List (List ℕ)) (text : List ℕ) (owns : ℕ) (at : ℕ → Body) → i ≤ lines → Coded (Named ns) text owns lines at (step_at steps.now lines) → Settles (step_at steps.now lines) i result }
{
    let mut here = i;
    loop {
        let Step::Jump { to } = decode(steps, lines, here) else {
            return here;
        };
        if to as usize <= here {
            return to as usize;
        }
        here = to as usize;
    }
}
