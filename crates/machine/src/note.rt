// A lane's touch is looked at.
ghost use Rattle.std.specs.Prelude.{◌≡◌, ℕ, ◌<◌, List, [], ◌∷◌, ◌++◌};
ghost use Rattle.lanes.specs.Syntax.{Body};
ghost use Rattle.lanes.specs.Grid.{Grid, Turn, of};
ghost use Rattle.store.specs.declared.Sizes.{Sizes};
ghost use Rattle.machine.specs.Sofar.{After, Names, Doing, paired_of, IsWho};

use super::outcome::{Race, Stopped};
use store::{Deed, Whereabouts};
use touches::{Found, Who, touch};

// The touch of the lower group, then of the lower lane, is told first.
// Touches of another type are put in order in formats: neither crate knows the other.
fn paired(place: Whereabouts, cell: u32, a: Found, b: Found) -> Race
    ensures { result ≡ paired_of place cell a b }
{
    let (first, second) = if (a.who.group, a.who.lane) < (b.who.group, b.who.lane) {
        (a, b)
    } else {
        (b, a)
    };
    Race {
        place,
        cell,
        first,
        second,
    }
}

// Who touches. The line is promised here: the clauses of `note` speak of marks, which have none.
fn who_of(group: usize, lane: usize, phase: u64, line: u32) -> Who
    requires { (group < 1024) × (lane < 1024) }
    ensures { IsWho result group lane phase line }
{
    Who {
        group: group as u32,
        lane: lane as u32,
        phase,
        line,
    }
}

// What came of the turn of a lane that did this deed at a line of the text: all is well, or it stops, by a race with an earlier touch or as
// the lane went wrong.
pub fn note(
    kept: &mut [u64],
    group: usize,
    lane: usize,
    phase: u64,
    line: u32,
    deed: Deed,
) -> Result<(), Stopped>
    requires few { (group < 1024) × (lane < 1024) }
    ensures after { (z : Sizes) (at : ℕ → Body) (d : Grid) (ts : List Turn) (ls cs ls' cs' : List ℕ) → Doing z at d ts ls cs kept.old ls' cs' group lane phase deed → After z at d (ts ++ (of group lane ∷ [])) ls' cs' kept.new result }
    ensures names { Names group lane result }
{
    match deed {
        Deed::Quiet => Ok(()),
        Deed::Wrong => Err(Stopped::Wrong { group, lane, line }),
        Deed::Touched(seen) => {
            let who = who_of(group, lane, phase, line);
            match touch(kept, seen.index, who, seen.wrote) {
                None => Ok(()),
                Some(found) => Err(Stopped::Raced(paired(
                    seen.place,
                    seen.cell,
                    found,
                    Found {
                        who,
                        wrote: seen.wrote,
                    },
                ))),
            }
        }
    }
}
