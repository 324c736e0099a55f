// What the machine's verdict is in print. Functions, and no impl of `From`: the types on both sides are of other crates.
ghost use Rattle.std.specs.Prelude.{◌≡◌, ℕ, List};
ghost use Rattle.formats.specs.Meaning.{meant};
ghost use Rattle.machine.specs.Verdict.{told_of};
ghost use Rattle.calls.specs.Tell.{OnePlace, touch_of_spec, place_by};

use formats::told::{Place, Told, Touch};
use machine::outcome::Race;
use machine::verdict::Verdict;
use store::Whereabouts;
use touches::Found;

// One of the two touches.
fn touch_of(found: Found) -> Touch
    ensures { result ≡ touch_of_spec found }
{
    Touch {
        group: found.who.group as usize,
        lane: found.who.lane as usize,
        phase: found.who.phase,
        wrote: found.wrote,
    }
}

fn place_of(place: Whereabouts) -> Place
    ensures { result ≡ place_by place }
{
    match place {
        Whereabouts::Field => Place::Field,
        Whereabouts::Group(_) => Place::Cell,
    }
}

// The touches of a race stand in the order in which they are told.
fn race_told(race: Race) -> Told
    ensures { (cs : List ℕ) → OnePlace (Verdict.Raced race) → meant result cs ≡ told_of (Verdict.Raced race) cs }
{
    Told::Race {
        place: place_of(race.place),
        cell: race.cell as usize,
        first: touch_of(race.first),
        second: touch_of(race.second),
    }
}

// The cells of a group are touched by its own lanes alone.
pub fn told_by(verdict: Verdict) -> Told
    ensures { (cs : List ℕ) → OnePlace verdict → meant result cs ≡ told_of verdict cs }
{
    match verdict {
        Verdict::Field => Told::Field,
        Verdict::Raced(race) => race_told(race),
        Verdict::Wrong {
            group,
            lane,
            line: _,
        } => Told::Wrong { group, lane },
        Verdict::Stuck { group } => Told::Stuck { group },
        Verdict::TooLong => Told::TooLong,
    }
}
