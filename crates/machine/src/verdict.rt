// What the machine tells.
ghost use Rattle.std.specs.Prelude.{◌≡◌};
ghost use Rattle.machine.specs.Verdict.{told_at};

use super::outcome::{Race, Stopped};

// The cells of a told field lie in the lent slice. The line of the text at which a lane went wrong explains it.
#[derive(Clone, Copy)]
pub enum Verdict {
    Field,
    Raced(Race),
    Wrong {
        group: usize,
        lane: usize,
        line: u32,
    },
    Stuck {
        group: usize,
    },
    TooLong,
}

// What stops a row of turns is told.
impl From<Stopped> for Verdict {
    ghost from_gives = { λ s v. v ≡ told_at s };

    fn from(stopped: Stopped) -> Verdict {
        match stopped {
            Stopped::Raced(race) => Verdict::Raced(race),
            Stopped::Wrong { group, lane, line } => Verdict::Wrong { group, lane, line },
        }
    }
}
