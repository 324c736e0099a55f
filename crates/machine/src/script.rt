// Turns that are written down, one on a line.
ghost use Rattle.std.specs.Prelude.{◌≡◌, ℕ, MatchOption};
ghost use Rattle.machine.specs.declared.script.Written.{Written};
ghost use Rattle.machine.specs.declared.script.Fault.TheVariants.{NoMemory};
ghost use Rattle.machine.specs.Script.{DigitsHere, BytesHere, Plain, OfHere, ReleaseHere, TurnsAt, GoesOn, TurnHere, ScriptRead};

use grammar::numbers::read_number;
use grammar::tokens::expect;
use std::alloc::{AllocFailed, Global};

// A step of a lane, or that a group goes on.
#[derive(Clone, Copy, PartialEq, Eq, Debug)]
pub enum Written {
    Of { group: u32, lane: u32 },
    Release { group: u32 },
}

// A number below 2^32, and the byte behind it.
#[derive(Clone, Copy)]
struct Small {
    value: u32,
    end: usize,
}

// The digits at byte i.
fn small_at(bytes: &[u8], i: usize) -> Option<Small>
    ensures { MatchOption result ((v j : ℕ) → DigitsHere bytes.now i v j → ⊥) (λ s. DigitsHere bytes.now i s.value s.end) }
{
    let number = read_number(bytes, i);
    if number.end <= i {
        return None;
    }
    Some(Small {
        value: number.value?,
        end: number.end,
    })
}

// The byte behind the wanted bytes, if they stand at byte i.
fn behind(bytes: &[u8], i: usize, wanted: &[u8]) -> Option<usize>
    requires { Plain wanted.now }
    ensures { MatchOption result ((j : ℕ) → BytesHere bytes.now wanted.now i j → ⊥) (λ j. BytesHere bytes.now wanted.now i j) }
{
    expect(bytes, i, wanted).ok()
}

// A turn, and the byte behind its line.
#[derive(Clone, Copy, PartialEq, Eq, Debug)]
pub struct Reading {
    pub turn: Written,
    pub next: usize,
}

// What comes behind "of ".
fn lane_turn(bytes: &[u8], i: usize) -> Option<Reading>
    ensures { MatchOption result ((g l n : ℕ) → OfHere bytes.now i g l n → ⊥) (λ x. TurnsAt (OfHere bytes.now i) x.turn x.next) }
{
    let group = small_at(bytes, i)?;
    let at = behind(bytes, group.end, b" ")?;
    let lane = small_at(bytes, at)?;
    let next = behind(bytes, lane.end, b"\n")?;
    Some(Reading {
        turn: Written::Of {
            group: group.value,
            lane: lane.value,
        },
        next,
    })
}

// What comes behind "release ".
fn group_turn(bytes: &[u8], i: usize) -> Option<Reading>
    ensures { MatchOption result ((g n : ℕ) → ReleaseHere bytes.now i g n → ⊥) (λ x. GoesOn (ReleaseHere bytes.now i) x.turn x.next) }
{
    let group = small_at(bytes, i)?;
    let next = behind(bytes, group.end, b"\n")?;
    Some(Reading {
        turn: Written::Release { group: group.value },
        next,
    })
}

// The turn in the line that begins at byte i; None: that line is no turn.
pub fn read_turn(bytes: &[u8], i: usize) -> Option<Reading>
    ensures { MatchOption result ((t : Written) (n : ℕ) → TurnHere bytes.now i t n → ⊥) (λ x. TurnHere bytes.now i x.turn x.next) }
{
    if let Some(at) = behind(bytes, i, b"of ") {
        return lane_turn(bytes, at);
    }
    let at = behind(bytes, i, b"release ")?;
    group_turn(bytes, at)
}

// Why a file of turns is not read.
#[derive(Clone, Copy, PartialEq, Eq, Debug)]
pub enum Fault {
    NoTurn { line: usize },
    NoMemory,
}

impl From<AllocFailed<Written>> for Fault {
    ghost from_gives = { λ _ e. e ≡ NoMemory };

    fn from(_full: AllocFailed<Written>) -> Fault {
        Fault::NoMemory
    }
}

// The turns of a whole file.
pub fn read_turns(heap: Global, bytes: &[u8]) -> Result<Vec<Written>, Fault>
    ensures { ScriptRead bytes.now result }
{
    let mut turns = Vec::new(heap);
    let mut at = 0;
    // A loop: each line tells where the next begins.
    while at < bytes.len() {
        let Some(reading) = read_turn(bytes, at) else {
            return Err(Fault::NoTurn {
                line: turns.len() + 1,
            });
        };
        turns.push(reading.turn)?;
        at = reading.next;
    }
    Ok(turns)
}
