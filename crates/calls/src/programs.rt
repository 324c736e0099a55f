// What the programs call: nothing is asked of their callers.
ghost use Rattle.std.specs.Prelude.{◌≡◌};
ghost use Rattle.calls.specs.Answers.{Answered, SameLent, slices_of};
ghost use Rattle.calls.specs.Plan.{wanted_as};

use crate::answer::{Answer, answer_by};
use crate::memory::Memory;
use crate::plan::{Refused, ask};
use formats::sizes::{Room, wanted};
use machine::inturn::InTurn;
use machine::replay::Scripted;
use machine::script::Written;

// How long the lent slices have to be for a text and a field's bytes.
pub fn room_for(text: &[u8], bytes: &[u8]) -> Result<Room, Refused>
    ensures { result ≡ wanted_as text.now bytes.now }
{
    Ok(wanted(ask(text, bytes)?.shape))
}

// One lane after the other, each up to its next barrier.
pub fn run_text(text: &[u8], bytes: &[u8], lent: &mut Memory<'_>) -> Result<Answer, Refused>
    ensures same { SameLent lent.old lent.new }
    ensures answered { Answered text.now bytes.now (slices_of lent.old) (slices_of lent.new) result }
{
    let mut in_turn = InTurn { group: 0, lane: 0 };
    answer_by(&mut in_turn, text, bytes, lent)
}

// The turns that are written down, and behind them one lane after the other.
pub fn any_text(
    turns: &[Written],
    text: &[u8],
    bytes: &[u8],
    lent: &mut Memory<'_>,
) -> Result<Answer, Refused>
    ensures same { SameLent lent.old lent.new }
    ensures answered { Answered text.now bytes.now (slices_of lent.old) (slices_of lent.new) result }
{
    let mut scripted = Scripted {
        turns: turns.iter(),
        rest: InTurn { group: 0, lane: 0 },
    };
    answer_by(&mut scripted, text, bytes, lent)
}
