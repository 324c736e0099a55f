// How a program has its text run.
ghost use Rattle.calls.specs.Answers.{Answered, SameLent, slices_of};

use calls::answer::Answer;
use calls::memory::Memory;
use calls::plan::Refused;
use calls::programs::{any_text, run_text};
use machine::script::Written;

// An order of turns, by the call that runs a text so. A program names its own, and has no other's machine in it: with both, neither is compiled as
// one piece.
pub(crate) trait Order {
    fn call(&self, text: &[u8], bytes: &[u8], lent: &mut Memory<'_>) -> Result<Answer, Refused>
        ensures same { SameLent lent.old lent.new }
        ensures answered { Answered text.now bytes.now (slices_of lent.old) (slices_of lent.new) result };
}

// One lane after the other.
#[derive(Drop)]
pub(crate) struct InTurn;

// The turns that are written down, and then one lane after the other.
#[derive(Drop)]
pub(crate) struct AsWritten<'a> {
    pub turns: &'a [Written],
}

impl Order for InTurn {
    fn call(&self, text: &[u8], bytes: &[u8], lent: &mut Memory<'_>) -> Result<Answer, Refused> {
        run_text(text, bytes, lent)
    }
}

impl<'a> Order for AsWritten<'a> {
    fn call(&self, text: &[u8], bytes: &[u8], lent: &mut Memory<'_>) -> Result<Answer, Refused> {
        any_text(self.turns, text, bytes, lent)
    }
}
