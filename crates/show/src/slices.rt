// The memory that a program lends.
ghost use Rattle.std.specs.Prelude.{◌≡◌, ◌≤◌, IfOk, vec_len};
ghost use Rattle.calls.specs.Answers.{Answered};
ghost use Rattle.show.specs.Ends.{held};

use crate::order::{AsWritten, InTurn, Order};
use calls::answer::Answer;
use calls::memory::Memory;
use calls::plan::Refused;
use calls::programs::room_for;
use formats::sizes::Room;
use machine::script::Written;
use std::io;

// The five slices that are lent.
#[derive(Drop)]
pub struct Slices {
    pub steps: Vec<u32>,
    pub lanes: Vec<u32>,
    pub cells: Vec<u32>,
    pub marks: Vec<u64>,
    pub printed: Vec<u8>,
}

// As much as the text and the field want; nothing if they are refused, which the call then says.
pub fn lend(rt: &HostRuntime, text: &[u8], bytes: &[u8]) -> io::Result<Slices>
    ensures { IfOk result (λ s. vec_len s.printed ≤ 18446744073709551615) }
{
    let room = room_for(text, bytes).unwrap_or(Room {
        steps: 0,
        lanes: 0,
        cells: 0,
        touches: 0,
        printed: 0,
    });
    let heap = rt.alloc();
    Ok(Slices {
        steps: vec![in heap; 0u32; room.steps]?,
        lanes: vec![in heap; 0u32; room.lanes]?,
        cells: vec![in heap; 0u32; room.cells]?,
        marks: vec![in heap; 0u64; room.touches]?,
        printed: vec![in heap; 0u8; room.printed]?,
    })
}

// Runs the text on the field in these slices.
fn run_in<O: Order>(
    order: &O,
    text: &[u8],
    bytes: &[u8],
    steps: &mut [u32],
    lanes: &mut [u32],
    cells: &mut [u32],
    marks: &mut [u64],
    printed: &mut [u8],
) -> Result<Answer, Refused>
    ensures { Answered text.now bytes.now (record { steps = steps.old; lanes = lanes.old; cells = cells.old; touches = marks.old; printed = printed.old }) (record { steps = steps.new; lanes = lanes.new; cells = cells.new; touches = marks.new; printed = printed.new }) result }
{
    let mut lent = Memory {
        steps,
        lanes,
        cells,
        marks,
        printed,
    };
    order.call(text, bytes, &mut lent)
}

impl Slices {
    // Runs the text on the field in this memory, in an order.
    pub(crate) fn run_by<O: Order>(
        &mut self,
        order: &O,
        text: &[u8],
        bytes: &[u8],
    ) -> Result<Answer, Refused>
        ensures { Answered text.now bytes.now (held self.old) (held self.new) result }
    {
        run_in(
            order,
            text,
            bytes,
            self.steps.as_mut_slice(),
            self.lanes.as_mut_slice(),
            self.cells.as_mut_slice(),
            self.marks.as_mut_slice(),
            self.printed.as_mut_slice(),
        )
    }

    // Does the turns, if there are some written down, and then one lane after the other.
    pub fn run(
        &mut self,
        text: &[u8],
        bytes: &[u8],
        turns: Option<&[Written]>,
    ) -> Result<Answer, Refused>
        ensures { Answered text.now bytes.now (held self.old) (held self.new) result }
    {
        match turns {
            Some(turns) => self.run_by(&AsWritten { turns }, text, bytes),
            None => self.run_by(&InTurn, text, bytes),
        }
    }
}
