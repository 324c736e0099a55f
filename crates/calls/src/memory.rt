// The memory that a caller lends.
ghost use Rattle.std.specs.Prelude.{◌≡◌};
ghost use Rattle.calls.specs.Answers.{slices_of, room_of};

use formats::sizes::Room;

// A slice for the steps, one for the lanes, one for all cells, one for what is kept of the touches, and one for what is printed.
#[derive(Drop)]
pub struct Memory<'a> {
    pub steps: &'a mut [u32],
    pub lanes: &'a mut [u32],
    pub cells: &'a mut [u32],
    pub marks: &'a mut [u64],
    pub printed: &'a mut [u8],
}

impl Memory<'_> {
    // How long the slices are.
    pub(crate) fn room(&self) -> Room
        ensures { result ≡ room_of (slices_of self.now) }
    {
        Room {
            steps: self.steps.len(),
            lanes: self.lanes.len(),
            cells: self.cells.len(),
            touches: self.marks.len(),
            printed: self.printed.len(),
        }
    }
}
