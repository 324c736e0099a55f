// Where a byte stands in a text: for messages to a person.
ghost use Rattle.std.specs.Prelude.{◌≡◌, ℕ, suc, ◌<◌, ◌≤◌, length, ◌≢◌, slice_index};
ghost use Rattle.cli.specs.Spot.{IsSpot};

// Lines and columns are counted from 1. The line's bytes are those from `start` up to `end`, its byte 10 not among them.
// Two places and no range, which can't be copied.
#[derive(Clone, Copy, PartialEq, Eq, Debug)]
pub struct Spot {
    pub line: usize,
    pub column: usize,
    pub start: usize,
    pub end: usize,
}

// Where the last line of a text begins.
fn last_line(text: &[u8]) -> usize
    ensures within { result ≤ length text.now }
    ensures begins { (k : ℕ) → result ≡ suc k → slice_index text.now k ≡ 10 }
    ensures none { (k : ℕ) → result ≤ k → k < length text.now → slice_index text.now k ≢ 10 }
{
    text.iter()
        .rposition(|byte| *byte == b'\n')
        .map_or(0, |at| at + 1)
}

// Where the first line of a text ends.
fn first_line(text: &[u8]) -> usize
    ensures within { result ≤ length text.now }
    ensures none { (k : ℕ) → k < result → slice_index text.now k ≢ 10 }
    ensures ends { result < length text.now → slice_index text.now result ≡ 10 }
{
    text.iter()
        .position(|byte| *byte == b'\n')
        .unwrap_or(text.len())
}

// The spot of byte i, or of the text's end if i lies behind it.
pub fn spot_of(text: &[u8], i: usize) -> Spot
    ensures { IsSpot text.now i result }
{
    let (before, behind) = text.split_at(i.min(text.len()));
    let start = last_line(before);
    let line = before.iter().filter(|byte| **byte == b'\n').count() + 1;
    Spot {
        line,
        column: before.len() - start + 1,
        start,
        end: before.len() + first_line(behind),
    }
}
