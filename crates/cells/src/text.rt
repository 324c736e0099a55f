// Cells from a whole text.
ghost use Rattle.std.specs.Prelude.{◌≡◌, ℕ, suc, ◌+◌, ◌*◌, ◌<◌, ◌≤◌, min, length, take, drop, count_by, slice_index};
ghost use Rattle.cells.specs.Scan.{cells_from, cells_in, between_words};
ghost use Rattle.cells.specs.Back.{PrintedBack};
ghost use Rattle.cells.specs.Post.{ReadsText, is_end};
ghost use Rattle.cells.specs.Word.{IsWord};

use crate::scan::{Base, Next, Part, Unread, step};
use std::alloc::Global;

const BETWEEN: Part = Part {
    value: 0,
    digits: 0,
};

// The cells from a byte on, or why not.
fn read_from(heap: Global, text: &[u8], from: usize, base: Base) -> Result<Vec<u32>, Unread>
    requires { from ≤ length text.now }
    ensures { ReadsText (cells_from base between_words from (drop from text.now)) result }
{
    // Each cell has a byte at least, and a byte that is none stands between two: so the room never grows.
    let mut cells = Vec::with_capacity(heap, text.len() / 2 + 1).map_err(|_| Unread::NoMemory)?;
    let mut part = BETWEEN;
    let rest = &text[from..];
    for (k, byte) in rest.iter().enumerate() {
        match step(base, part, *byte).ok_or(Unread::Bad(from + k))? {
            Next::On(next) => part = next,
            Next::Whole(cell) => {
                cells.push(cell)?;
                part = BETWEEN;
            }
        }
    }
    // the end of the text is as good as white space
    if let Next::Whole(cell) = step(base, part, b'\n').ok_or(Unread::Bad(text.len()))? {
        cells.push(cell)?;
    }
    Ok(cells)
}

// The cells in a text, or why not.
pub fn read_cells(heap: Global, text: &[u8]) -> Result<Vec<u32>, Unread>
    ensures { ReadsText (cells_in text.now) result }
{
    if text.starts_with(b"field") {
        read_from(heap, text, 5, Base::Hex)
    } else {
        read_from(heap, text, 0, Base::Decimal)
    }
}

// How many lines end before a byte.
// As in `cli`: one chain.
pub fn lines_before(text: &[u8], at: usize) -> usize
    ensures { result ≡ count_by is_end (take (min at (length text.now)) text.now) }
{
    let before = &text[..at.min(text.len())];
    before.iter().filter(|byte| **byte == b'\n').count()
}

// Where the last word of a text begins; its end, if white space stands there.
// Here and in `cli` (for lines) each is one search of std's: a function for both would be no shorter.
fn last_word(text: &[u8]) -> usize
    ensures within { result ≤ length text.now }
    ensures word { (k : ℕ) → result ≤ k → k < length text.now → 32 < slice_index text.now k }
    ensures begins { (k : ℕ) → result ≡ suc k → slice_index text.now k ≤ 32 }
{
    text.iter()
        .rposition(|byte| *byte <= b' ')
        .map_or(0, |at| at + 1)
}

// Where the first word of a text ends; 0, if white space stands there.
fn first_word(text: &[u8]) -> usize
    ensures within { result ≤ length text.now }
    ensures word { (k : ℕ) → k < result → 32 < slice_index text.now k }
    ensures ends { result < length text.now → slice_index text.now result ≤ 32 }
{
    text.iter()
        .position(|byte| *byte <= b' ')
        .unwrap_or(text.len())
}

// The word that a byte stands in, or that ends there, for a message.
pub fn word_at(text: &[u8], at: usize) -> &[u8]
    ensures short { length result.now ≤ length text.now }
    ensures word { IsWord text.now at result.now }
{
    let (before, behind) = text.split_at(at.min(text.len()));
    let from = last_word(before);
    let to = before.len() + first_word(behind);
    &text[from..to]
}

// What is printed of a field is read as its cells.
pub fn printed_back_stands()
    ensures { PrintedBack }
{}
