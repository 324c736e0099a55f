// An expression worked out from words where they hold it, and else from the text.
ghost use Rattle.std.specs.Prelude.{◌≡◌, ℕ, ◌<◌, ◌≤◌, ◌⊎◌, length, slice_index};
ghost use Rattle.values.specs.Ready.{Ready, Worth};

use crate::eval::eval_row;
use crate::packed::{compact, eval_words};
use crate::row::Row;

// Puts the expression that stands at a byte of the text into the words from a place up to another; a 0 at the first if it does not fit.
// A 0 and no Option: it stays in lent words between calls.
pub fn make_ready(text: &[u8], at: usize, words: &mut [u32], from: usize, to: usize)
    requires some { from < to }
    requires there { to ≤ length words.old }
    ensures kept { (k : ℕ) → (k < from) ⊎ (to ≤ k) → slice_index words.new k ≡ slice_index words.old k }
    ensures ready { Ready text.now at words.new from }
{
    if compact(text, at, words, from, to).is_none() {
        words[from] = 0;
    }
}

// The value of the expression that stands at a byte of the text, for each lane of a row.
pub fn eval_at(text: &[u8], at: usize, words: &[u32], from: usize, row: &Row, out: &mut [u32])
    requires { length out.old ≡ row.now.width }
    ensures { Ready text.now at words.now from → Worth text.now at row.now out.new }
{
    if from < words.len() && words[from] != 0 {
        eval_words(words, from, row, out);
    } else {
        eval_row(text, at, row, out);
    }
}
