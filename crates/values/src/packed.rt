// Expressions as words, an operator before its two operands: read from the text once, and worked out for a row as often as wanted.
ghost use Rattle.std.specs.Prelude.{◌≡◌, ℕ, ◌+◌, ◌<◌, ◌≤◌, ◌≢◌, ◌⊎◌, length, IfSome, slice_index};
ghost use Rattle.values.specs.Items.{Unpacked, Packed};

use crate::eval::leaf_row;
use crate::items::{Item, pack_leaf, pack_op, unpack};
use crate::leaves::leaf_of;
use crate::ops::op_from;
use crate::row::Row;
use crate::rows::apply_row;
use grammar::bytes::byte;
use grammar::words::word_end;

// What is behind an expression: a byte of the text, and a place of the words.
#[derive(Clone, Copy, Debug, PartialEq, Eq)]
pub struct Behind {
    pub byte: usize,
    pub word: usize,
}

// A word of the text, to be put at a place of the words.
fn compact_word(text: &[u8], at: usize, words: &mut [u32], from: usize) -> Option<Behind>
    requires { from < length words.old }
    ensures kept { (k : ℕ) → (k ≡ from → ⊥) → slice_index words.new k ≡ slice_index words.old k }
    ensures packed { slice_index text.now at ≢ 40 → IfSome result (λ b. Packed text.now at words.new from b × (b.word ≡ from + 1)) }
{
    if at >= text.len() {
        return None;
    }
    let end = word_end(text, at);
    let w = pack_leaf(leaf_of(text, at, end))?;
    words[from] = w;
    Some(Behind {
        byte: end,
        word: from + 1,
    })
}

// The expression that stands at a byte of the text, put into the words from a place up to another, if it fits there; if not, these
// words hold anything. It goes no deeper than there are words.
// Places, and no slices of their own: what is said of the words is said of places in the step that holds them.
pub fn compact(text: &[u8], at: usize, words: &mut [u32], from: usize, to: usize) -> Option<Behind>
    ensures kept { (k : ℕ) → (k < from) ⊎ (to ≤ k) → slice_index words.new k ≡ slice_index words.old k }
    ensures packed { IfSome result (λ b. Packed text.now at words.new from b × (b.word ≤ to)) }
{
    if from >= to || to > words.len() {
        return None;
    }
    if byte(text, at) != b'(' {
        return compact_word(text, at, words, from);
    }
    let left = compact(text, at + 1, words, from + 1, to)?;
    // a space, the operator, a space
    if left.byte + 3 > text.len() {
        return None;
    }
    let op = op_from(text[left.byte + 1])?;
    let right = compact(text, left.byte + 3, words, left.word, to)?;
    if right.byte >= text.len() {
        return None;
    }
    words[from] = pack_op(op);
    Some(Behind {
        byte: right.byte + 1,
        word: right.word,
    })
}

// The value of the expression that stands at a place of the words, for each lane of a row, and the place behind it.
pub fn eval_words(words: &[u32], at: usize, row: &Row, out: &mut [u32]) -> usize
    requires { length out.old ≡ row.now.width }
    ensures { Unpacked words.now at row.now out.new result }
{
    if at >= words.len() {
        return at;
    }
    match unpack(words[at]) {
        Some(Item::Word(leaf)) => {
            leaf_row(leaf, row, out);
            at + 1
        }
        Some(Item::Apply(op)) => {
            let mid = eval_words(words, at + 1, row, out);
            let mut room = [0; 32];
            let right = &mut room[..out.len()];
            let end = eval_words(words, mid, row, right);
            apply_row(op, out, right);
            end
        }
        None => at,
    }
}
