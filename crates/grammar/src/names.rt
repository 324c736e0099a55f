// Own numbers and their names, which stand in the line that a text begins with.
ghost use Rattle.std.specs.Prelude.{◌≡◌, ℕ, ◌<◌, ◌≤◌, List, length, take, codes, Decides, IfSome};
ghost use Rattle.std.specs.List.{between};
ghost use Rattle.grammar.specs.Names.{NamesIn, NamesAt, PlaceOf};

use crate::bytes::byte;
use crate::words::word_end;

// The text begins with a line that names own numbers.
fn has_names(text: &[u8]) -> bool
    ensures { Decides result (take 4 text.now ≡ codes "own ") }
{
    text.starts_with(b"own ")
}

// The place of the name among the first `many` names of own numbers.
pub fn place_among(text: &[u8], name: &[u8], many: usize) -> Option<usize>
    ensures within { IfSome result (λ k. k < many) }
    ensures place { (ns : List (List ℕ)) (z : List ℕ) → NamesAt ns z many text.now → PlaceOf ns name.now result }
{
    let mut at = 3;
    // A loop: where a name ends says where the next begins.
    for k in 0..many {
        // A name stands behind a space; the line ends otherwise.
        if byte(text, at) != b' ' {
            return None;
        }
        let end = word_end(text, at + 1);
        if &text[at + 1..end] == name {
            return Some(k);
        }
        at = end;
    }
    None
}

// The place of the name text[from..to] among the names of own numbers.
pub fn name_index(text: &[u8], from: usize, to: usize) -> Option<u32>
    ensures { to ≤ length text.now → (ns : List (List ℕ)) → NamesIn ns text.now → PlaceOf ns (between from to text.now) result }
{
    // An empty word is no name.
    if from >= to {
        return None;
    }
    if !has_names(text) {
        return None;
    }
    let k = place_among(text, text.get(from..to)?, 64)?;
    Some(k as u32)
}
