// Words in a text.
ghost use Rattle.std.specs.Prelude.{◌≡◌, ◌+◌, ◌<◌, ◌^◌, drop};
ghost use Rattle.std.specs.List.{prefix_len};
ghost use Rattle.grammar.specs.Spelling.{word_byte};
ghost use Rattle.grammar.specs.Words.{WordEnd};

use crate::bytes::{is_word, rest_from};

// How many letters and digits stand from byte i on. One chain, as for digits: a function that took the test would be no shorter.
fn word_len(text: &[u8], i: usize) -> usize
    ensures count { result ≡ prefix_len word_byte (drop i text.now) }
    ensures within { i + result < 2 ^ 64 }
{
    rest_from(text, i)
        .iter()
        .take_while(|b| is_word(**b))
        .count()
}

// Where the word that begins at i ends: behind the longest run of letters and digits.
pub fn word_end(text: &[u8], i: usize) -> usize
    ensures { WordEnd text.now i result }
{
    i + word_len(text, i)
}
