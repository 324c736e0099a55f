// What stands at a byte: a word with its meaning, or bytes that must be there.
ghost use Rattle.std.specs.Prelude.{◌≡◌, ℕ, ◌+◌, ◌<◌, ◌≤◌, ◌^◌, List, length, IfOk};
ghost use Rattle.grammar.specs.Names.{NamesIn};
ghost use Rattle.grammar.specs.Words.{WordEnd};
ghost use Rattle.grammar.specs.Walk.{place_in, short_word_at, word_at, same_at, bytes_at, key_at};

use crate::bytes::{byte, is_letter, rest_from};
use crate::keywords::{Keyword, keyword_of};
use crate::names::name_index;
use crate::refusals::Refusal;
use crate::words::word_end;

// A word of the language, or the name of an own number.
#[derive(Clone, Copy, PartialEq, Eq, Debug)]
pub enum Word {
    Key(Keyword),
    Own(u32),
}

// A word and the byte behind it.
#[derive(Clone, Copy, PartialEq, Eq, Debug)]
pub struct Token {
    pub word: Word,
    pub end: usize,
}

// The byte behind the word at byte i, which begins with a letter and has 8 bytes at most.
#[tactic(auto, using(crate::proofs::Walks::word_end_run), unfolding(crate::specs::Walk::short_word_at))]
pub fn short_word(text: &[u8], i: usize) -> Result<usize, Refusal>
    ensures walk { result ≡ short_word_at text.now i }
    ensures word { IfOk result (λ end. WordEnd text.now i end × (end ≤ length text.now)) }
{
    if !is_letter(byte(text, i)) {
        return Err(Refusal::Shape(i));
    }
    let end = word_end(text, i);
    if end - i > 8 {
        return Err(Refusal::Shape(i + 8));
    }
    Ok(end)
}

// The short word at byte i: of the language, or the name of an own number.
pub fn read_word(text: &[u8], i: usize) -> Result<Token, Refusal>
    ensures { (ns : List (List ℕ)) → NamesIn ns text.now → result ≡ word_at (place_in ns) text.now i }
{
    let end = short_word(text, i)?;
    let word = match keyword_of(&text[i..end]) {
        Some(key) => Word::Key(key),
        None => Word::Own(name_index(text, i, end).ok_or(Refusal::Unknown(i))?),
    };
    Ok(Token { word, end })
}

// The word of the language at byte i, if one stands there.
pub fn key_here(text: &[u8], i: usize) -> Option<Keyword>
    ensures { result ≡ key_at text.now i }
{
    keyword_of(text.get(i..word_end(text, i))?)
}

// How many of the wanted bytes stand at byte i, up to the first that does not.
fn count_same(text: &[u8], i: usize, wanted: &[u8]) -> usize
    ensures count { result ≡ same_at text.now i wanted.now }
    ensures within { i + result < 2 ^ 64 }
{
    rest_from(text, i)
        .iter()
        .zip(wanted)
        .take_while(|(b, w)| b == w && **w != 0)
        .count()
}

// The byte behind the wanted bytes, which must stand at byte i.
pub fn expect(text: &[u8], i: usize, wanted: &[u8]) -> Result<usize, Refusal>
    ensures { result ≡ bytes_at text.now wanted.now i }
{
    let same = count_same(text, i, wanted);
    if same == wanted.len() {
        Ok(i + same)
    } else {
        Err(Refusal::Shape(i + same))
    }
}
