// An expression that is one word: a number, a name, or a word of the language.
ghost use Rattle.std.specs.Prelude.{◌≡◌, ℕ, ◌%◌, ◌≤◌, length};
ghost use Rattle.std.specs.List.{between};
ghost use Rattle.lanes.specs.Step.{whole};
ghost use Rattle.grammar.specs.Spelling.{decimal};
ghost use Rattle.values.specs.Worth.{simple, plain, LeafAt};

use crate::ops::{product, sum};
use grammar::bytes::{byte, is_digit};
use grammar::keywords::{Keyword, keyword_of};
use grammar::names::name_index;

#[derive(Clone, Copy, Debug, PartialEq, Eq)]
pub enum Leaf {
    Fixed(u32),
    Own(u32),
    Lane,
    Group,
    Lanes,
}

// The number that digits are, modulo 2^32.
fn number_of(digits: &[u8]) -> u32
    ensures { result ≡ decimal 0 digits.now % whole }
{
    digits.iter().fold(
        0,
        |n, b| sum(product(n, 10), u32::from(b.saturating_sub(b'0'))),
    )
}

// What the word text[at..end] is, if it is no word of the language: a number or a name; 0 if it is nothing.
// 0 and no Option: a word that is nothing is worth 0, by the definition.
fn number_or_name(text: &[u8], at: usize, end: usize) -> Leaf
    requires from { at ≤ end }
    requires to { end ≤ length text.now }
    ensures { LeafAt plain text.now (between at end text.now) result }
{
    if is_digit(byte(text, at)) {
        return Leaf::Fixed(number_of(&text[at..end]));
    }
    match name_index(text, at, end) {
        Some(k) => Leaf::Own(k),
        None => Leaf::Fixed(0),
    }
}

// What the word text[at..end] is; 0 if it is nothing.
pub fn leaf_of(text: &[u8], at: usize, end: usize) -> Leaf
    requires from { at ≤ end }
    requires to { end ≤ length text.now }
    ensures { LeafAt simple text.now (between at end text.now) result }
{
    let Some(word) = keyword_of(&text[at..end]) else {
        return number_or_name(text, at, end);
    };
    match word {
        Keyword::Lane => Leaf::Lane,
        Keyword::Group => Leaf::Group,
        Keyword::Lanes => Leaf::Lanes,
        _ => number_or_name(text, at, end),
    }
}
