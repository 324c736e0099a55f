// The lines before the body: own numbers and cells.
ghost use Rattle.std.specs.Prelude.{◌≡◌, ℕ, ◌≤◌, List, ◌++◌, length, drop};
ghost use Rattle.grammar.specs.Stands.{Apart};
ghost use Rattle.reader.specs.Heads.{Words, spaced, name_at, own_at, counted, cells_at};

use grammar::bytes::{byte, is_digit};
use grammar::keywords::{Keyword, keyword_of};
use grammar::names::place_among;
use grammar::numbers::read_number;
use grammar::refusals::Refusal;
use grammar::tokens::{expect, key_here, short_word};

// How many there are, and the byte at which the next line begins.
#[derive(Clone, Copy, PartialEq, Eq, Debug)]
pub struct Head {
    pub many: usize,
    pub next: usize,
}

// The byte behind the name at byte i, which is to be name number `many`.
fn new_name(text: &[u8], i: usize, many: usize) -> Result<usize, Refusal>
    ensures { (seen : List (List ℕ)) (z : List ℕ) → length seen ≡ many → Words seen → Apart z → drop 3 text.now ≡ spaced seen ++ z → result ≡ name_at seen text.now i }
{
    let end = short_word(text, i)?;
    let name = &text[i..end];
    if keyword_of(name).is_some() {
        return Err(Refusal::Shape(end));
    }
    if place_among(text, name, many).is_some() {
        return Err(Refusal::Twice(i));
    }
    if many >= 64 {
        Err(Refusal::ManyNames(i))
    } else {
        Ok(end)
    }
}

// The line that names own numbers, if the text begins with one. Kept a loop that counts: how many names there are is what it finds, and
// `new_name` ends it at the 65th, so a range would have an end that is never reached.
pub fn own_line(text: &[u8]) -> Result<Head, Refusal>
    ensures { result ≡ counted (own_at text.now) }
{
    if key_here(text, 0) != Some(Keyword::Own) {
        return Ok(Head { many: 0, next: 0 });
    }
    let mut end = 3;
    let mut many = 0;
    loop {
        let at = expect(text, end, b" ")?;
        end = new_name(text, at, many)?;
        many += 1;
        if byte(text, end) == b'\n' {
            return Ok(Head {
                many,
                next: end + 1,
            });
        }
    }
}

// The line with the number of cells, if one begins at byte pos.
#[tactic(auto, unfolding(crate::specs::Heads::cells_at))]
pub fn cells_line(text: &[u8], pos: usize) -> Result<Head, Refusal>
    ensures { result ≡ cells_at text.now pos }
{
    if key_here(text, pos) != Some(Keyword::Cells) {
        return Ok(Head { many: 0, next: pos });
    }
    let at = expect(text, pos, b"cells ")?;
    if !is_digit(byte(text, at)) {
        return Err(Refusal::Shape(at));
    }
    let number = read_number(text, at);
    let many = match number.value {
        Some(many) if many <= 16384 => many as usize,
        _ => return Err(Refusal::ManyCells(at)),
    };
    if number.end.saturating_sub(pos) > 1024 {
        return Err(Refusal::Long(pos + 1024));
    }
    let next = expect(text, number.end, b"\n")?;
    Ok(Head { many, next })
}
