// Expressions: a number, a name, a word of the language, or two expressions in brackets.
ghost use Rattle.std.specs.Prelude.{◌≡◌, ℕ, List};
ghost use Rattle.grammar.specs.Names.{NamesIn};
ghost use Rattle.grammar.specs.Walk.{place_in, expr_at, atom_at, operator_at, is_atom_spec, is_operator_spec};

use crate::bytes::{byte, is_digit};
use crate::keywords::Keyword;
use crate::numbers::read_number;
use crate::refusals::Refusal;
use crate::tokens::{Word, expect, read_word};

// The words of the language that are expressions.
fn is_atom(key: Keyword) -> bool
    ensures { result ≡ is_atom_spec key }
{
    matches!(key, Keyword::Lane | Keyword::Group | Keyword::Lanes)
}

fn is_operator(b: u8) -> bool
    ensures { result ≡ is_operator_spec b }
{
    matches!(b, b'+' | b'-' | b'*' | b'/' | b'%' | b'<' | b'=')
}

// The byte behind the number, name or word at byte i.
#[tactic(auto, unfolding(crate::specs::Walk::atom_at))]
fn atom(text: &[u8], i: usize) -> Result<usize, Refusal>
    ensures { (ns : List (List ℕ)) → NamesIn ns text.now → result ≡ atom_at (place_in ns) text.now i }
{
    if is_digit(byte(text, i)) {
        let number = read_number(text, i);
        return match number.value {
            Some(_) => Ok(number.end),
            None => Err(Refusal::Large(i)),
        };
    }
    let token = read_word(text, i)?;
    match token.word {
        Word::Own(_) => Ok(token.end),
        Word::Key(key) => {
            if is_atom(key) {
                Ok(token.end)
            } else {
                Err(Refusal::Shape(token.end))
            }
        }
    }
}

// The byte behind an operator between its two spaces.
#[tactic(auto, unfolding(crate::specs::Walk::operator_at))]
fn operator(text: &[u8], i: usize) -> Result<usize, Refusal>
    ensures { result ≡ operator_at text.now i }
{
    let at = expect(text, i, b" ")?;
    if !is_operator(byte(text, at)) {
        return Err(Refusal::Shape(at));
    }
    expect(text, at + 1, b" ")
}

// The byte behind the expression at byte i. At most `deep` brackets may be open at a time:
// a line has 1,024 bytes, so where a 1,025th opens, the line is too long.
#[tactic(auto, unfolding(crate::specs::Walk::expr_at))]
pub fn read_expr(text: &[u8], i: usize, deep: usize) -> Result<usize, Refusal>
    ensures { (ns : List (List ℕ)) → NamesIn ns text.now → result ≡ expr_at (place_in ns) text.now deep i }
{
    if byte(text, i) != b'(' {
        return atom(text, i);
    }
    if deep == 0 {
        return Err(Refusal::Long(i));
    }
    let first = read_expr(text, i + 1, deep - 1)?;
    let second = operator(text, first)?;
    let end = read_expr(text, second, deep - 1)?;
    expect(text, end, b")")
}
