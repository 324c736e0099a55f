// One line of a text.
ghost use Rattle.std.specs.Prelude.{◌≡◌, ℕ, ◌+◌, ◌≤◌, List, length, IfOk, Ok};
ghost use Rattle.grammar.specs.Lines.{LineHere};
ghost use Rattle.grammar.specs.Names.{NamesIn};
ghost use Rattle.grammar.specs.Spelling.{Named};
ghost use Rattle.grammar.specs.Taken.{Distinct};
ghost use Rattle.grammar.specs.Walk.{place_in};
ghost use Rattle.grammar.specs.WalkLine.{cell_kind_spec, with_expr_spec, closed, assign_at, write_at, by_key, bare_at, within_line_spec, line_at};

use crate::exprs::read_expr;
use crate::keywords::Keyword;
use crate::refusals::{Refusal, refusal_place};
use crate::tokens::{Word, expect, key_here, read_word};
use crate::words::word_end;

// A line of a body. An expression is given by the byte at which it begins, an own number by its place among the names.
// `field` is a truth value: it is named where a line is made or matched, so `field: true` says as much as a variant would.
#[derive(Clone, Copy, PartialEq, Eq, Debug)]
pub enum Line {
    Put {
        own: u32,
        expr: usize,
    },
    Read {
        field: bool,
        own: u32,
        expr: usize,
    },
    Write {
        field: bool,
        place: usize,
        value: usize,
    },
    Barrier,
    If {
        expr: usize,
    },
    Else,
    End,
    While {
        expr: usize,
    },
}

// A line, and the byte at which the next one begins.
#[derive(Clone, Copy, PartialEq, Eq, Debug)]
pub struct Lined {
    pub line: Line,
    pub next: usize,
}

// The line that ends with the expression at byte i.
#[tactic(auto, unfolding(crate::specs::WalkLine::with_expr_spec))]
fn with_expr(text: &[u8], line: Line, i: usize) -> Result<Lined, Refusal>
    ensures { (ns : List (List ℕ)) → NamesIn ns text.now → result ≡ with_expr_spec (place_in ns) text.now line i }
{
    let end = read_expr(text, i, 1024)?;
    closed(text, line, end)
}

// The line that ends at byte i.
#[tactic(auto, unfolding(crate::specs::WalkLine::closed))]
fn closed(text: &[u8], line: Line, i: usize) -> Result<Lined, Refusal>
    ensures { result ≡ closed text.now line i }
{
    let next = expect(text, i, b"\n")?;
    Ok(Lined { line, next })
}

// Whether the word is `field` or `cell`, if it is one of the two: the bool of `Line`.
fn cell_kind(key: Option<Keyword>) -> Option<bool>
    ensures { result ≡ cell_kind_spec key }
{
    match key {
        Some(Keyword::Cell) => Some(false),
        Some(Keyword::Field) => Some(true),
        _ => None,
    }
}

// A line that begins with the name of own number `own`, which ends at byte i.
#[tactic(auto, using(crate::proofs::Walks::word_end_run), unfolding(crate::specs::WalkLine::assign_at))]
fn assign(text: &[u8], own: u32, i: usize) -> Result<Lined, Refusal>
    ensures { (ns : List (List ℕ)) → NamesIn ns text.now → result ≡ assign_at (place_in ns) text.now own i }
{
    let at = expect(text, i, b" = ")?;
    match cell_kind(key_here(text, at)) {
        Some(field) => {
            let expr = expect(text, word_end(text, at), b" ")?;
            with_expr(text, Line::Read { field, own, expr }, expr)
        }
        None => with_expr(text, Line::Put { own, expr: at }, at),
    }
}

// A line that begins with `cell` or `field`, which ends at byte i.
#[tactic(auto, unfolding(crate::specs::WalkLine::write_at))]
fn write(text: &[u8], field: bool, i: usize) -> Result<Lined, Refusal>
    ensures { (ns : List (List ℕ)) → NamesIn ns text.now → result ≡ write_at (place_in ns) text.now field i }
{
    let place = expect(text, i, b" ")?;
    let end = read_expr(text, place, 1024)?;
    let value = expect(text, end, b" = ")?;
    with_expr(
        text,
        Line::Write {
            field,
            place,
            value,
        },
        value,
    )
}

// A line that begins with a word of the language, which ends at byte i.
#[tactic(auto, unfolding(crate::specs::WalkLine::by_key))]
fn keyed(text: &[u8], key: Keyword, i: usize) -> Result<Lined, Refusal>
    ensures { (ns : List (List ℕ)) → NamesIn ns text.now → result ≡ by_key (place_in ns) text.now key i }
{
    match key {
        Keyword::Cell => write(text, false, i),
        Keyword::Field => write(text, true, i),
        Keyword::Barrier => closed(text, Line::Barrier, i),
        Keyword::Else => closed(text, Line::Else, i),
        Keyword::End => closed(text, Line::End, i),
        Keyword::If => {
            let expr = expect(text, i, b" ")?;
            with_expr(text, Line::If { expr }, expr)
        }
        Keyword::While => {
            let expr = expect(text, i, b" ")?;
            with_expr(text, Line::While { expr }, expr)
        }
        Keyword::Own | Keyword::Cells | Keyword::Lane | Keyword::Group | Keyword::Lanes => Err(
            Refusal::Shape(i),
        ),
    }
}

// The line at byte pos, however long it is.
#[tactic(auto, unfolding(crate::specs::WalkLine::bare_at))]
fn bare_line(text: &[u8], pos: usize) -> Result<Lined, Refusal>
    ensures { (ns : List (List ℕ)) → NamesIn ns text.now → result ≡ bare_at (place_in ns) text.now pos }
{
    let token = read_word(text, pos)?;
    match token.word {
        Word::Own(own) => assign(text, own, token.end),
        Word::Key(key) => keyed(text, key, token.end),
    }
}

// What is found in the line that begins at pos, if nothing of it lies behind the line's 1,024 bytes.
pub fn within_line(pos: usize, found: Result<Lined, Refusal>) -> Result<Lined, Refusal>
    ensures { result ≡ within_line_spec pos found }
{
    match found {
        Ok(lined) if lined.next.saturating_sub(pos) > 1025 => Err(Refusal::Long(pos + 1024)),
        Err(refusal) if refusal_place(refusal).saturating_sub(pos) > 1024 => {
            Err(Refusal::Long(pos + 1024))
        }
        _ => found,
    }
}

// The line at byte pos. For names ns that are distinct and stand in the text's first line, it is the line that
// stands there (`LineHere`, with its expressions' bytes and the byte of the next line), and a line of up to 1,024 bytes
// that stands there is answered: exactly it.
pub fn parse_line(text: &[u8], pos: usize) -> Result<Lined, Refusal>
    ensures walk { (ns : List (List ℕ)) → NamesIn ns text.now → result ≡ line_at (place_in ns) text.now pos }
    ensures stands { (ns : List (List ℕ)) → NamesIn ns text.now → IfOk result (λ l. LineHere (Named ns) (length ns) text.now pos l.line l.next × (l.next ≤ pos + 1025)) }
    ensures found { (ns : List (List ℕ)) (l : Line) (n : ℕ) → NamesIn ns text.now → Distinct ns → LineHere (Named ns) (length ns) text.now pos l n → n ≤ pos + 1025 → result ≡ Ok (record { line = l; next = n }) }
{
    within_line(pos, bare_line(text, pos))
}
