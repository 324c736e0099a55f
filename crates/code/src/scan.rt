// What one line of a text says: the first word decides. This is for texts that were taken; on any other text it is safe, and what it says means nothing.
ghost use Rattle.std.specs.Prelude.{◌≡◌, ℕ, ◌+◌, ◌≤◌, Bool, true, List, ◌∷◌, ◌++◌, length, drop, position, ◌==◌};
ghost use Rattle.grammar.specs.Spelling.{each_byte};
ghost use Rattle.code.specs.Scan.{in_line, closing, EndsAt, ValueScan, NamedScan, WriteScan, Scan};

use super::text::Text;
use grammar::bytes::byte;
use grammar::keywords::{Keyword, keyword_of};
use grammar::names::name_index;
use grammar::words::word_end;

// A line: what it says, with the bytes where its expressions stand. `Heading` is the line of the own numbers or of the cells.
// Not the grammar's Line, which is of a line that was checked: this one knows headings, and has bytes as a step has them.
#[derive(Clone, Copy, PartialEq, Eq, Debug)]
pub enum Line {
    Heading,
    Put { own: u32, expr: u32 },
    Read { field: bool, own: u32, expr: u32 },
    Write { field: bool, place: u32, value: u32 },
    Wait,
    Test { expr: u32 },
    Loop { expr: u32 },
    Otherwise,
    Close,
}

// Where the first line ends.
fn line_end(text: &[u8]) -> Option<usize>
    ensures { result ≡ position (λ b. b == 10) text.now }
{
    text.iter().position(|b| *b == b'\n')
}

// Where the next line begins: behind the end of this one, or at the end of the text.
pub fn next_line(text: &[u8], i: usize) -> usize
    requires { i ≤ length text.now }
    ensures within { result ≤ length text.now }
    ensures on { (u z : List ℕ) → drop i text.now ≡ u ++ (10 ∷ z) → each_byte in_line u ≡ true → drop result text.now ≡ z }
{
    match line_end(&text[i..]) {
        Some(n) => i + n + 1,
        None => text.len(),
    }
}

// How many bytes it is to where the bracket closes that the text begins with: behind its last byte.
fn bracket_len(text: &[u8]) -> usize
    ensures within { result ≤ length text.now }
    ensures is { result ≡ closing 0 text.now }
{
    let mut depth: usize = 0;
    for (i, b) in text.iter().enumerate() {
        match b {
            b'(' => depth += 1,
            b')' => {
                if depth <= 1 {
                    return i + 1;
                }
                depth -= 1;
            }
            _ => {}
        }
    }
    text.len()
}

// Where the expression that stands at byte i ends.
fn expr_end(text: &[u8], i: usize) -> usize
    requires { i ≤ length text.now }
    ensures within { result ≤ length text.now }
    ensures is { EndsAt text.now i result }
{
    if byte(text, i) == b'(' {
        i + bracket_len(&text[i..])
    } else {
        word_end(text, i)
    }
}

// What own number k becomes, from byte x on: a cell, or an expression.
fn value_line(text: Text, own: u32, x: usize) -> Line
    requires { x ≤ length text.bytes.now }
    ensures { ValueScan text.entry.bytes.now own x result }
{
    let end = word_end(text.bytes, x);
    match keyword_of(&text.bytes[x..end]) {
        Some(key @ (Keyword::Cell | Keyword::Field)) => Line::Read {
            field: key == Keyword::Field,
            own,
            expr: (end + 1) as u32,
        },
        _ => Line::Put {
            own,
            expr: x as u32,
        },
    }
}

// A line that begins with a name, which ends at byte e.
fn named_line(text: Text, at: usize, e: usize) -> Option<Line>
    requires { e ≤ length text.bytes.now }
    ensures { NamedScan text.entry.bytes.now at e result }
{
    let own = name_index(text.bytes, at, e)?;
    if e + 3 <= text.bytes.len() {
        Some(value_line(text, own, e + 3))
    } else {
        None
    }
}

// A line that writes a cell, whose place stands at byte x.
fn write_line(text: Text, field: bool, x: usize) -> Option<Line>
    ensures { WriteScan text.entry.bytes.now field x result }
{
    if x > text.bytes.len() {
        return None;
    }
    let end = expr_end(text.bytes, x);
    Some(Line::Write {
        field,
        place: x as u32,
        value: (end + 3) as u32,
    })
}

// The line that begins at byte `at`; None at the end of the text.
pub fn scan_line(text: Text, at: usize) -> Option<Line>
    requires { at ≤ length text.bytes.now }
    ensures { Scan text.entry.bytes.now at result }
{
    let end = word_end(text.bytes, at);
    match keyword_of(&text.bytes[at..end]) {
        None => named_line(text, at, end),
        Some(Keyword::Cell) => write_line(text, false, end + 1),
        Some(Keyword::Field) => write_line(text, true, end + 1),
        Some(Keyword::Barrier) => Some(Line::Wait),
        Some(Keyword::If) => Some(Line::Test {
            expr: (end + 1) as u32,
        }),
        Some(Keyword::While) => Some(Line::Loop {
            expr: (end + 1) as u32,
        }),
        Some(Keyword::Else) => Some(Line::Otherwise),
        Some(Keyword::End) => Some(Line::Close),
        Some(Keyword::Own | Keyword::Cells) => Some(Line::Heading),
        Some(Keyword::Lane | Keyword::Group | Keyword::Lanes) => None,
    }
}
