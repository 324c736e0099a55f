// A whole text.
ghost use Rattle.std.specs.Prelude.{◌≡◌, ℕ, List, IfOk, Err};
ghost use Rattle.grammar.specs.Names.{NamesIn};
ghost use Rattle.grammar.specs.Walk.{place_in};
ghost use Rattle.reader.specs.Goeson.{GoesOn};
ghost use Rattle.reader.specs.Texts.{head_lines_spec, read_at, ReadAs, EveryRead};

use crate::blocks::{Ending, block};
use crate::heads::{cells_line, own_line};
use grammar::refusals::Refusal;

// What there is in a text that is taken: how many own numbers, cells and lines, and the byte and the line (counted from 0)
// at which the body begins.
#[derive(Clone, Copy, PartialEq, Eq, Debug)]
pub struct Shape {
    pub owns: usize,
    pub cells: usize,
    pub lines: usize,
    pub body_at: usize,
    pub first: usize,
}

// How many lines there are before byte `body`, if the own line ends before byte `cells`.
fn head_lines(cells: usize, body: usize) -> usize
    ensures { result ≡ head_lines_spec cells body }
{
    let own = if cells > 0 { 1 } else { 0 };
    if body > cells { own + 1 } else { own }
}

// Reads a text: what is in it, if it spells a program within the limits; or why it is refused. No text that spells a program
// within the limits is refused. A refusal with number 1 stands at the first byte at which no text goes on so.
pub fn read(text: &[u8]) -> Result<Shape, Refusal>
    ensures walk { result ≡ read_at text.now }
    ensures taken { IfOk result (λ s. ReadAs text.now s) }
    ensures every { EveryRead text.now result }
    ensures shape { (p : ℕ) → result ≡ Err (Refusal.Shape p) → GoesOn text.now p }
{
    let own = own_line(text)?;
    let cells = cells_line(text, own.next)?;
    let first = head_lines(own.next, cells.next);
    let stop = block(text, cells.next, 1024 - first, 16, false)?;
    let end = stop.must(Ending::Text)?;
    Ok(Shape {
        owns: own.many,
        cells: cells.many,
        lines: 1024 - end.left,
        body_at: cells.next,
        first,
    })
}
