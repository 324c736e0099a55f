// Lines in each other.
ghost use Rattle.std.specs.Prelude.{◌≡◌, ℕ, ◌<◌, ◌≤◌, Bool, List, length, IfOk, OnOk};
ghost use Rattle.grammar.specs.Names.{NamesIn};
ghost use Rattle.grammar.specs.Walk.{place_in};
ghost use Rattle.reader.specs.Blocks.{opens, next_at, must_spec, must_loop_spec, block_at, kind_of_spec};

use grammar::keywords::Keyword;
use grammar::lines::{Line, Lined, parse_line};
use grammar::refusals::{Refusal, refusal_place};
use grammar::tokens::key_here;

// Where lines in a block end: with the text, or before an else or an end.
#[derive(Clone, Copy, PartialEq, Eq, Debug)]
pub enum Ending {
    Text,
    Else,
    End,
}

// How a block ended: the ending line begins at pos, the line behind it at next; `left` lines may still come;
// `some` says that the block had a line.
#[derive(Clone, Copy, PartialEq, Eq, Debug)]
pub struct Stop {
    pub ending: Ending,
    pub some: bool,
    pub pos: usize,
    pub next: usize,
    pub left: usize,
}

// An if or a while begins.
fn opens(key: Option<Keyword>) -> bool
    ensures { result ≡ opens key }
{
    matches!(key, Some(Keyword::If | Keyword::While))
}

// The line at byte pos, if a line may still come, and if it may open a block where it opens one.
#[tactic(auto, unfolding(crate::specs::Blocks::next_at))]
fn next_line(text: &[u8], pos: usize, left: usize, deep: usize) -> Result<Lined, Refusal>
    ensures walk { (ns : List (List ℕ)) → NamesIn ns text.now → result ≡ next_at (place_in ns) text.now deep left pos }
    ensures more { OnOk result (0 < left) }
{
    let lined = parse_line(text, pos);
    if left == 0 {
        // Another fault at this very byte has the lower number.
        return match lined {
            Err(refusal) if refusal_place(refusal) == pos => lined,
            _ => Err(Refusal::ManyLines(pos)),
        };
    }
    if deep == 0 && opens(key_here(text, pos)) {
        return Err(Refusal::Deep(pos));
    }
    lined
}

// What a line is to the lines around it.
#[derive(Clone, Copy, PartialEq, Eq, Debug)]
pub enum Kind {
    Plain,
    Opens,
    Loops,
    Parts,
    Closes,
}

fn kind_of(line: Line) -> Kind
    ensures { result ≡ kind_of_spec line }
{
    match line {
        Line::If { .. } => Kind::Opens,
        Line::While { .. } => Kind::Loops,
        Line::Else => Kind::Parts,
        Line::End => Kind::Closes,
        _ => Kind::Plain,
    }
}

impl Stop {
    // The block, which must end so. The byte behind an `else` or an `end` is the one before the next line.
    pub(crate) fn must(self, wanted: Ending) -> Result<Stop, Refusal>
        ensures { result ≡ must_spec wanted self }
    {
        match self.ending {
            ending if ending == wanted => Ok(self),
            Ending::Text => Err(Refusal::Shape(self.pos)),
            Ending::Else | Ending::End => Err(Refusal::Shape(self.next.saturating_sub(1))),
        }
    }
}

// The block of a while has a line at least.
fn must_loop(body: Stop) -> Result<Stop, Refusal>
    ensures { result ≡ must_loop_spec body }
{
    let stop = body.must(Ending::End)?;
    if stop.some {
        Ok(stop)
    } else {
        Err(Refusal::Shape(stop.next.saturating_sub(1)))
    }
}

// The lines from byte pos on, up to an else or an end that is not theirs or the end of the text; `left` lines may still
// come, `deep` more of them may stand in each other, and `some` says that the block has lines before these.
// Kept four numbers beside the text and no struct: of each call's numbers others are new, and a struct would only name them all once more.
#[tactic(auto, using(crate::proofs::Nexts::block_text, crate::proofs::Nexts::made_less, crate::proofs::Nexts::loop_left, crate::proofs::Nexts::end_left))]
pub fn block(text: &[u8], pos: usize, left: usize, deep: usize, some: bool) -> Result<Stop, Refusal>
    ensures fewer { IfOk result (λ s. s.left ≤ left) }
    ensures walk { (ns : List (List ℕ)) (f : ℕ) → NamesIn ns text.now → left < f → result ≡ block_at (place_in ns) text.now f deep left pos some }
{
    if pos >= text.len() {
        return Ok(Stop {
            ending: Ending::Text,
            some,
            pos,
            next: pos,
            left,
        });
    }
    let lined = next_line(text, pos, left, deep)?;
    let fewer = left - 1;
    match kind_of(lined.line) {
        Kind::Plain => block(text, lined.next, fewer, deep, true),
        Kind::Parts => Ok(Stop {
            ending: Ending::Else,
            some,
            pos,
            next: lined.next,
            left: fewer,
        }),
        Kind::Closes => Ok(Stop {
            ending: Ending::End,
            some,
            pos,
            next: lined.next,
            left: fewer,
        }),
        Kind::Loops => {
            let body = block(text, lined.next, fewer, deep.saturating_sub(1), false)?;
            let end = must_loop(body)?;
            block(text, end.next, end.left, deep, true)
        }
        Kind::Opens => {
            let first = block(text, lined.next, fewer, deep.saturating_sub(1), false)?;
            if first.ending == Ending::Else {
                let second = block(text, first.next, first.left, deep.saturating_sub(1), false)?;
                let last = second.must(Ending::End)?;
                return block(text, last.next, last.left, deep, true);
            }
            let end = first.must(Ending::End)?;
            block(text, end.next, end.left, deep, true)
        }
    }
}
