// A text that was taken, made into steps: recursion over lines, with a falling number for what stands in each other.
ghost use Rattle.std.specs.Prelude.{◌≡◌, ℕ, ◌+◌, ◌*◌, ◌/◌, ◌<◌, ◌≤◌, Bool, true, false, List, length, Some, Option, MatchOption};
ghost use Rattle.lanes.specs.Syntax.{Body, Program};
ghost use Rattle.grammar.specs.Taken.{Taken, lines_in};
ghost use Rattle.code.specs.Scan.{Scan};
ghost use Rattle.code.specs.Make.{After, stopping, plain_step, Given, LinesMade, LineMade, Branches, BranchMade, ElseGiven, ElseMade, Closed, Skipped, Compiled, Joining};

use super::scan::{Line, next_line, scan_line};
use super::step::Step;
use super::text::{Source, Text};
use super::words::{ENTRY, write_entry};

// How deep lines may stand in each other.
const DEEPEST: usize = 16;

// Where a line stands: its first byte, its number in the text, and the entry that is made of it.
#[derive(Clone, Copy, PartialEq, Eq, Debug)]
pub struct Place {
    pub at: usize,
    pub line: u32,
    pub entry: usize,
}

// The place of the next line, and of the next entry.
#[tactic(auto, unfolding(crate::specs::Make::NextLine))]
fn after(text: &[u8], p: Place) -> Place
    requires within { p.at ≤ length text.now }
    requires few { p.entry < 1024 }
    ensures { After text.now p result }
{
    Place {
        at: next_line(text, p.at),
        line: p.line.saturating_add(1),
        entry: p.entry + 1,
    }
}

// The line belongs to no body: a body ends before it.
fn stops(line: Line) -> bool
    ensures { result ≡ stopping (Some line) }
{
    matches!(line, Line::Heading | Line::Otherwise | Line::Close)
}

// The step of a line that is no branch.
fn step_of(line: Line, next: u32) -> Step
    ensures { result ≡ plain_step line next }
{
    match line {
        Line::Put { own, expr } => Step::Put { own, expr, next },
        Line::Read { field, own, expr } => Step::Read {
            field,
            own,
            expr,
            next,
        },
        Line::Write {
            field,
            place,
            value,
        } => Step::Write {
            field,
            place,
            value,
            next,
        },
        Line::Wait => Step::Barrier { next },
        _ => Step::End,
    }
}

// Writes the entries of a branch at p: its own, and the jumps behind its first and behind its last lines.
fn close(steps: &mut [u32], p: Place, first: Place, last: Place, looped: bool, expr: u32)
    requires few { last.entry < 1024 }
    requires room { last.entry < length steps.old / 16 }
    requires order { p.entry < first.entry }
    requires sorted { first.entry ≤ last.entry }
    ensures { Closed steps.old steps.new p first last expr looped }
{
    let join = last.entry as u32 + 1;
    let to = if looped { p.entry as u32 } else { join };
    write_entry(steps, first.entry, Step::Jump { to }, first.line);
    write_entry(steps, last.entry, Step::Jump { to }, last.line);
    let branch = Step::Branch {
        expr,
        yes: p.entry as u32 + 1,
        no: first.entry as u32 + 1,
        join,
        looped,
    };
    write_entry(steps, p.entry, branch, p.line);
}

// The lines of an else, if one stands at `first`; the place of the end behind them, and its entry.
// Each of these four asks for the place in the text and the room in the words: both are others at each call, so that no type keeps it.
#[cycle(compile_branch_compile_line_compile_lines_else_lines)]
fn else_lines(of: Source, first: Place, depth: usize, steps: &mut [u32]) -> Option<Place>
    requires within { first.at ≤ length of.text.bytes.now }
    requires entry { first.entry < of.room }
    requires room { of.room ≤ length steps.old / 16 }
    ensures { MatchOption result ((ns : List (List ℕ)) (d : Body) (z : List ℕ) → ElseGiven ns of.entry.text.bytes.now first.at d z first.entry depth of.entry.room → ⊥) (λ p. ElseMade of.entry.text.bytes.now steps.old steps.new depth of.entry.room first p) }
{
    let Some(Line::Otherwise) = scan_line(of.text, first.at) else {
        return Some(first);
    };
    let begin = after(of.text.bytes, first);
    let second = compile_lines(of, begin, depth, steps)?;
    if second.entry == begin.entry {
        Some(Place {
            entry: first.entry,
            ..second
        })
    } else {
        Some(second)
    }
}

// An if or a while at p, with what stands in it.
#[cycle(compile_branch_compile_line_compile_lines_else_lines)]
fn compile_branch(
    of: Source,
    p: Place,
    looped: bool,
    expr: u32,
    depth: usize,
    steps: &mut [u32],
) -> Option<Place>
    requires within { p.at ≤ length of.text.bytes.now }
    requires entry { p.entry < of.room }
    requires room { of.room ≤ length steps.old / 16 }
    ensures { MatchOption result ((ns : List (List ℕ)) (b : Body) (z : List ℕ) → Given ns of.entry.text.bytes.now p.at b z p.entry depth of.entry.room → Branches ns of.entry.text.bytes.now expr looped b → ⊥) (λ q. BranchMade of.entry.text.bytes.now steps.old steps.new depth of.entry.room expr looped p q) }
{
    if depth == 0 {
        return None;
    }
    let inside = after(of.text.bytes, p);
    let first = compile_lines(of, inside, depth - 1, steps)?;
    if first.entry >= of.room {
        return None;
    }
    let last = else_lines(of, first, depth - 1, steps)?;
    if last.entry >= of.room {
        return None;
    }
    close(steps, p, first, last, looped, expr);
    Some(after(of.text.bytes, last))
}

// The line at p, with what stands in it.
#[cycle(compile_branch_compile_line_compile_lines_else_lines)]
fn compile_line(of: Source, p: Place, line: Line, depth: usize, steps: &mut [u32]) -> Option<Place>
    requires within { p.at ≤ length of.text.bytes.now }
    requires entry { p.entry < of.room }
    requires room { of.room ≤ length steps.old / 16 }
    requires scanned { Scan of.text.bytes.now p.at (Some line) }
    requires goes { stopping (Some line) ≡ false }
    ensures { MatchOption result ((ns : List (List ℕ)) (b : Body) (z : List ℕ) → Given ns of.entry.text.bytes.now p.at b z p.entry depth of.entry.room → ⊥) (λ q. LineMade of.entry.text.bytes.now steps.old steps.new depth of.entry.room p q) }
{
    match line {
        Line::Test { expr } => compile_branch(of, p, false, expr, depth, steps),
        Line::Loop { expr } => compile_branch(of, p, true, expr, depth, steps),
        _ => {
            let next = after(of.text.bytes, p);
            write_entry(steps, p.entry, step_of(line, next.entry as u32), p.line);
            Some(next)
        }
    }
}

// The lines from a place on, up to an else or an end that belongs to none of them, or the end of the text.
// A loop of its own: each line says where the next one stands, and writes into the words that the others write into.
#[cycle(compile_branch_compile_line_compile_lines_else_lines)]
fn compile_lines(of: Source, from: Place, depth: usize, steps: &mut [u32]) -> Option<Place>
    requires within { from.at ≤ length of.text.bytes.now }
    requires entry { from.entry ≤ of.room }
    requires room { of.room ≤ length steps.old / 16 }
    ensures { MatchOption result ((ns : List (List ℕ)) (b : Body) (z : List ℕ) → Given ns of.entry.text.bytes.now from.at b z from.entry depth of.entry.room → ⊥) (λ q. LinesMade of.entry.text.bytes.now steps.old steps.new depth of.entry.room from q) }
{
    let mut p = from;
    loop {
        let Some(line) = scan_line(of.text, p.at) else {
            return Some(p);
        };
        if stops(line) {
            return Some(p);
        }
        if p.entry >= of.room {
            return None;
        }
        p = compile_line(of, p, line, depth, steps)?;
    }
}

// Behind the line that names own numbers, or that says how many cells there are, if one stands at p; else p.
fn skip_heading(text: Text, p: Place) -> Place
    requires { p.at ≤ length text.bytes.now }
    ensures { Skipped text.entry.bytes.now p result }
{
    let Some(Line::Heading) = scan_line(text, p.at) else {
        return p;
    };
    Place {
        at: next_line(text.bytes, p.at),
        line: p.line.saturating_add(1),
        ..p
    }
}

// A text that was taken is made into steps: how many entries there are. Each has 16 words, and there are no more of them than lines.
// 0 entries and no None where nothing is made: a text that was taken always is, and of another nothing is promised.
pub fn compile(text: &[u8], steps: &mut [u32]) -> usize
    ensures few { result ≤ length steps.old / 16 }
    ensures made { (ns : List (List ℕ)) (p : Program) → Taken ns p text.now → lines_in text.now * 16 ≤ length steps.old → Compiled ns p text.now steps.old steps.new result }
    ensures joining { (ns : List (List ℕ)) (p : Program) → Taken ns p text.now → lines_in text.now * 16 ≤ length steps.old → Joining steps.new result }
{
    if text.len() >= 0x8000_0000 {
        return 0;
    }
    let text = Text { bytes: text };
    let room = (steps.len() / ENTRY).min(1024);
    let top = Place {
        at: 0,
        line: 1,
        entry: 0,
    };
    let start = skip_heading(text, skip_heading(text, top));
    compile_lines(Source { text, room }, start, DEEPEST, steps).map_or(0, |end| end.entry)
}
