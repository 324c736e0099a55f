// Steps in lent words, 16 words for each.
ghost use Rattle.std.specs.Prelude.{◌≡◌, ℕ, ◌+◌, ◌*◌, ◌/◌, ◌<◌, ◌≤◌, Bool, length, MatchOption, slice_index};
ghost use Rattle.code.specs.Words.{step_of, step_at, text_line_spec, EntryAt, Wrote};

use super::step::Step;

// The words of one entry.
pub const ENTRY: usize = 16;

// The words of entry i, if the words hold it.
fn entry_of(steps: &[u32], i: usize) -> Option<&[u32; ENTRY]>
    ensures { MatchOption result (length steps.now / 16 ≤ i) (λ e. (i < length steps.now / 16) × EntryAt steps.now i e.now) }
{
    let (entries, _) = steps.as_chunks::<ENTRY>();
    entries.get(i)
}

// The step at entry i of the first `lines`; behind them, and where the words end, is the end. Steps are told apart by the
// first word, as they lie in lent words.
// The words, and how many of their entries count, are two parameters: lent words hold more entries than a program has, and clauses speak of each.
#[tactic(auto, using(std::proofs::lemmas::Bool::Decides::nat_tests), unfolding(crate::specs::Words::step_at))]
pub fn decode(steps: &[u32], lines: usize, i: usize) -> Step
    ensures { result ≡ step_at steps.now lines i }
{
    if i >= lines {
        return Step::End;
    }
    let Some(entry) = entry_of(steps, i) else {
        return Step::End;
    };
    match *entry {
        [1, own, expr, next, ..] => Step::Put { own, expr, next },
        [kind @ (2 | 3), own, expr, next, ..] => Step::Read {
            field: kind == 3,
            own,
            expr,
            next,
        },
        [kind @ (4 | 5), place, value, next, ..] => Step::Write {
            field: kind == 5,
            place,
            value,
            next,
        },
        [kind @ (6 | 7), expr, yes, no, join, ..] => Step::Branch {
            expr,
            yes,
            no,
            join,
            looped: kind == 7,
        },
        [8, to, ..] => Step::Jump { to },
        [9, next, ..] => Step::Barrier { next },
        _ => Step::End,
    }
}

// The line of the text, from 1, that entry i comes from; 0 where there is no entry.
// A 0 and no None: lines count from 1, and the number is kept in a word.
#[tactic(auto, unfolding(crate::specs::Words::text_line_spec))]
pub fn text_line_of(steps: &[u32], i: usize) -> u32
    ensures { result ≡ text_line_spec steps.now i }
{
    entry_of(steps, i).map_or(0, |entry| entry[15])
}

// The five words that a step is.
fn words_of(step: Step) -> [u32; 5]
    ensures { step_of (slice_index result 0) (slice_index result 1) (slice_index result 2) (slice_index result 3) (slice_index result 4) ≡ step }
{
    match step {
        Step::Put { own, expr, next } => [1, own, expr, next, 0],
        Step::Read {
            field,
            own,
            expr,
            next,
        } => [if field { 3 } else { 2 }, own, expr, next, 0],
        Step::Write {
            field,
            place,
            value,
            next,
        } => [if field { 5 } else { 4 }, place, value, next, 0],
        Step::Branch {
            expr,
            yes,
            no,
            join,
            looped,
        } => [if looped { 7 } else { 6 }, expr, yes, no, join],
        Step::Jump { to } => [8, to, 0, 0, 0],
        Step::Barrier { next } => [9, next, 0, 0, 0],
        Step::End => [0, 0, 0, 0, 0],
    }
}

// Writes entry i, with the line of the text that it comes from; nothing if the words don't hold that entry.
pub fn write_entry(steps: &mut [u32], i: usize, step: Step, text_line: u32)
    ensures there { i < length steps.old / 16 → Wrote steps.old steps.new i step text_line }
    ensures missing { length steps.old / 16 ≤ i → steps.new ≡ steps.old }
{
    if i >= steps.len() / ENTRY {
        return;
    }
    let at = i * ENTRY;
    steps[at..at + 5].copy_from_slice(&words_of(step));
    steps[at + 15] = text_line;
}
