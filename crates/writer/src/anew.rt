// A text written anew, and what is promised of texts.
ghost use Rattle.std.specs.Prelude.{◌≡◌, ℕ, ◌<◌, ◌≤◌, List, length, take, IfSome, MatchOption, slice_index};
ghost use Rattle.lanes.specs.Syntax.{Program};
ghost use Rattle.grammar.specs.Taken.{Taken};
ghost use Rattle.writer.specs.Once.{OneProgram};
ghost use Rattle.writer.specs.Written.{written, EveryProgram, Anew};

use crate::copy::copy_all;

// The text written anew into the front of `out`: how many bytes that are. None: `out` is shorter than the text, and nothing was written.
// A text that is taken is written as its one program with the names that it has; that is taken as the same program, and no line grows.
// Every program in bounds is what some text is taken as.
pub fn rewrite(text: &[u8], out: &mut [u8]) -> Option<usize>
    ensures refused { MatchOption result ((length out.old < length text.now) × (out.new ≡ out.old)) (λ n. (n ≤ length text.now) × ((k : ℕ) → n ≤ k → slice_index out.new k ≡ slice_index out.old k)) }
    ensures written { IfSome result (λ n. (ns : List (List ℕ)) (p : Program) → Taken ns p text.now → take n out.new ≡ written ns p) }
    ensures once { OneProgram }
    ensures anew { Anew }
    ensures every { EveryProgram }
{
    if out.len() < text.len() {
        return None;
    }
    Some(copy_all(text, out))
}
