// Copying a text byte by byte, without what is not written anew.
ghost use Rattle.std.specs.Prelude.{◌≡◌, ℕ, ◌+◌, ◌<◌, ◌≤◌, Bool, ◌∷◌, ◌++◌, length, take, if◌then◌else◌, nat_eq, slice_index, ◌==◌};
ghost use Rattle.std.specs.List.{prefix_len};
ghost use Rattle.writer.specs.Copy.{left_out, zero_led, copied, copy};

use grammar::bytes::{byte, is_digit, is_word};

// How many zeros stand in front.
fn zeros_in_front(text: &[u8]) -> usize
    ensures { result ≡ prefix_len (λ b. b == 48) text.now }
{
    text.iter().take_while(|b| **b == b'0').count()
}

// How many bytes are left out in front of what is left of a text, where a line begins.
fn left_out(text: &[u8]) -> usize
    ensures { result ≡ left_out text.now }
{
    if text.starts_with(b"else\nend\n") {
        return 5;
    }
    let Some(cells) = text.strip_prefix(b"cells ") else {
        return 0;
    };
    let zeros = zeros_in_front(cells);
    if zeros > 0 && byte(cells, zeros) == b'\n' {
        7 + zeros
    } else {
        0
    }
}

// How many bytes are left out behind the byte b: some only where a line begins.
fn left_behind(b: u8, behind: &[u8]) -> usize
    ensures { result ≡ (if nat_eq b 10 then left_out behind.now else 0) }
{
    if b == b'\n' { left_out(behind) } else { 0 }
}

// How far a copy has come: how many bytes are written, how many more are to be left out, and whether it is inside a word.
// How many are written is a number, as the bytes lie in a lent slice: nothing is allocated.
#[derive(Clone, Copy, PartialEq, Eq, Debug)]
pub struct Copying {
    pub len: usize,
    pub left: usize,
    pub inside: bool,
}

// A zero b that begins a word, with a digit behind it.
fn zero_leads(inside: bool, b: u8, behind: u8) -> bool
    ensures { result ≡ zero_led inside b behind }
{
    !inside && b == b'0' && is_digit(behind)
}

// The byte b is copied, or left out; behind it stands the rest of the text.
fn copy_byte(b: u8, behind: &[u8], out: &mut [u8], at: Copying) -> Copying
    requires { at.len < length out.old }
    ensures copied { take result.len out.new ++ copied result.left result.inside behind.now ≡ take at.len out.old ++ copied at.left at.inside (b ∷ behind.now) }
    ensures len { result.len ≤ at.len + 1 }
    ensures grows { at.len ≤ result.len }
    ensures same { (k : ℕ) → result.len ≤ k → slice_index out.new k ≡ slice_index out.old k }
{
    if at.left > 0 {
        return Copying {
            left: at.left - 1,
            ..at
        };
    }
    if zero_leads(at.inside, b, byte(behind, 0)) {
        return at;
    }
    out[at.len] = b;
    Copying {
        len: at.len + 1,
        left: left_behind(b, behind),
        inside: is_word(b),
    }
}

// The whole text, copied into a part of `out`: how many bytes that are.
pub fn copy_all(text: &[u8], out: &mut [u8]) -> usize
    requires { length text.now ≤ length out.old }
    ensures copied { take result out.new ≡ copy text.now }
    ensures len { result ≤ length text.now }
    ensures same { (k : ℕ) → result ≤ k → slice_index out.new k ≡ slice_index out.old k }
{
    let mut at = Copying {
        len: 0,
        left: left_out(text),
        inside: false,
    };
    // Down the text and not by a chain, as each byte is judged with all that stands behind it.
    let mut rest = text;
    while let Some((b, behind)) = rest.split_first() {
        at = copy_byte(*b, behind, out, at);
        rest = behind;
    }
    at.len
}
