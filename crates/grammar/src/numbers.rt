// Numbers: the longest runs of digits.
ghost use Rattle.std.specs.Prelude.{◌≡◌, ◌+◌, ◌<◌, ◌≤◌, min, length, SomeIff, take, drop};
ghost use Rattle.grammar.specs.Spelling.{digit, decimal};
ghost use Rattle.grammar.specs.Runs.{run_of};

use crate::bytes::{is_digit, rest_from};

// A run of digits: where it ends, and its number, if it is below 2^32.
#[derive(Clone, Copy, PartialEq, Eq, Debug)]
pub struct Number {
    pub end: usize,
    pub value: Option<u32>,
}

// How many digits stand in front, and their number, or 2^32 if it is 2^32 or more. One loop: a chain that counts and one that folds an option
// take twice as long.
fn digits_in(text: &[u8]) -> (usize, u64)
    ensures within { result.0 ≤ length text.now }
    ensures count { result.0 ≡ run_of digit text.now }
    ensures value { result.1 ≡ min (decimal 0 (take (run_of digit text.now) text.now)) 4294967296 }
{
    let mut value: u64 = 0;
    for (n, b) in text.iter().enumerate() {
        if !is_digit(*b) {
            return (n, value);
        }
        value = (value * 10 + u64::from(*b - b'0')).min(1 << 32);
    }
    (text.len(), value)
}

// The longest run of digits from byte i on.
pub fn read_number(text: &[u8], i: usize) -> Number
    ensures end { result.end ≡ i + run_of digit (drop i text.now) }
    ensures value { SomeIff result.value (decimal 0 (take (run_of digit (drop i text.now)) (drop i text.now)) < 4294967296) (decimal 0 (take (run_of digit (drop i text.now)) (drop i text.now))) }
{
    let (digits, value) = digits_in(rest_from(text, i));
    Number {
        end: i + digits,
        value: u32::try_from(value).ok(),
    }
}
