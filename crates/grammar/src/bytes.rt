// Single bytes of a text.
ghost use Rattle.std.specs.Prelude.{◌≡◌, ◌+◌, ◌^◌, ◌<◌, Bool, length, drop, slice_index};
ghost use Rattle.grammar.specs.Spelling.{digit, letter, word_byte};

pub fn is_letter(b: u8) -> bool
    ensures { result ≡ letter b }
{
    matches!(b, b'a'..=b'z')
}

pub fn is_digit(b: u8) -> bool
    ensures { result ≡ digit b }
{
    matches!(b, b'0'..=b'9')
}

pub fn is_word(b: u8) -> bool
    ensures { result ≡ word_byte b }
{
    is_letter(b) || is_digit(b)
}

// The byte at i, or 0 behind the text. Kept a byte that may be 0 and no option: a 0 may stand nowhere in a text, so nobody has to tell the two apart.
pub fn byte(text: &[u8], i: usize) -> u8
    ensures is { result ≡ slice_index text.now i }
    ensures within { 0 < result → i < length text.now }
{
    text.get(i).copied().unwrap_or(0)
}

// The text from byte i on; nothing behind its end. By a slice: skip() would go over each byte before it.
#[tactic(auto, using(std::proofs::lemmas::List::drop_min))]
pub(crate) fn rest_from(text: &[u8], i: usize) -> &[u8]
    ensures rest { result.now ≡ drop i text.now }
    ensures within { i + length result.now < 2 ^ 64 }
{
    &text[i.min(text.len())..]
}
