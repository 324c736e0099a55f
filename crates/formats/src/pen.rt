// A pen: it writes bytes, texts and numbers into a lent slice, one behind the other.
ghost use Rattle.std.specs.Prelude.{◌≡◌, ◌+◌, ◌<◌, ◌≤◌, [], ◌∷◌, ◌++◌, length, decimal};
ghost use Rattle.formats.specs.Wrote.{Writes};
ghost use Rattle.formats.specs.Hex.{hex_digit, hex_eight};

// The lent slice, and the place that the next byte goes to.
// No heap, and each byte is promised: std's `write!` says what it wrote only where it succeeds, and not that it does.
#[derive(Drop)]
pub struct Pen<'a> {
    pub out: &'a mut [u8],
    pub at: usize,
}

fn digit(d: u8) -> u8
    requires { d < 16 }
    ensures { result ≡ hex_digit d }
{
    if d < 10 { 48 + d } else { 87 + d }
}

impl Pen<'_> {
    pub fn put(&mut self, byte: u8)
        requires { self.old.at < length self.old.out.now }
        ensures { Writes self.old self.new (byte ∷ []) }
    {
        self.out[self.at] = byte;
        self.at += 1;
    }

    pub fn put_all(&mut self, text: &[u8])
        requires { self.old.at + length text.now ≤ length self.old.out.now }
        ensures { Writes self.old self.new text.now }
    {
        let end = self.at + text.len();
        self.out[self.at..end].copy_from_slice(text);
        self.at = end;
    }

    // A number of 64 bits has 20 digits at most.
    pub fn put_decimal(&mut self, n: u64)
        requires { self.old.at + 20 ≤ length self.old.out.now }
        ensures wrote { Writes self.old self.new (decimal n) }
        ensures few { self.new.at ≤ self.old.at + 20 }
    {
        if n < 10 {
            self.put(48 + n as u8);
        } else {
            self.put_decimal(n / 10);
            self.put(48 + (n % 10) as u8);
        }
    }

    // A text, then a number.
    pub fn put_number(&mut self, text: &[u8], n: u64)
        requires { self.old.at + length text.now + 20 ≤ length self.old.out.now }
        ensures wrote { Writes self.old self.new (text.now ++ decimal n) }
        ensures few { self.new.at ≤ self.old.at + length text.now + 20 }
    {
        self.put_all(text);
        self.put_decimal(n);
    }

    // Eight digits in hexadecimal.
    pub fn put_hex(&mut self, n: u32)
        requires { self.old.at + 8 ≤ length self.old.out.now }
        ensures wrote { Writes self.old self.new (hex_eight n) }
        ensures size { self.new.at ≡ self.old.at + 8 }
    {
        for byte in n.to_be_bytes() {
            self.put(digit(byte / 16));
            self.put(digit(byte % 16));
        }
    }
}
