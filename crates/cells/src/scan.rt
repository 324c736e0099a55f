// A text of numbers, byte by byte.
ghost use Rattle.std.specs.Prelude.{◌≡◌, ◌<◌, ◌≤◌, IfSome};
ghost use Rattle.cells.specs.declared.scan.Unread.TheVariants.{NoMemory};
ghost use Rattle.cells.specs.Scan.{is_white, digit_of, base_of, step_as};

use std::alloc::AllocFailed;

// What the numbers are written in.
#[derive(Clone, Copy, PartialEq, Eq, Debug)]
pub enum Base {
    Decimal,
    Hex,
}

// Where a scan stands: the number so far, and how many digits it has; no digits between words.
#[derive(Clone, Copy, PartialEq, Eq, Debug)]
pub struct Part {
    pub value: u64,
    pub digits: usize,
}

// What one more byte makes of it: it goes on, or a cell is whole.
#[derive(Clone, Copy, PartialEq, Eq, Debug)]
pub enum Next {
    On(Part),
    Whole(u32),
}

// Why no cells are read: the first byte that can't stand there, or no memory for them.
#[derive(Clone, Copy, PartialEq, Eq, Debug)]
pub enum Unread {
    Bad(usize),
    NoMemory,
}

impl<T: Drop> From<AllocFailed<T>> for Unread {
    ghost from_gives = { λ _ e. e ≡ NoMemory };

    fn from(_: AllocFailed<T>) -> Unread {
        Unread::NoMemory
    }
}

fn white(byte: u8) -> bool
    ensures { result ≡ is_white byte }
{
    matches!(byte, b' ' | b'\n' | b'\r' | b'\t')
}

impl Base {
    fn size(self) -> u64
        ensures value { result ≡ base_of self }
        ensures bound { result ≤ 16 }
    {
        match self {
            Base::Decimal => 10,
            Base::Hex => 16,
        }
    }

    fn digit(self, byte: u8) -> Option<u64>
        ensures value { result ≡ digit_of self byte }
        ensures bound { IfSome result (λ d. d < 16) }
    {
        match byte {
            b'0'..=b'9' => Some(u64::from(byte - b'0')),
            b'a'..=b'f' if self == Base::Hex => Some(u64::from(byte - b'a') + 10),
            _ => None,
        }
    }
}

// None: the byte can't stand there.
pub fn step(base: Base, part: Part, byte: u8) -> Option<Next>
    requires { (part.value < 4294967296) × (part.digits < 9223372036854775808) }
    ensures { result ≡ step_as base part byte }
{
    if white(byte) {
        if part.digits == 0 {
            return Some(Next::On(part));
        }
        if base == Base::Hex && part.digits != 8 {
            return None;
        }
        return Some(Next::Whole(part.value as u32));
    }
    let value = part.value * base.size() + base.digit(byte)?;
    if value >= 1 << 32 {
        return None;
    }
    Some(Next::On(Part {
        value,
        digits: part.digits + 1,
    }))
}
