// The operators, on numbers.
ghost use Rattle.std.specs.Prelude.{◌≡◌};
ghost use Rattle.lanes.specs.Step.{sum_of, difference_of, product_of, quotient_of, remainder_of, less_of, same_of};
ghost use Rattle.values.specs.Ops.{op_of, OpAt};

#[derive(Clone, Copy, Debug, PartialEq, Eq)]
pub enum Op {
    Plus,
    Minus,
    Times,
    Over,
    Rest,
    Less,
    Same,
}

pub fn sum(a: u32, b: u32) -> u32
    ensures { result ≡ sum_of a b }
{
    ((a as u64 + b as u64) % 0x1_0000_0000) as u32
}

pub fn difference(a: u32, b: u32) -> u32
    ensures { result ≡ difference_of a b }
{
    ((a as u64 + (0x1_0000_0000 - b as u64)) % 0x1_0000_0000) as u32
}

pub fn product(a: u32, b: u32) -> u32
    ensures { result ≡ product_of a b }
{
    ((a as u64 * b as u64) % 0x1_0000_0000) as u32
}

pub fn quotient(a: u32, b: u32) -> u32
    ensures { result ≡ quotient_of a b }
{
    if b == 0 { 0 } else { a / b }
}

pub fn remainder(a: u32, b: u32) -> u32
    ensures { result ≡ remainder_of a b }
{
    if b == 0 { 0 } else { a % b }
}

pub fn less(a: u32, b: u32) -> u32
    ensures { result ≡ less_of a b }
{
    u32::from(a < b)
}

pub fn same(a: u32, b: u32) -> u32
    ensures { result ≡ same_of a b }
{
    u32::from(a == b)
}

// A match: a function can't be handed out of a table.
pub fn apply(op: Op, a: u32, b: u32) -> u32
    ensures { result ≡ op_of op a b }
{
    match op {
        Op::Plus => sum(a, b),
        Op::Minus => difference(a, b),
        Op::Times => product(a, b),
        Op::Over => quotient(a, b),
        Op::Rest => remainder(a, b),
        Op::Less => less(a, b),
        Op::Same => same(a, b),
    }
}

// The operator that a byte is, if it is one. No TryFrom: of a byte that is no operator there is nothing to tell.
pub fn op_from(b: u8) -> Option<Op>
    ensures { OpAt b result }
{
    match b {
        b'+' => Some(Op::Plus),
        b'-' => Some(Op::Minus),
        b'*' => Some(Op::Times),
        b'/' => Some(Op::Over),
        b'%' => Some(Op::Rest),
        b'<' => Some(Op::Less),
        b'=' => Some(Op::Same),
        _ => None,
    }
}
