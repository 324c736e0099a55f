// The operators on rows: x becomes x op y, number by number.
ghost use Rattle.values.specs.Ops.{Applied, AppliedBy};

use crate::ops::{Op, difference, less, product, quotient, remainder, same, sum};

// x becomes f of x and y, number by number, as far as both go.
fn each<F: Fn(u32, u32) -> u32>(x: &mut [u32], y: &[u32], f: F)
    requires { F.IsAlwaysCallable f }
    ensures { AppliedBy (F.post f) x.old y.now x.new }
{
    // By an index: of what is written through iter_mut() behind a zip nothing is known afterwards.
    for i in 0..x.len().min(y.len()) {
        x[i] = f(x[i], y[i]);
    }
}

// A call for each operator, which is compiled by itself and takes several numbers at a time: with this match inside the loop it takes one.
pub fn apply_row(op: Op, x: &mut [u32], y: &[u32])
    ensures { Applied op x.old y.now x.new }
{
    match op {
        Op::Plus => each(x, y, sum),
        Op::Minus => each(x, y, difference),
        Op::Times => each(x, y, product),
        Op::Over => each(x, y, quotient),
        Op::Rest => each(x, y, remainder),
        Op::Less => each(x, y, less),
        Op::Same => each(x, y, same),
    }
}
