// Words and operators of an expression as numbers of 32 bits: what it is in the low four bits, a number or an own number's place above.
ghost use Rattle.std.specs.Prelude.{◌≡◌, ◌+◌, ◌*◌, ◌<◌, ◌≤◌, MatchOption};
ghost use Rattle.values.specs.Items.{item_of, Large};

use crate::leaves::Leaf;
use crate::ops::Op;

#[derive(Clone, Copy, Debug, PartialEq, Eq)]
pub enum Item {
    Word(Leaf),
    Apply(Op),
}

// What a number stands for, if it stands for something.
pub fn unpack(w: u32) -> Option<Item>
    ensures { result ≡ item_of w }
{
    let a = w / 16;
    match w % 16 {
        1 => Some(Item::Word(Leaf::Fixed(a))),
        2 => Some(Item::Word(Leaf::Own(a))),
        3 => Some(Item::Word(Leaf::Lane)),
        4 => Some(Item::Word(Leaf::Group)),
        5 => Some(Item::Word(Leaf::Lanes)),
        6 => Some(Item::Apply(Op::Plus)),
        7 => Some(Item::Apply(Op::Minus)),
        8 => Some(Item::Apply(Op::Times)),
        9 => Some(Item::Apply(Op::Over)),
        10 => Some(Item::Apply(Op::Rest)),
        11 => Some(Item::Apply(Op::Less)),
        12 => Some(Item::Apply(Op::Same)),
        _ => None,
    }
}

// A number with its kind below it, unless it is too large for 28 bits.
fn above(kind: u32, a: u32) -> Option<u32>
    requires { kind < 16 }
    ensures { MatchOption result (268435456 ≤ a) (λ w. w ≡ a * 16 + kind) }
{
    Some(a.checked_mul(16)? + kind)
}

// The number of a leaf, unless a number in it is too large for 28 bits.
pub fn pack_leaf(leaf: Leaf) -> Option<u32>
    ensures { MatchOption result (Large leaf) (λ w. item_of w ≡ Some (Item.Word leaf)) }
{
    match leaf {
        Leaf::Fixed(a) => above(1, a),
        Leaf::Own(k) => above(2, k),
        Leaf::Lane => Some(3),
        Leaf::Group => Some(4),
        Leaf::Lanes => Some(5),
    }
}

pub fn pack_op(op: Op) -> u32
    ensures { item_of result ≡ Some (Item.Apply op) }
{
    match op {
        Op::Plus => 6,
        Op::Minus => 7,
        Op::Times => 8,
        Op::Over => 9,
        Op::Rest => 10,
        Op::Less => 11,
        Op::Same => 12,
    }
}
