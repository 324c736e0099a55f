// What is told of a run.
ghost use Rattle.std.specs.Prelude.{◌≡◌};
ghost use Rattle.formats.specs.Meaning.{in_order};

// Where a touched cell lies: in the field, or among the cells that a group has in common.
#[derive(Clone, Copy, PartialEq, Eq, Debug)]
pub enum Place {
    Field,
    Cell,
}

// One touch of a cell: whose, in which phase of its group, and whether it wrote.
#[derive(Clone, Copy, PartialEq, Eq, Debug)]
pub struct Touch {
    pub group: usize,
    pub lane: usize,
    pub phase: u64,
    pub wrote: bool,
}

// The cells of a told field lie in lent memory.
#[derive(Clone, Copy, PartialEq, Eq, Debug)]
pub enum Told {
    Field,
    Race {
        place: Place,
        cell: usize,
        first: Touch,
        second: Touch,
    },
    Wrong {
        group: usize,
        lane: usize,
    },
    Stuck {
        group: usize,
    },
    TooLong,
}

// A race of two touches of one cell: that of the lower group, and in one group that of the lower lane, stands first.
// Touches of another type are put in order in machine: neither crate knows the other.
pub fn race_of(place: Place, cell: usize, a: Touch, b: Touch) -> Told
    ensures { result ≡ in_order place cell a b }
{
    let (first, second) = if (b.group, b.lane) < (a.group, a.lane) {
        (b, a)
    } else {
        (a, b)
    };
    Told::Race {
        place,
        cell,
        first,
        second,
    }
}
