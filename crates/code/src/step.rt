// What one line does. `expr`, `place` and `value` are bytes of the text where an expression stands; `next`, `yes`, `no`, `join` and
// `to` are entries. An if and a while are a branch; at an else and at an end a lane only goes to another entry.
// `field` and `looped` are truth values: each is named where a step is made or matched, so `looped: true` says as much as a variant would.
#[derive(Clone, Copy, PartialEq, Eq, Debug)]
pub enum Step {
    Put {
        own: u32,
        expr: u32,
        next: u32,
    },
    Read {
        field: bool,
        own: u32,
        expr: u32,
        next: u32,
    },
    Write {
        field: bool,
        place: u32,
        value: u32,
        next: u32,
    },
    Branch {
        expr: u32,
        yes: u32,
        no: u32,
        join: u32,
        looped: bool,
    },
    Jump {
        to: u32,
    },
    Barrier {
        next: u32,
    },
    End,
}
