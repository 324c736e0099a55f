// What stops a row of turns.
use store::Whereabouts;
use touches::Found;

// Two touches of one cell that race, the lower group's, then the lower lane's, first.
#[derive(Clone, Copy)]
pub struct Race {
    pub place: Whereabouts,
    pub cell: u32,
    pub first: Found,
    pub second: Found,
}

// The turn shows a race, or its lane went wrong. The line of the text at which it went wrong explains it.
#[derive(Clone, Copy)]
pub enum Stopped {
    Raced(Race),
    Wrong {
        group: usize,
        lane: usize,
        line: u32,
    },
}
