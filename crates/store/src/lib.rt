// The grid of lanes and cells in lent slices. The definitions in specs/ say which grid the slices stand for.
// Sizes, slices, group and lane are passed apart, and clauses say what holds between them: in a struct of lent slices none can be read
// while another is written, unless it is taken out first, and a struct of a lane's place would be built at each turn of a loop, only for
// `place` to take it apart.
#![tactic(auto)]

mod acts;
mod fresh;
mod groups;
mod rows;
mod tally;
mod words;

ghost use Rattle.store.specs.Ended.{EndedFree};

pub use acts::{owner, perform};
pub use fresh::{room_of, start};
pub use groups::{go_on, phase_of, put_word, word_of};
pub use rows::{branch_row, copy_cells, fill_row, put_row};
use std::marker::Model;
pub use tally::{ended_of, put_counts, waiting_of};
pub use words::{
    go_wrong, is_wrong, line_of, own_base, own_of, place, put_own, spot, spot_row, stand,
};

// How many groups, lanes in a group, own numbers of a lane, cells of a group, cells of the field. All of them are in bounds.
#[derive(Clone, Copy)]
pub struct Sizes {
    pub groups: usize,
    pub lanes: usize,
    pub owns: usize,
    pub shared: usize,
    pub field: usize,
}

// A clause sees the five numbers alone: definitions and theorems speak of sizes out of bounds too.
impl Model for Sizes {
    ghost use Rattle.store.specs.Numbers.{Numbers};

    ghost Value = { Numbers };

    ghost use Rattle.store.specs.Layout.{Sized};

    ghost view = { λ s. record { groups = s.groups; lanes = s.lanes; owns = s.owns; shared = s.shared; field = s.field } };

    ghost invariant = { λ s. Sized (record { groups = s.groups; lanes = s.lanes; owns = s.owns; shared = s.shared; field = s.field }) };

    ghost inverse = { λ v. record { groups = v.groups; lanes = v.lanes; owns = v.owns; shared = v.shared; field = v.field } };
}

// What a lane has to do next, without its expressions: which own number is set, whether the cell is the field's (as in a step), and the line behind.
#[derive(Clone, Copy)]
pub enum Todo {
    Put { own: u32, next: u32 },
    Read { field: bool, own: u32, next: u32 },
    Write { field: bool, next: u32 },
    Branch { yes: u32, no: u32 },
}

// Where a cell lies: in the field, or in a group.
#[derive(Clone, Copy)]
pub enum Whereabouts {
    Field,
    Group(usize),
}

// A touch; the index is the cell's in the slice of cells.
#[derive(Clone, Copy)]
pub struct Seen {
    pub place: Whereabouts,
    pub cell: u32,
    pub wrote: bool,
    pub index: usize,
}

// What a lane did: it touched nothing, or a cell, or went wrong as the cell isn't there.
// Kept an enum of its own: a lane that went wrong has been written so, and a Result with an Option in it would say the three less plainly.
#[derive(Clone, Copy)]
pub enum Deed {
    Quiet,
    Touched(Seen),
    Wrong,
}

// With anything in the lent memory of lanes that have ended, everything does the same.
pub fn ended_free_stands()
    ensures { EndedFree }
{}
