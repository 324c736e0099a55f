// The machine: its schedulers name turns, the executor does them, touches are looked at, and what is told is right.
// What does a turn is hinted to be one piece with the run (`#[inline(always)]`): a mask of one lane is then known where it is used.
#![tactic(auto)]

pub mod choose;
pub mod exec;
pub mod inturn;
pub mod line;
pub mod look;
pub mod note;
pub mod outcome;
pub mod release;
pub mod replay;
pub mod row;
pub mod run;
pub mod schedule;
pub mod script;
pub mod source;
pub mod verdict;
pub mod view;
