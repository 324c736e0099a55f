// A program's text written anew.
#![tactic(auto)]

pub mod anew;
mod copy;
