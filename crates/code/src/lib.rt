// A program as steps in lent words: decoded, written, and made from a text.
#![tactic(auto)]

pub mod compile;
pub mod jumps;
mod scan;
pub mod step;
mod text;
pub mod words;

ghost use Rattle.code.specs.Code.{CodeRight};

pub use jumps::settle;
pub use step::Step;
pub use words::{decode, text_line_of, write_entry};

// The theorem that code which stands for a body does at each entry what is left there.
pub fn code_right_stands()
    ensures { CodeRight }
{}

ghost use Rattle.code.specs.Joins.{JoinsRight};

// The theorem that what stands in an if or a while stays in it until its lanes join.
pub fn joins_right_stands()
    ensures { JoinsRight }
{}
