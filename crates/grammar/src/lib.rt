// Words of the language and lines of a text. A text and the byte at which one reads are kept two parameters: what is promised speaks of each,
// the text stays and the byte goes on, so a struct of both would be made anew at each step.
#![tactic(auto)]

pub mod bytes;
pub mod exprs;
pub mod keywords;
pub mod lines;
pub mod names;
pub mod numbers;
pub mod refusals;
pub mod tokens;
pub mod words;
