// What expressions are worth: arithmetic modulo 2^32, and an expression of the text for all lanes of a row at once.
#![tactic(auto)]

pub mod eval;
pub mod items;
pub mod leaves;
pub mod ops;
pub mod packed;
pub mod ready;
pub mod row;
pub mod rows;
