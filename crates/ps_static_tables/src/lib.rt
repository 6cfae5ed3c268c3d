//! What the text of a kernel says of its numbers, for its evaluation at compile time.
//! From a kernel to tables in which each number is looked up in constant time, by `tables_of`, which serves `letrec_lambda` and
//! `procedure_of` of the crates below (`specs/Tables.antt`).
#![tactic(auto)]

mod tables;
mod texts;

pub use tables::{Table, Tables, lambda_at, tables_of};
