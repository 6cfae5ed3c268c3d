//! Conditionals: `begin`, `if`, `and`, `or`, `cond` and `case`, and the pieces of them that have rows of their own, such as the other
//! operands of `and`. Each row makes a plan from the parts of a form, and does what the row of its name in `specs/Conditions.antt` does.
#![tactic(auto)]

mod case_clauses;
mod cond_clauses;
mod conditions;
mod sequences;

pub use case_clauses::{branch_row, cases};
pub use cond_clauses::{arrow_row, conds, conds_row};
pub use conditions::{ands, ands_row, ifs, ors, ors_row};
pub use sequences::{begins, fixed, sequence};
