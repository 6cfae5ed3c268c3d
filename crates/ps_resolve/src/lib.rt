//! From data and the table of their names to the program of procedures that they are, or the place of their first fault.
//! By `resolve`, which serves `IsProgram` and `fault_of` of `ps_plain`.
#![tactic(auto)]

mod definition;
mod expr;
mod faults;
mod name_faults;
mod program;
mod scope;
mod shapes;
mod symbols;
mod words;

pub use program::resolve;
