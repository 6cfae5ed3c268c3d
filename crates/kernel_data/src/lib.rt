//! Kernels as Scheme data, for the programs that run cases of them. From the parts of a case to a kernel and what its program is
//! run in, by `built`; from the text of all cases to their lines, by `lines_of`. It is no part of the compiler.
//!
//! `building.rt` has the parts of a case, and `expressions.rt` the ways to write an expression.
#![tactic(auto)]

mod building;
mod cases;
mod copies;
mod data;
mod expressions;
mod texts;
mod trouble;
mod types;
mod words;

pub use building::{Building, built};
pub use cases::{Program, lines_of};
pub use data::{bytes_of, number_of, text_of};
pub use texts::data_of;
pub use trouble::Trouble;
pub use words::meaning_of;
