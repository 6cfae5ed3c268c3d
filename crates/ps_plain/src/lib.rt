//! The tree of programs of procedures of integers, `Program`: which data are one, and what one does. No call computes.
//! Data and a program: `specs/Forms.antt` and `Faults.antt`; by the laws `data_have_one_program` and `faults_tell_programs`.
//! A program and its runs: `specs/Meaning.antt`; by the laws `larger_bound_keeps` and `program_is_sound`.
#![tactic(auto)]

mod laws;
mod program;

pub use laws::{
    calls_enter_procedures, data_have_one_program, faults_tell_programs, larger_bound_keeps,
    program_is_sound, program_is_valid,
};
pub use program::{Comparison, Expr, Keyword, Operator, Procedure, Program, Write};
