//! The words of runs, as definitions: parts of runs one behind another, locals, calls, definitions, cells and primitives
//! (specs/Runs.antt, specs/Locals.antt, specs/Effects.antt, specs/Ends.antt). The meaning of the kernel is said in them, and so
//! is that of programs without procedures as values. No call computes. Which relations of runs the words keep stands in
//! `proofs/`, for the laws of those meanings.
#![tactic(auto)]

mod laws;

pub use laws::{cells_come_first, ends_are_unseen};
