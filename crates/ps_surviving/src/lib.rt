//! What the survivors of a program do, as definitions and laws of them. No call computes.
//! From survivors to the run that begins with them alone: `Surviving` in `specs/Begun.antt`.
//! That this is the run of the program is the law `survivors_run_alike`, by `specs/Laws.antt`.
#![tactic(auto)]

mod laws;

pub use laws::{forms_leave_programs, survivors_run_alike};
