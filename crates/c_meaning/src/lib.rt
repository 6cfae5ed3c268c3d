//! From a unit of the C subset and a world to what its text does there, one statement at a time, by `CState::start` and `step`.
//! It serves the definition of the machine, `specs/Machine.antt`, and its law on the bound; `specs/Steps.antt` says what a step
//! by code is.
#![tactic(auto)]

mod laws;
mod machine;
mod perform;
mod stack;
mod values;

pub use laws::larger_bound_keeps;
pub use machine::{CState, StepOut, step};
