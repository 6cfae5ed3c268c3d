//! What binds: lambdas, bodies with definitions, letrecs, named lets and `do`, assignments, and local macros. Each form, and each part of
//! one that is made apart, has a function that makes its plan, serving the definition of its name in `specs/Binders.antt`.
#![tactic(auto)]

mod bodies;
mod lambda;
mod letrec;
mod local_macros;
mod loops;
mod operands;
mod scoped;
mod set;

pub use bodies::{bare, expressions_row, headed};
pub use lambda::{inside, lambdas};
pub use letrec::{letrecs, values_row};
pub use local_macros::{let_macros, letrec_macros};
pub use loops::{again_row, commands_row, dos, named_lets, round_row};
pub use set::sets;
