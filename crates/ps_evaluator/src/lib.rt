//! From a kernel, the values of its definitions and a world to what the kernel's program does there.
//! By `evaluate`, which serves `Source` of `ps_meaning`, so that cases can show that it means what is meant. It is no part of
//! the compiler.
//!
//! It is a machine with a stack of frames. Procedures are values, and the values of locals are in its state: what binds locals
//! leaves a frame that drops them, and a call that nests one that puts the caller's back.
#![tactic(auto)]

mod acts;
mod closures;
mod deeds;
mod evaluating;
mod kinds;
mod literals;
mod machine;
mod programs;
mod run;
mod texts;
mod turns;
mod values;

pub use evaluating::{Ended, Evaluated, Finish, evaluate};
