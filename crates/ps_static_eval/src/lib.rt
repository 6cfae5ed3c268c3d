//! From a kernel to what its top-level forms come to at compile time: the values of its definitions, and a store.
//! By `evaluate`, which serves `Top` of `ps_meaning`.
//!
//! It is a machine whose frames are runs of cells in one vector (`ps_slots`), so that nesting takes memory and no stack of the
//! host. Procedures are entered by number; the numbers of a text are looked up in tables (`ps_static_tables`) that are made once.
#![tactic(auto)]

mod evaluating;
mod forms;
mod jobs;
mod known;
mod literals;
mod machine;
mod run;
mod turns;

pub use evaluating::{Globals, evaluate};
