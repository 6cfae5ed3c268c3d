//! What `main` reaches, copied out of the values and the memory that the top-level forms of a source left behind.
//! From a kernel, the values of its definitions and a store to survivors, or to the first fault of the walk from `main`, by
//! `reify`, which is exactly `Answers` of `specs/Answers.antt`: the walk and the survivors of `ps_survive`.
#![tactic(auto)]

mod find;
mod image;
mod keep;
mod literals;
mod marks;
mod reifying;

pub use reifying::reify;
