//! The cells of the frames of an evaluation: slots of locals, and what waits between them, in one vector.
//! From a stack and a local's number to the local's value, by `Stack::found`, and to the stack where it has another, by
//! `Stack::put`; both serve `found` and `put_in` of `ps_runs`, read by `scope` of `specs/Scope.antt`, and take constant time.
#![tactic(auto)]

mod cell;
mod stack;
mod tops;

pub use cell::Cell;
pub use stack::Stack;
