//! What lambdas keep. From a kernel to the same one whose lambdas list what their procedures keep, by `capture`, serving `IsFilled` of
//! `specs/Filled.antt`; and from lambdas and a form to the place of its first assignment of a local that a `letrec` binds or a lambda
//! keeps, by `first_fixed_set`, serving `fixed_set` of `specs/FixedSets.antt`.
#![tactic(auto)]

mod chase;
mod filling;
mod fixed;
mod free;
mod keeping;
mod locals;
mod members;
mod named;
mod places;
mod reading;
mod seen;
mod tests;

pub use filling::capture;
pub use fixed::first_fixed_set;
