//! Unification: from two types and bindings of variables to the most general bindings that extend them and make the types
//! equal, by `unify_within` and `unify`, for `Unifies` of `specs/Unification.antt`; and from a type to what it means under
//! bindings, by `Subst::apply`.
#![tactic(auto)]

mod applying;
mod copying;
mod equalizing;
mod faults;
mod laws;
mod parts;
mod searching;
mod sizes;
mod subst;
mod unifying;

pub use copying::copied;
pub use faults::{UnifyFault, WithinFault};
pub use laws::{extensions_are_instances, others_may_be_any};
pub use sizes::room_after;
pub use subst::Subst;
pub use unifying::{unify, unify_within};
