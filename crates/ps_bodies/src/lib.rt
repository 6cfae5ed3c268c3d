//! What stands beside the recursion of forms: the heads of bodies and the values of letrecs, by `heads`, `decided_forms` and
//! `decided_definitions`, serving `specs/Bodies.antt`; and `case`, by `kind_of`, `tests_counted`, `as_node` and `as_ifs`, serving
//! `specs/Branches.antt`.
#![tactic(auto)]

mod bodies;
mod branches;
mod codes;
mod counted;
mod kinds;
mod values;

pub use bodies::{decided_definitions, decided_forms, heads};
pub use branches::{Branch, as_ifs, as_node, if_of};
pub use counted::tests_counted;
pub use kinds::kind_of;
pub use values::{Heads, Member, Value};
