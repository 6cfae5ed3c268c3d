//! Environments: from identifiers to what they stand for, by `Scopes` for names with a scope and `Defined` for the
//! definitions of structures, each the list of `Environments.antt`, in which the newest counts. Looking up takes no memory,
//! cannot fail, and goes along one bucket of a table.
#![tactic(auto)]

mod counts;
mod defined;
mod scopes;
mod table;
#[cfg(test)]
mod tests;

pub use defined::Defined;
pub use scopes::Scopes;
