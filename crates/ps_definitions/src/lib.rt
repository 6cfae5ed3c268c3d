//! From the forms of a structure to what they define, by `first_pass`, and then its exports are looked for, by `exports`, serving `first_pass`
//! and `exports` of `specs/Definitions.antt`.
#![tactic(auto)]

mod defining;
mod exported;
mod first;
mod records;

pub use exported::exports;
pub use first::{Noted, first_pass};
