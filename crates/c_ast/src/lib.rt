//! The C texts that the compiler writes: their trees, of which `CUnit` is the whole text, when a unit is well formed, and the
//! grammar of its bytes. No call computes anything here; `text_has_one_unit` is the grammar's law. It serves the definitions of
//! `specs/WellFormed.antt` and `specs/Text.antt`.
#![tactic(auto)]

mod laws;
mod prelude;
mod unit;

pub use laws::text_has_one_unit;
pub use prelude::PRELUDE;
pub use unit::{Atom, BinaryOperator, CFunction, CUnit, Statement};
