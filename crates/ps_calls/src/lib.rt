//! Calls, what is applied, and lets, as plans: from the parts of such a form to a `Plan`, serving the definitions of `specs/Calls.antt` and
//! `specs/Applied.antt`, each row by one equation. `calls` and `replaces` make calls, `performed` makes primitives with operands,
//! `applied_form` decides which of them an operator makes, and `let_forms` and `let_stars` make lets, whose later bindings are those of
//! `lets_row` and `stars_row`.
#![tactic(auto)]

mod applied;
mod call;
mod lets;
mod primitive;

pub use applied::applied_form;
pub use call::{calls, replaces};
pub use lets::{let_forms, let_stars, lets_row, stars_row};
pub use primitive::performed;
