//! What a form comes to before its parts are expanded: a `Plan`, made of `Staged` parts, each of which knows its level and its scope. The
//! meaning of both is told in `specs/Parts.antt` and `specs/Nodes.antt`; the rows of the special forms make plans.
#![tactic(auto)]

mod node;
mod part;
mod stage;

pub use node::{Choice, Inside, Node, Plan, Scope, Staged};
pub use part::{Lets, Operand, Part, Piece, Round};
pub use stage::{
    givens, in_row, part_of, staged, staged_all, staged_forms, staged_row, staged_sum,
};
