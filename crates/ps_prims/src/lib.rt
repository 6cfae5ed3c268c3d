//! The primitives of the language. From a primitive, its operands, the memory and the world to its answer, what it leaves and
//! what is seen of it from outside, by `perform` (specs/Rows.antt, specs/Performing.antt).
//! From a primitive to its row of the table, by `arity_of`, `stages_of`, `operand_at`, `answer_of` and `scheme_of`
//! (specs/Rows.antt, specs/Schemes.antt), and to the cells that it asks for, by `cells_asked` (specs/Cells.antt). The rows of
//! records are those of the kinds that are given (specs/Records.antt, specs/Kinds.antt).
#![tactic(auto)]

mod cells;
mod changes;
mod copies;
mod glances;
mod groups;
mod kinds;
mod laws;
mod looks;
mod makes;
mod numbers;
mod operands;
mod outcome;
mod performing;
mod plain;
mod records;
mod schemes;
mod sorts;
mod stages;
mod table;
mod telling;

pub use cells::cells_asked;
pub use kinds::is_there;
pub use laws::{
    bits_are_combined, bits_are_moved, cells_are_counted, divisions_are_rounded,
    integers_have_their_bits, rows_are_natural, shifts_round_down,
};
pub use outcome::PrimOut;
pub use performing::perform;
pub use schemes::scheme_of;
pub use sorts::{Sort, answer_of};
pub use stages::{Stage, Stages};
pub use table::{arity_of, operand_at, stages_of};
