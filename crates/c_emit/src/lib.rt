//! From programs of procedures to units of the C subset, by `build`, and from units to bytes of C, by `emit`. It serves what it
//! means that two runs agree, of `byte_store`'s `specs/Agree.antt`, and the grammar of C texts, `c_ast`'s `specs/Text.antt`; the
//! statements that compute a program are those of `specs/InsideCode.antt`.
#![tactic(auto)]

mod text;
mod unit;

pub use text::emit;
pub use unit::build;
