//! Hygiene: from identifiers and forms to what they mean at a place, by `meaning` and `shape` of `Hygiene`, and from a macro use to
//! the form that it stands for, by `settle`, serving `meaning` and `meaning_in_rules` of `specs/Meanings.antt`, `shape` of `Forms.antt`,
//! `settled` of `Transcriptions.antt`, and `entered` of `Opening.antt`, by which a structure opens names.
#![tactic(auto)]

mod counts;
mod extents;
mod hygiene;
mod meaning;
mod opening;
mod settling;
mod shape;
mod uses;
mod words;

pub use hygiene::Hygiene;
pub use meaning::Meant;
pub use settling::held;
pub use shape::Shape;
pub use uses::{Around, Uses};
