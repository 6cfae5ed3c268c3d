//! Data: what a text is before anything is known of its words.
//!
//! From a datum and the table of its names to its text, by `write_datum`, for `written` of `specs/Writing.antt`.
#![tactic(auto)]

mod datum;
mod writing;

pub use datum::{Datum, DatumKind};
pub use writing::{has_known_names, write_datum};
