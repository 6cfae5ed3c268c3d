//! Types: from a type, the kinds of records and the table of their names to its text, by `write_type`, for `type_text` of
//! `specs/Writing.antt`.
#![tactic(auto)]

mod firsts;
mod laws;
mod numbering;
mod types;
mod writing;

pub use laws::{instances_are_no_smaller, substitutions_compose};
pub use types::{Kinds, RecordKind, Scheme, Ty, Tys};
pub use writing::{has_known_records, write_type};
