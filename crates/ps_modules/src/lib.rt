//! Linking: from the data of a text to its structures in the order in which they are evaluated, with files from a search path, by
//! `link`, serving `linked` of `specs/Walking.antt`, the walk, and `Links` of `specs/Linking.antt`, what is answered of it. Which data
//! are structures is said in `specs/Shapes.antt` and `Texts.antt`, which opened names differ in `specs/Openings.antt`.
#![tactic(auto)]

mod built_in;
mod copies;
mod files;
mod forms;
mod laws;
mod linking;
mod openings;
mod shapes;
mod stack;
mod tables;
mod text;
mod types;
mod walking;

pub use laws::{structures_stand_in_order, walk_has_one_end};
pub use linking::link;
pub use types::{Export, Exports, Linked, Opened, Opens, Structure, Structures};
