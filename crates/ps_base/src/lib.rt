//! What every crate of the compiler stands on: from texts to their numbers and back, by `Names`, and from pieces of a text to
//! what a sink has taken, by `put` and `write_all`.
//!
//! Beside these: lists that contracts see as lists, places, limits and faults, the names of special forms and primitives, and a
//! sink in memory.
#![tactic(auto)]

mod faults;
mod items;
mod language;
mod limits;
mod memory;
mod memory_sink;
mod names;
mod sink;
mod text;
mod wording;

pub use faults::{
    Fault, FormKind, ModuleKind, Op, Place, Position, Refusal, SurviveKind, SyntaxKind,
};
pub use items::{Boxed, Bytes, Calls, Flags, Items, Numbers, Numbers64, Stamps};
pub use language::{Core, PrimName};
pub use limits::Limits;
pub use memory::NoMemory;
pub use memory_sink::MemorySink;
pub use names::{Name, Names};
pub use sink::{Sink, SinkFault, Taken, write_all};
pub use text::{Style, Written, put, put_all, put_each, put_integer, put_number, put_numbered};
pub use wording::{op_word_of, put_place};

/// A primitive, by its name.
pub type Prim = PrimName;
