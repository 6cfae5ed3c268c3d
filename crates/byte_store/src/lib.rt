//! The memory of a program and the world that it runs in. From a store and a world to what an operation answers and leaves,
//! by the calls of `Store` and `World` (specs/Operations.antt, specs/Worlds.antt).
//! From an event to its line, by `write_event` (specs/Lines.antt).
//! The laws of runs, which say what it means that two of them agree, are contracts of calls that do nothing
//! (specs/Agree.antt, specs/Laws.antt, specs/Refining.antt); so are those of the store (specs/Store.antt,
//! specs/MappingLaws.antt).
#![tactic(auto)]

mod accesses;
mod block;
mod event;
mod fault;
mod fixed;
mod lines;
mod lists;
mod mapping;
mod pointer;
mod pointers;
mod refining;
mod runs;
mod store;
mod world;

pub use event::{Event, Events};
pub use fault::StoreFault;
pub use fixed::Contents;
pub use lines::write_event;
pub use mapping::operations_are_natural;
pub use pointer::{Base, Cell, Pointer, Value, Word};
pub use refining::{Refinement, refining_follows, refining_is_shallow};
pub use runs::{
    agree_is_transitive, agree_where_defined, following_gives_agree, following_gives_shallow,
    growing_keeps, progress_gives_agree, same_each_agrees, shallow_composes,
    shallow_so_far_composes,
};
pub use store::{Store, pointers_stay};
pub use world::World;
