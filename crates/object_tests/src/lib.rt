//! Tests of what no case of data can say, by the public calls of the crates below: objects that fail in mid-stream, a store in an
//! arena and one of other cells, an arena with the values of compile time, and units of the C subset that no program is translated
//! to. It is no part of the compiler.
#![tactic(auto)]

#[cfg(test)]
mod arenas;
#[cfg(test)]
mod edges;
#[cfg(test)]
mod machines;
#[cfg(test)]
mod pieces;
#[cfg(test)]
mod stores;
