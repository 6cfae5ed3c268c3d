//! What linking answers.

use ps_base::{Items, Name, Place};
use ps_datum::Datum;

/// A name that a structure exports.
#[derive(Clone, Copy, Debug, PartialEq, Eq)]
pub struct Export {
    /// The name.
    pub name: Name,
    /// Whether it is to be a macro.
    pub syntax: bool,
    /// Where it is listed.
    pub place: Place,
}

/// The names that a structure exports.
pub type Exports = Items<Export>;

/// A structure that another one opens.
#[derive(Clone, Copy, Debug, PartialEq, Eq)]
pub enum Opened {
    /// `prescheme`, with every name of the language.
    Prescheme,
    /// `ps-memory`, with the names for addresses.
    Memory,
    /// `ps-record-types`, with `define-record-type`.
    Records,
    /// The structure of this place in the list of those that were linked.
    At(u32),
}

/// The structures that another one opens.
pub type Opens = Items<Opened>;

/// A structure.
#[derive(Debug, Drop)]
pub struct Structure {
    /// Its name.
    pub name: Name,
    /// What it opens, in order.
    pub opens: Opens,
    /// What it exports, in order.
    pub exports: Exports,
    /// The forms of its `begin` and `files` clauses, in order.
    pub body: Items<Datum>,
}

/// Structures in the order in which they are evaluated.
pub type Structures = Items<Structure>;

/// The structures that a program has.
#[derive(Debug, Drop)]
pub struct Linked {
    /// They stand in the order in which they are evaluated, each behind those that it opens. The last is the entry.
    pub structures: Structures,
}
