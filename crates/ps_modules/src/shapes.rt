//! Structures and interfaces as they are written.

use crate::types::Exports;
use ps_base::{Bytes, Items, Name, Place};
use ps_datum::Datum;

/// A name that a structure opens, and where it stands.
#[derive(Clone, Copy, Debug)]
pub struct OpenedName {
    pub name: Name,
    pub place: Place,
}

/// A file's name, and where it stands.
#[derive(Debug, Drop)]
pub struct FileName {
    pub text: Bytes,
    pub place: Place,
}

/// An interface: the name of another one, or a list of names.
#[derive(Debug, Drop)]
pub enum Interface {
    Named(Name, Place),
    Listed(Exports),
}

/// A part of a structure's body: forms, or a file of forms.
#[derive(Debug, Drop)]
pub enum Part {
    Forms(Items<Datum>),
    File(FileName),
}

/// What the clauses of a structure say.
#[derive(Debug, Drop)]
pub struct Clauses {
    /// What it opens, in order.
    pub opens: Items<OpenedName>,
    /// What its body is made of, in order.
    pub parts: Items<Part>,
}

/// A structure.
#[derive(Debug, Drop)]
pub struct Shape {
    /// Where its form stands.
    pub form: Place,
    /// Its name, and where that stands.
    pub name: OpenedName,
    pub interface: Interface,
    pub clauses: Clauses,
}

/// An interface and its name.
#[derive(Debug, Drop)]
pub struct Definition {
    pub name: OpenedName,
    pub interface: Interface,
}

/// A form of a text of structures.
#[derive(Debug, Drop)]
pub enum Form {
    Structure(Shape),
    Interface(Definition),
}

/// Why a form is none: the place of the first datum that breaks its shape, or want of memory.
#[derive(Clone, Copy, Debug, PartialEq, Eq)]
pub enum Broken {
    At(Place),
    NoMemory,
}
