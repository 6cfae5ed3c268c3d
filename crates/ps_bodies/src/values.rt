//! What the head of a body is, and what stands as the value of a letrec.

use ps_base::{Items, Numbers, Place, Prim};
use ps_expansion::Held;
use ps_pattern::{Ident, Syntax};

/// The head of a body.
#[derive(Drop)]
pub struct Heads<'a> {
    /// The definitions, in order.
    pub definitions: Vec<Held<'a>>,
    /// The locals to which their names are bound.
    pub locals: Numbers,
    /// The first form that is no definition.
    pub first: Held<'a>,
    /// How many forms stand before it.
    pub taken: usize,
}

/// What stands as the value of a letrec.
#[derive(Drop)]
pub enum Value<'a> {
    /// A lambda as it is written.
    Written(Held<'a>),
    /// A primitive, by its name at a place.
    Performs(Place, Prim),
    /// A procedure by its definition at a place.
    Procedure(Place, Items<&'a Ident>, &'a [Syntax]),
}

/// A value of a letrec or of a definition, numbered.
#[derive(Drop)]
pub struct Member<'a> {
    /// The number of its lambda.
    pub lambda: u32,
    /// The value.
    pub value: Value<'a>,
}
