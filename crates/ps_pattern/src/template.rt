//! Templates, as rules have them.

use crate::syntax::Ident;
use ps_base::{Boxed, Bytes, Items};

/// The parts of a list or a vector.
pub type Parts = Items<Part>;

/// Numbers of variables.
pub type Variables = Items<usize>;

/// What a use stands for. A form that is no variable is inserted.
#[cycle(template)]
#[derive(Drop)]
pub enum Template {
    /// The pattern's variable of this number, counted from 0 from left to right.
    Variable(usize),
    /// An identifier that is inserted.
    Inserted(Ident),
    /// `#t` or `#f`
    Boolean(bool),
    /// An integer.
    Integer(i64),
    /// A character, by its code.
    Char(u8),
    /// A string, by its bytes.
    Text(Bytes),
    /// `(part ...)`
    List(Parts),
    /// `(part ... . last)`
    Dotted(Parts, Boxed<Template>),
    /// `#(part ...)`
    Vector(Parts),
}

/// A part of a list or a vector.
#[cycle(template)]
#[derive(Drop)]
pub enum Part {
    /// A part with no `...` behind it.
    Plain(Template),
    /// A part with `...` behind it, and the variables of depth 1 or more in it, as often as they stand there.
    Each(Template, Variables),
}
