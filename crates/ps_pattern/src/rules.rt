//! Patterns, as rules have them.

use crate::syntax::Ident;
use ps_base::{Boxed, Bytes, Items};

/// A list of patterns.
pub type Patterns = Items<Pattern>;

/// What a form may match.
#[cycle(pattern)]
#[derive(Drop)]
pub enum Pattern {
    /// The first element of a whole pattern, which matches each form.
    Ignored,
    /// A variable. Those of a whole pattern are numbered from 0 from left to right.
    Variable,
    /// A literal.
    Literal(Ident),
    /// `#t` or `#f`
    Boolean(bool),
    /// An integer.
    Integer(i64),
    /// A character, by its code.
    Char(u8),
    /// A string, by its bytes.
    Text(Bytes),
    /// `(p ...)`
    List(Patterns),
    /// Patterns, and at the end one for all forms that are left, with the number of its variables.
    ListEach(Patterns, Boxed<Pattern>, usize),
    /// `(p ... . last)`
    Dotted(Patterns, Boxed<Pattern>),
    /// `#(p ...)`
    Vector(Patterns),
    /// The same as `ListEach` in a vector.
    VectorEach(Patterns, Boxed<Pattern>, usize),
}
