//! The trees of types.

use ps_base::{Boxed, Items, Name};

/// A type. The compiler makes none of more than 1,000 constructors and variables, which this tree itself does not say.
#[cycle(types)]
#[derive(Debug, Drop)]
pub enum Ty {
    /// Integers of 64 bits.
    Integer,
    /// `#t` and `#f`.
    Boolean,
    /// Characters.
    Char,
    /// The one value of what answers nothing.
    Unit,
    /// Addresses of bytes.
    Address,
    /// Strings.
    Text,
    /// Vectors whose items have one type.
    Vector(Boxed<Ty>),
    /// Records of the kind of this number, counted from 0.
    Tuple(u32),
    /// Procedures: the types of the parameters in order, and that of the answer.
    Proc(Items<Ty>, Boxed<Ty>),
    /// A type that is not known, or may be any, by its number.
    Var(u32),
}

/// Types in order.
pub type Tys = Items<Ty>;

/// A type in which the listed variables may be any types, and other ones at each use.
#[derive(Debug, Drop)]
pub struct Scheme {
    /// The variables that may be any types, each once.
    pub variables: Items<u32>,
    /// The type, which may have other variables too.
    pub body: Ty,
}

/// What a definition of a record type says of its records.
#[derive(Debug, Drop)]
pub struct RecordKind {
    /// The name of the type, `:n` in its definition.
    pub name: Name,
    /// The types of the fields in order.
    pub fields: Items<Ty>,
    /// The fields by number, in the order of the maker's parameters. Each field stands there once.
    pub maker: Items<u32>,
}

/// The kinds of records of a program. A kind's number is its place.
pub type Kinds = Items<RecordKind>;
