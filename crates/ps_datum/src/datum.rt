//! The trees of data.

use ps_base::{Boxed, Bytes, Items, Name, Place};

/// A datum (R5RS 7.1.2, in this project's profile), with the place where its text begins. Of `'d` both the list and the
/// symbol `quote` have the place of `'`.
#[cycle(datum)]
#[derive(Debug, Drop)]
pub struct Datum {
    /// Where its first byte stands.
    pub place: Place,
    /// What it is.
    pub kind: DatumKind,
}

/// What a datum is.
#[cycle(datum)]
#[derive(Debug, Drop)]
pub enum DatumKind {
    /// `#t` or `#f`.
    Boolean(bool),
    /// An integer of 64 bits.
    Integer(i64),
    /// A character, `#\a`, `#\space` or `#\newline`, by its code: from 32 to 126, or 10.
    Char(u8),
    /// A string, by its bytes, which are not 0.
    Text(Bytes),
    /// An identifier, by its number in the table of names. Its capital letters became small ones.
    Symbol(Name),
    /// `(d ...)`, or `'d`, which is `(quote d)`.
    List(Items<Datum>),
    /// `(d ... . tail)`, where the tail is no list, and at least one datum stands before the dot.
    Dotted(Items<Datum>, Boxed<Datum>),
    /// `#(d ...)`
    Vector(Items<Datum>),
}
