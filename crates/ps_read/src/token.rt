//! Tokens, open brackets and breaches.

use ps_base::{Bytes, Items, Name, Place, SyntaxKind};
use ps_datum::{Datum, DatumKind};

/// What is wrong with a text, and where.
#[derive(Clone, Copy, Debug, PartialEq, Eq)]
pub struct Breach {
    /// What is wrong.
    pub kind: SyntaxKind,
    /// Where.
    pub place: Place,
}

/// What a token is (R5RS 7.1.1).
#[derive(Debug, Drop)]
pub enum Word {
    /// `(`
    Open,
    /// `#(`
    VectorOpen,
    /// `)`
    Close,
    /// `'`, with the number of the name `quote`.
    Quote(Name),
    /// `.`
    Dot,
    /// A datum of one token.
    Atom(DatumKind),
    /// A row of bytes that is no token. It stands at the byte that shows this.
    Broken(SyntaxKind),
}

/// A token, and where it stands.
#[derive(Debug, Drop)]
pub struct Token {
    /// Where its first byte stands.
    pub place: Place,
    /// What it is.
    pub word: Word,
}

/// What a text begins with.
#[derive(Debug, Drop)]
pub enum Front {
    /// So many bytes between tokens: whitespace or a comment.
    Gap(usize),
    /// A token of so many bytes.
    Whole(usize, Word),
    /// An identifier of so many bytes, in small letters.
    Named(usize, Bytes),
    /// `'`
    Quoted,
    /// So many bytes, and then one that shows a breach.
    Stop(usize, SyntaxKind),
}

/// What is open.
#[derive(Debug, Drop)]
pub enum Shape {
    /// A list, before its dot.
    List,
    /// A vector.
    Vector,
    /// A quote, with the number of the name `quote`.
    Quote(Name),
    /// A list behind its dot, which stands at this place.
    Dotted(Place),
    /// A list behind the datum behind its dot.
    Ended(Place, Datum),
}

/// An open bracket or quote, and the data behind it.
#[derive(Debug, Drop)]
pub struct Frame {
    /// Where it stands.
    pub place: Place,
    /// What is open.
    pub shape: Shape,
    /// The data behind it so far.
    pub items: Items<Datum>,
}
