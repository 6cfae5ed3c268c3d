//! Pointers, and what a cell may hold.

ghost use Rattle.std.specs.Prelude.{◌≡◌};
ghost use Rattle.byte_store.specs.Words.{word_of};

/// The block that a pointer leads to.
#[derive(Clone, Copy, Debug, PartialEq, Eq)]
pub enum Base {
    /// A fixed block, by its number. It stands in the program itself and is never freed.
    Fixed(u32),
    /// A made block, by its number. Made blocks are numbered from 0 in the order in which they were made.
    Made(u32),
}

/// Where a pointer leads.
#[derive(Clone, Copy, Debug, PartialEq, Eq)]
pub enum Pointer {
    /// To no block.
    Null,
    /// Into a block, so many bytes or cells from its start. The end of a block, behind its last byte or cell, is such a
    /// place too.
    At(Base, i64),
}

/// What an operation that is seen from outside shows of a cell.
#[derive(Clone, Copy, Debug, PartialEq, Eq)]
pub enum Word {
    /// A number of 64 bits.
    Number(i64),
    /// A pointer.
    Pointer(Pointer),
}

/// A value of a program, as it stands in a cell.
#[derive(Clone, Copy, Debug, PartialEq, Eq)]
pub enum Value {
    /// An integer of 64 bits.
    Integer(i64),
    /// `#t` or `#f`.
    Boolean(bool),
    /// A character, by its code.
    Char(u8),
    /// The value of what has no other.
    Unit,
    /// An address in memory.
    Address(Pointer),
    /// A string, by where its first byte stands.
    Text(Pointer),
    /// A vector, by where its first cell stands.
    Vector(Pointer),
    /// A record of this kind, by where its first field stands.
    Tuple(u32, Pointer),
}

/// What a cell may hold.
pub trait Cell: Copy {
    ghost use Rattle.std.specs.Prelude.{◌≡◌};
    ghost use Rattle.byte_store.specs.declared.pointer.Word.{Word};

    /// The word that is shown of it.
    ghost shown: { Self → Word };

    /// The word that is shown of it.
    fn word(&self) -> Word
        ensures { result ≡ shown self.now };
}

impl Cell for Word {
    ghost shown = { λ w. w };

    fn word(&self) -> Word {
        *self
    }
}

impl Cell for Value {
    ghost shown = { word_of };

    /// An integer or a pointer itself, 0 or 1 for a boolean, the code of a character, and 0 for the unit.
    fn word(&self) -> Word {
        match self {
            Value::Integer(i) => Word::Number(*i),
            Value::Boolean(b) => Word::Number(i64::from(*b)),
            Value::Char(code) => Word::Number(i64::from(*code)),
            Value::Unit => Word::Number(0),
            Value::Address(p) => Word::Pointer(*p),
            Value::Text(p) => Word::Pointer(*p),
            Value::Vector(p) => Word::Pointer(*p),
            Value::Tuple(_, p) => Word::Pointer(*p),
        }
    }
}
