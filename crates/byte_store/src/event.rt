//! What a program does that is seen from outside.

use crate::pointer::{Pointer, Word};
use ps_base::Items;

/// An operation of a program that is seen from outside.
#[derive(Clone, Copy, Debug, PartialEq, Eq)]
pub enum Event {
    /// This byte was read, or -1 at the end of the input.
    Input(i64),
    /// This byte was written.
    Output(i64),
    /// A block of so many bytes was asked for. It begins at the pointer, which is null where it was refused.
    Allocate(i64, Pointer),
    /// A vector of so many cells, each with this word, was asked for. It begins at the pointer, which is null where it was
    /// refused.
    Fill(i64, Word, Pointer),
    /// A record of so many fields was asked for. It begins at the pointer, which is null where it was refused.
    Tuple(i64, Pointer),
    /// The block that begins at the pointer was freed.
    Free(Pointer),
    /// This byte was read at the pointer.
    Load(Pointer, i64),
    /// This byte was put at the pointer.
    Keep(Pointer, i64),
    /// This word of eight bytes was read at the pointer.
    LoadWord(Pointer, i64),
    /// This word of eight bytes was put at the pointer.
    KeepWord(Pointer, i64),
    /// The cell at the pointer was read, and has this word.
    Get(Pointer, Word),
    /// A value with this word was put into the cell at the pointer.
    Put(Pointer, Word),
    /// The length of the string at the pointer was taken.
    Length(Pointer, i64),
}

/// Operations in the order in which they were performed.
pub type Events = Items<Event>;
