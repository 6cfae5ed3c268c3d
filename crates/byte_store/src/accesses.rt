//! What is read from and written to the blocks of a store.
//!
//! An access has no meaning, in this order, where its pointer is null or its base no block's (`Bounds`), where the block
//! was freed (`Freed`), where not all of it is inside the block, or the block has cells for bytes or bytes for cells
//! (`Bounds`), and where what is read was never set (`Unset`).

ghost use Rattle.std.specs.Prelude.{◌≡◌};
ghost use Rattle.byte_store.specs.Operations.{bytes_of_word, cell_count, get, load, load_word, put, set_byte, set_word, text, text_at, text_length};
ghost use Rattle.byte_store.specs.Store.{Copies, Leaves};

use crate::block::Edit;
use crate::fault::StoreFault;
use crate::pointer::{Cell, Pointer};
use crate::store::{Store, sum};
use ps_base::{Bytes, Op};
use std::alloc::{Allocator, Global};

// The eight bytes of an integer, the lowest first.
fn bytes_of(word: i64) -> [u8; 8]
    ensures { result ≡ bytes_of_word word }
{
    word.to_le_bytes()
}

impl<C: Cell, A: Allocator + Copy> Store<C, A> {
    /// The byte at a pointer.
    ///
    /// # Errors
    ///
    /// Those of an access.
    pub fn load(&self, p: Pointer) -> Result<i64, Op>
        ensures { result ≡ load self.now p }
    {
        let (block, offset) = self.find(p)?;
        block.byte(i128::from(offset))
    }

    /// Puts a byte at a pointer.
    ///
    /// # Errors
    ///
    /// `Byte` for what is no byte, before all others, and then those of an access. The store is then as it was.
    pub fn set_byte(&mut self, p: Pointer, byte: i64) -> Result<(), Op>
        ensures { Leaves result self.old self.new (set_byte self.old p byte) }
    {
        match u8::try_from(byte) {
            Ok(byte) => self.edit(p, 0, Edit::Byte(byte)),
            Err(_) => Err(Op::Byte),
        }
    }

    /// The eight bytes from a pointer on as an integer, the lowest first, in two's complement.
    ///
    /// # Errors
    ///
    /// Those of an access.
    pub fn load_word(&self, p: Pointer) -> Result<i64, Op>
        ensures { result ≡ load_word self.now p }
    {
        let (block, offset) = self.find(p)?;
        block.word(i128::from(offset))
    }

    /// Puts an integer into the eight bytes from a pointer on, the lowest first, in two's complement.
    ///
    /// # Errors
    ///
    /// Those of an access. The store is then as it was.
    pub fn set_word(&mut self, p: Pointer, word: i64) -> Result<(), Op>
        ensures { Leaves result self.old self.new (set_word self.old p word) }
    {
        self.edit(p, 0, Edit::Word(bytes_of(word)))
    }

    /// The cell so many cells further on than a pointer.
    ///
    /// # Errors
    ///
    /// Those of an access.
    pub fn get(&self, p: Pointer, at: i64) -> Result<C, Op>
        ensures { result ≡ get self.now p at }
    {
        let (block, offset) = self.find(p)?;
        block.cell(sum(offset, at))
    }

    /// Puts a value into the cell so many cells further on than a pointer.
    ///
    /// # Errors
    ///
    /// Those of an access. The store is then as it was.
    pub fn put(&mut self, p: Pointer, at: i64, cell: C) -> Result<(), Op>
        ensures { Leaves result self.old self.new (put self.old p at cell) }
    {
        self.edit(p, at, Edit::Cell(cell))
    }

    /// How many cells stand from a pointer to the end of its block.
    ///
    /// # Errors
    ///
    /// Those of an access.
    pub fn cell_count(&self, p: Pointer) -> Result<i64, Op>
        ensures { result ≡ cell_count self.now p }
    {
        let (block, offset) = self.find(p)?;
        block.cells_from(i128::from(offset))
    }

    /// The length of the string at a pointer: how many bytes stand before the first byte 0.
    ///
    /// # Errors
    ///
    /// Those of an access, where the bytes up to that byte 0 are read in order.
    pub fn text_length(&self, p: Pointer) -> Result<i64, Op>
        ensures { result ≡ text_length self.now p }
    {
        let (block, offset) = self.find(p)?;
        block.text_from(i128::from(offset))
    }

    /// A copy of the string at a pointer: the bytes before the first byte 0.
    ///
    /// # Errors
    ///
    /// `Undefined` with the causes of its length, and `NoMemory` where memory for the copy runs out.
    pub fn text(&self, alloc: Global, p: Pointer) -> Result<Bytes, StoreFault>
        ensures { Copies result (text self.now p) }
    {
        match self.find(p) {
            Ok((block, offset)) => block.text(alloc, i128::from(offset)),
            Err(op) => Err(StoreFault::Undefined(op)),
        }
    }

    /// The byte at an index of the string at a pointer.
    ///
    /// # Errors
    ///
    /// Those of its length, and then `Bounds` for an index that is not from 0 to one less than the length.
    pub fn text_at(&self, p: Pointer, at: i64) -> Result<i64, Op>
        ensures { result ≡ text_at self.now p at }
    {
        let length = self.text_length(p)?;
        if at < 0 || length <= at {
            return Err(Op::Bounds);
        }
        let (block, offset) = self.find(p)?;
        block.byte(sum(offset, at))
    }
}
