//! Blocks, and what is done with one.

ghost use Rattle.std.specs.Prelude.{◌≡◌, ℤ, pos, ◌<◌, length, take, Some, Result, Ok, Err, MatchResult};
ghost use Rattle.byte_store.specs.Blocks.{is_freed_block, length_of, rest};
ghost use Rattle.byte_store.specs.Operations.{all_set, and_then, inside, set, text_before_0, text_in, byte_at, word_at, cell_at, cells_from, place_at, text_from, freed, with_bytes, with_cell};
ghost use Rattle.byte_store.specs.Store.{Copies};
ghost use Rattle.byte_store.specs.Inside.{seen, edited, BecomesBlock};

use crate::fault::StoreFault;
use crate::lists::{
    copied_front, eight_at, length_before_0, member_at, overwrite, place_in, put_at, rest_at,
};
use crate::pointer::Cell;
use ps_base::{Bytes, Op};
use std::alloc::{Allocator, Global};

/// A block of a store: of bytes or of cells, each set or not, or one that was freed, with its length.
#[derive(Drop)]
pub enum Block<C: Cell, A: Allocator> {
    Bytes(Vec<Option<u8>, A>),
    Cells(Vec<Option<C>, A>),
    Freed(usize),
}

/// An edit of a block.
#[derive(Clone, Copy)]
pub enum Edit<C: Cell> {
    /// This byte is put at a place.
    Byte(u8),
    /// These eight bytes are put from a place on.
    Word([u8; 8]),
    /// This cell is put at a place.
    Cell(C),
    /// The block is freed.
    Free,
}

// A copy of the bytes from a place on that stand before the first byte 0.
fn text_of(alloc: Global, bytes: &[Option<u8>], place: i128) -> Result<Bytes, StoreFault>
    ensures { Copies result (and_then (inside (rest bytes.now place)) (λ bs. and_then (text_before_0 bs) (λ n. set (all_set (take n bs))))) }
{
    let rest = match rest_at(bytes, place) {
        Ok(rest) => rest,
        Err(op) => return Err(StoreFault::Undefined(op)),
    };
    match length_before_0(rest) {
        Ok(length) => copied_front(alloc, rest, length),
        Err(op) => Err(StoreFault::Undefined(op)),
    }
}

impl<C: Cell, A: Allocator> Block<C, A> {
    /// How many bytes or cells the block has or had.
    pub fn len(&self) -> usize
        ensures { result ≡ length_of (seen self.now) }
    {
        match self {
            Block::Bytes(bytes) => bytes.len(),
            Block::Cells(cells) => cells.len(),
            Block::Freed(length) => *length,
        }
    }

    pub fn is_freed(&self) -> bool
        ensures { result ≡ is_freed_block (Some (seen self.now)) }
    {
        match self {
            Block::Bytes(_) => false,
            Block::Cells(_) => false,
            Block::Freed(_) => true,
        }
    }

    pub fn byte(&self, place: i128) -> Result<i64, Op>
        ensures { result ≡ byte_at (seen self.now) place }
    {
        match self {
            Block::Bytes(bytes) => Ok(i64::from(member_at(bytes, place)?)),
            Block::Cells(_) => Err(Op::Bounds),
            Block::Freed(_) => Err(Op::Freed),
        }
    }

    pub fn word(&self, place: i128) -> Result<i64, Op>
        ensures { result ≡ word_at (seen self.now) place }
    {
        match self {
            Block::Bytes(bytes) => Ok(i64::from_le_bytes(eight_at(bytes, place)?)),
            Block::Cells(_) => Err(Op::Bounds),
            Block::Freed(_) => Err(Op::Freed),
        }
    }

    pub fn cell(&self, place: i128) -> Result<C, Op>
        ensures { result ≡ cell_at (seen self.now) place }
    {
        match self {
            Block::Bytes(_) => Err(Op::Bounds),
            Block::Cells(cells) => member_at(cells, place),
            Block::Freed(_) => Err(Op::Freed),
        }
    }

    pub fn place(&self, place: i128) -> Result<i64, Op>
        ensures { result ≡ place_at (seen self.now) place }
    {
        match self {
            Block::Bytes(bytes) => place_in(bytes, place),
            Block::Cells(cells) => place_in(cells, place),
            Block::Freed(_) => Err(Op::Freed),
        }
    }

    pub fn cells_from(&self, place: i128) -> Result<i64, Op>
        ensures { result ≡ cells_from (seen self.now) place }
    {
        match self {
            Block::Bytes(_) => Err(Op::Bounds),
            Block::Cells(cells) => Ok(rest_at(cells, place)?.len() as i64),
            Block::Freed(_) => Err(Op::Freed),
        }
    }

    pub fn text_from(&self, place: i128) -> Result<i64, Op>
        ensures { result ≡ text_from (seen self.now) place }
    {
        match self {
            Block::Bytes(bytes) => {
                let rest = rest_at(bytes, place)?;
                let length = length_before_0(rest)?;
                prove!(rest.len() < 1 << 63);
                Ok(length as i64)
            }
            Block::Cells(_) => Err(Op::Bounds),
            Block::Freed(_) => Err(Op::Freed),
        }
    }

    pub fn text(&self, alloc: Global, place: i128) -> Result<Bytes, StoreFault>
        ensures { Copies result (text_in (seen self.now) place) }
    {
        match self {
            Block::Bytes(bytes) => text_of(alloc, bytes, place),
            Block::Cells(_) => Err(StoreFault::Undefined(Op::Bounds)),
            Block::Freed(_) => Err(StoreFault::Undefined(Op::Freed)),
        }
    }

    fn put_bytes(&mut self, place: i128, new: &[u8]) -> Result<(), Op>
        ensures { BecomesBlock result (seen self.old) (seen self.new) (with_bytes new.now (seen self.old) place) }
    {
        match self {
            Block::Bytes(bytes) => overwrite(bytes, place, new),
            Block::Cells(_) => Err(Op::Bounds),
            Block::Freed(_) => Err(Op::Freed),
        }
    }

    fn put_cell(&mut self, place: i128, cell: C) -> Result<(), Op>
        ensures { BecomesBlock result (seen self.old) (seen self.new) (with_cell cell (seen self.old) place) }
    {
        match self {
            Block::Bytes(_) => Err(Op::Bounds),
            Block::Cells(cells) => put_at(cells, place, cell),
            Block::Freed(_) => Err(Op::Freed),
        }
    }

    fn free(&mut self) -> Result<(), Op>
        ensures { (place : ℤ) → BecomesBlock result (seen self.old) (seen self.new) (freed (seen self.old) place) }
    {
        if self.is_freed() {
            return Err(Op::Freed);
        }
        *self = Block::Freed(self.len());
        Ok(())
    }

    /// Edits the block, at a place of it.
    pub fn edit(&mut self, place: i128, edit: Edit<C>) -> Result<(), Op>
        ensures { BecomesBlock result (seen self.old) (seen self.new) (edited edit (seen self.old) place) }
    {
        match edit {
            Edit::Byte(byte) => self.put_bytes(place, &[byte]),
            Edit::Word(bytes) => self.put_bytes(place, &bytes),
            Edit::Cell(cell) => self.put_cell(place, cell),
            Edit::Free => self.free(),
        }
    }
}
