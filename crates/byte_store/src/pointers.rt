//! Operations on the pointers of a store.

ghost use Rattle.std.specs.Prelude.{◌≡◌, Some};
ghost use Rattle.byte_store.specs.Blocks.{block_of, is_end, is_freed, is_freed_block, is_pointer, is_same_base};
ghost use Rattle.byte_store.specs.Operations.{before, difference, distance, is_null, moved, same, same_live, together};
ghost use Rattle.byte_store.specs.declared.pointer.Pointer.TheVariants.{At};

use crate::pointer::{Base, Cell, Pointer};
use crate::store::{Store, sum};
use ps_base::Op;
use std::alloc::Allocator;

fn is_same_base(a: Base, b: Base) -> bool
    ensures { result ≡ is_same_base a b }
{
    match (a, b) {
        (Base::Fixed(n), Base::Fixed(k)) => n == k,
        (Base::Made(n), Base::Made(k)) => n == k,
        (Base::Fixed(_), Base::Made(_)) => false,
        (Base::Made(_), Base::Fixed(_)) => false,
    }
}

// The difference of two offsets.
fn minus(i: i64, j: i64) -> Result<i64, Op>
    ensures { result ≡ distance i j }
{
    match i.checked_sub(j) {
        Some(difference) => Ok(difference),
        None => Err(Op::Bounds),
    }
}

impl<C: Cell, A: Allocator + Copy> Store<C, A> {
    // Whether the block of a base was freed.
    fn is_freed_base(&self, base: Base) -> bool
        ensures { result ≡ is_freed_block (block_of self.now base) }
    {
        match self.block(base) {
            Some(block) => block.is_freed(),
            None => false,
        }
    }

    // Whether a pointer leads into a block that was freed.
    fn is_freed(&self, p: Pointer) -> bool
        ensures { result ≡ is_freed self.now p }
    {
        match p {
            Pointer::Null => false,
            Pointer::At(base, _) => self.is_freed_base(base),
        }
    }

    // Whether an offset is that of a block's end.
    fn is_end(&self, base: Base, offset: i64) -> bool
        ensures { result ≡ is_end (block_of self.now base) offset }
    {
        match self.block(base) {
            Some(block) => i128::from(offset) == block.len() as i128,
            None => false,
        }
    }

    /// The pointer so many bytes or cells further on in its block. The block's end is such a place too.
    ///
    /// # Errors
    ///
    /// `Bounds` for null, then `Freed` where the block was freed, then `Bounds` for a place outside the block.
    pub fn move_by(&self, p: Pointer, by: i64) -> Result<Pointer, Op>
        ensures { result ≡ moved self.now p by }
    {
        let Pointer::At(base, offset) = p else {
            return Err(Op::Bounds);
        };
        match self.block(base) {
            Some(block) => Ok(Pointer::At(base, block.place(sum(offset, by))?)),
            None => Err(Op::Bounds),
        }
    }

    // Whether two bases are those of one block, and it is live.
    fn together(&self, a: Base, b: Base) -> Result<(), Op>
        ensures { result ≡ together self.now a b }
    {
        if self.is_freed_base(a) || self.is_freed_base(b) {
            return Err(Op::Freed);
        }
        if !is_same_base(a, b) {
            return Err(Op::Blocks);
        }
        Ok(())
    }

    /// How far the first of two pointers into one block stands behind the second.
    ///
    /// # Errors
    ///
    /// `Bounds` where one is null, then `Freed` where the block of one was freed, then `Blocks` where they lead into two
    /// blocks. `Bounds` too where the difference has no 64 bits, which two pointers of a store never come to.
    pub fn difference(&self, p: Pointer, q: Pointer) -> Result<i64, Op>
        ensures { result ≡ difference self.now p q }
    {
        match (p, q) {
            (Pointer::Null, _) => Err(Op::Bounds),
            (Pointer::At(_, _), Pointer::Null) => Err(Op::Bounds),
            (Pointer::At(a, i), Pointer::At(b, j)) => {
                self.together(a, b)?;
                minus(i, j)
            }
        }
    }

    /// Whether the first of two pointers into one block stands before the second.
    ///
    /// # Errors
    ///
    /// `Bounds` where one is null, then `Freed` where the block of one was freed, then `Blocks` where they lead into two
    /// blocks.
    pub fn before(&self, p: Pointer, q: Pointer) -> Result<bool, Op>
        ensures { result ≡ before self.now p q }
    {
        match (p, q) {
            (Pointer::Null, _) => Err(Op::Bounds),
            (Pointer::At(_, _), Pointer::Null) => Err(Op::Bounds),
            (Pointer::At(a, i), Pointer::At(b, j)) => {
                self.together(a, b)?;
                Ok(i < j)
            }
        }
    }

    // Whether two pointers into blocks that are live are the same place.
    fn same_place(&self, a: Base, i: i64, b: Base, j: i64) -> Result<bool, Op>
        ensures { result ≡ same_live self.now (At a i) (At b j) }
    {
        if is_same_base(a, b) {
            return Ok(i == j);
        }
        if self.is_end(a, i) || self.is_end(b, j) {
            return Err(Op::Blocks);
        }
        Ok(false)
    }

    /// Whether two pointers are the same. Null is the same as null alone.
    ///
    /// # Errors
    ///
    /// `Freed` where the block of one was freed, then `Blocks` where they lead into two blocks and one is its block's end,
    /// which may be where the other begins.
    pub fn same(&self, p: Pointer, q: Pointer) -> Result<bool, Op>
        ensures { result ≡ same self.now p q }
    {
        if self.is_freed(p) || self.is_freed(q) {
            return Err(Op::Freed);
        }
        match (p, q) {
            (Pointer::Null, Pointer::Null) => Ok(true),
            (Pointer::Null, Pointer::At(_, _)) => Ok(false),
            (Pointer::At(_, _), Pointer::Null) => Ok(false),
            (Pointer::At(a, i), Pointer::At(b, j)) => self.same_place(a, i, b, j),
        }
    }

    /// Whether a pointer is null.
    ///
    /// # Errors
    ///
    /// `Freed` where its block was freed.
    pub fn is_null(&self, p: Pointer) -> Result<bool, Op>
        ensures { result ≡ is_null self.now p }
    {
        if self.is_freed(p) {
            return Err(Op::Freed);
        }
        match p {
            Pointer::Null => Ok(true),
            Pointer::At(_, _) => Ok(false),
        }
    }
}
