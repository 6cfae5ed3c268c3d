//! The memory of a program, and the making and freeing of its blocks.

ghost use Rattle.std.specs.Prelude.{◌≡◌, ℕ, ℤ, pos, ◌<◌, ◌≤◌, List, [], ◌∷◌, ◌++◌, ◌+ℤ◌, length, map, replicate, slice_get, slice_set, Some, None, true, false, IsTrue, IfOk, MatchOption, MatchResult, Result, Ok, Err};
ghost use Rattle.std.specs.Option.{option_map, option_copied};
ghost use Rattle.byte_store.specs.Blocks.{Cells as CellBlock, Bytes as ByteBlock, block_of, is_pointer, located, next_number, replaced, find};
ghost use Rattle.byte_store.specs.Operations.{allocate, allocate_cells, and_then, change, fixed, granted, inside, is_size, plus, release};
ghost use Rattle.byte_store.specs.Inside.{edited, Replaces, seen, seen_numbered};
ghost use Rattle.byte_store.specs.Store.{Allocates, Leaves, PointersStay};
ghost use Rattle.byte_store.specs.declared.pointer.Pointer.TheVariants.{At};
ghost use Rattle.byte_store.specs.Worlds.{next_grant, rest_of};

use crate::block::{Block, Edit};
use crate::fault::StoreFault;
use crate::pointer::{Base, Cell, Pointer};
use crate::world::World;
use ps_base::{Items, NoMemory, Op};
use sqlite_items::at;
use std::alloc::{AllocError, Allocator, Global};
use std::collections::BTreeMap;
use std::marker::Model;

/// The most bytes or cells of a made block.
const MOST: i64 = 1_099_511_627_776;

/// The memory of a program: blocks by their bases. A block is live or was freed, and has bytes or cells, each set or not.
/// At most 4,294,967,295 blocks are made.
#[derive(Drop)]
pub struct Store<C: Cell, A: Allocator = Global> {
    alloc: A,
    pub(crate) fixed: BTreeMap<u32, Block<C, A>, A>,
    next_fixed: u32,
    made: Vec<Block<C, A>, A>,
}

impl<C: Cell, A: Allocator> Model for Store<C, A> {
    ghost use Rattle.std.specs.Prelude.{◌≡◌, map};
    ghost use Rattle.byte_store.specs.Blocks.{Memory, next_number};

    ghost Value = { Memory C };

    ghost use Rattle.byte_store.specs.Inside.{seen, seen_numbered};

    ghost view = { λ s. record { fixed = map seen_numbered s.fixed.entries; made = map seen s.made.items } };

    ghost invariant = { λ s. s.next_fixed ≡ next_number (map seen_numbered s.fixed.entries) };
}

// The items, each set.
fn all_set<T: Copy, A: Allocator>(alloc: A, items: &[T]) -> Result<Vec<Option<T>, A>, AllocError>
    ensures { IfOk result (λ set. set.items ≡ map Some items.now) }
{
    let mut set = Vec::with_capacity(alloc, items.len())?;
    for item in items {
        set.push(Some(*item))?;
    }
    Ok(set)
}

// So many items, each the same.
fn filled<T: Copy, A: Allocator>(
    alloc: A,
    item: Option<T>,
    count: usize,
) -> Result<Vec<Option<T>, A>, AllocError>
    ensures { IfOk result (λ all. all.items ≡ replicate count item) }
{
    let mut all = Vec::with_capacity(alloc, count)?;
    for _ in 0..count {
        all.push(item)?;
    }
    Ok(all)
}

/// The place so much further on.
pub fn sum(offset: i64, by: i64) -> i128
    ensures { result ≡ offset +ℤ by }
{
    i128::from(offset) + i128::from(by)
}

// Edits a fixed block.
fn edit_fixed<C: Cell, A: Allocator>(
    fixed: &mut BTreeMap<u32, Block<C, A>, A>,
    number: u32,
    place: i128,
    edit: Edit<C>,
) -> Result<(), Op>
    ensures { Replaces result
        (and_then (inside (find number (map seen_numbered fixed.old.entries))) (λ b. edited edit b place))
        (λ b. map seen_numbered fixed.new.entries ≡ replaced number b (map seen_numbered fixed.old.entries))
        (map seen_numbered fixed.new.entries ≡ map seen_numbered fixed.old.entries) }
{
    match fixed.get_mut(&number) {
        Some(block) => block.edit(place, edit),
        None => Err(Op::Bounds),
    }
}

// Edits a made block.
fn edit_made<C: Cell, A: Allocator>(
    made: &mut Vec<Block<C, A>, A>,
    number: u32,
    place: i128,
    edit: Edit<C>,
) -> Result<(), Op>
    ensures { Replaces result
        (and_then (inside (slice_get (map seen made.old.items) number)) (λ b. edited edit b place))
        (λ b. map seen made.new.items ≡ slice_set (map seen made.old.items) number b)
        (map seen made.new.items ≡ map seen made.old.items) }
{
    let i = number as usize;
    if made.len() <= i {
        return Err(Op::Bounds);
    }
    made[i].edit(place, edit)
}

// The number of bytes or cells of a block, where a block may have so many.
fn size_of_block(size: i64) -> Result<usize, StoreFault>
    ensures { MatchResult result
        (λ n. (size ≡ pos n) × IsTrue (is_size n))
        (λ fault. (fault ≡ StoreFault.Undefined Op.Size) × ((n : ℕ) → size ≡ pos n → is_size n ≡ false)) }
{
    if 1 <= size && size <= MOST {
        Ok(size as usize)
    } else {
        Err(StoreFault::Undefined(Op::Size))
    }
}

impl<C: Cell, A: Allocator + Copy> Store<C, A> {
    /// A store without a block.
    pub fn new(alloc: A) -> Store<C, A>
        ensures { result ≡ record { fixed = []; made = [] } }
    {
        Store {
            alloc,
            fixed: BTreeMap::new(alloc),
            next_fixed: 0,
            made: Vec::new(alloc),
        }
    }

    /// One more than the greatest number of a fixed block, or 0.
    pub fn next_fixed(&self) -> u32
        ensures { result ≡ next_number self.now.fixed }
    {
        self.next_fixed
    }

    /// The number of the next made block. Fewer than 4,294,967,296 blocks must be made.
    pub fn next_made(&self) -> u32
        requires { length self.now.made < 4294967296 }
        ensures { result ≡ length self.now.made }
    {
        self.made.len() as u32
    }

    // Adds a fixed block behind the others.
    fn fix(&mut self, number: u32, block: Block<C, A>) -> Result<(), NoMemory>
        requires above { next_number self.old.fixed ≤ number }
        requires below { number < 4294967295 }
        ensures { MatchResult result (λ done. self.new ≡ fixed self.old number (seen block)) (λ e. self.new ≡ self.old) }
    {
        self.fixed.insert(number, block)?;
        self.next_fixed = number + 1;
        Ok(())
    }

    /// Adds a fixed block of these bytes. Its number must be below 4,294,967,295 and above those of the fixed blocks that
    /// are there.
    ///
    /// # Errors
    ///
    /// `NoMemory` where memory for the block runs out. The store is then as it was.
    pub fn fix_bytes(&mut self, number: u32, bytes: &[u8]) -> Result<(), NoMemory>
        requires above { next_number self.old.fixed ≤ number }
        requires below { number < 4294967295 }
        ensures { MatchResult result (λ done. self.new ≡ fixed self.old number (ByteBlock (map Some bytes.now))) (λ e. self.new ≡ self.old) }
    {
        let bytes = all_set(self.alloc, bytes)?;
        self.fix(number, Block::Bytes(bytes))
    }

    /// Adds a fixed block of these cells. Its number must be below 4,294,967,295 and above those of the fixed blocks that
    /// are there.
    ///
    /// # Errors
    ///
    /// `NoMemory` where memory for the block runs out. The store is then as it was.
    pub fn fix_cells(&mut self, number: u32, cells: Items<C>) -> Result<(), NoMemory>
        requires above { next_number self.old.fixed ≤ number }
        requires below { number < 4294967295 }
        ensures { MatchResult result (λ done. self.new ≡ fixed self.old number (CellBlock (map Some cells))) (λ e. self.new ≡ self.old) }
    {
        let cells = all_set(self.alloc, cells.as_slice())?;
        self.fix(number, Block::Cells(cells))
    }

    // Adds the next made block, and uses the grant that it has.
    fn make(&mut self, world: &mut World, block: Block<C, A>) -> Result<Pointer, StoreFault>
        requires room { length self.old.made < 4294967295 }
        requires granted { next_grant world.old.grants ≡ true }
        ensures { MatchResult result
            (λ p. granted self.old world.old (seen block) true ≡ record { memory = self.new; world = world.new; pointer = p })
            (λ fault. (fault ≡ StoreFault.NoMemory) × (self.new ≡ self.old) × (world.new ≡ world.old)) }
    {
        let number = self.made.len() as u32;
        if self.made.push(block).is_err() {
            return Err(StoreFault::NoMemory);
        }
        world.use_grant();
        Ok(Pointer::At(Base::Made(number), 0))
    }

    /// Makes a block of so many bytes, of which none is set, and answers where it begins. One grant of the world is used;
    /// where the allocation is refused, the answer is null.
    ///
    /// # Errors
    ///
    /// `Undefined(Size)` for a size outside 1 to 1,099,511,627,776, and `NoMemory` where memory for the block runs out. The
    /// store and the world are then as they were.
    pub fn allocate(&mut self, world: &mut World, size: i64) -> Result<Pointer, StoreFault>
        requires room { length self.old.made < 4294967295 }
        ensures { Allocates result self.old self.new world.old world.new (allocate self.old world.old size) }
    {
        let size = size_of_block(size)?;
        if !world.granted() {
            world.use_grant();
            return Ok(Pointer::Null);
        }
        let bytes = filled(self.alloc, None, size)?;
        self.make(world, Block::Bytes(bytes))
    }

    /// Makes a block of so many cells, each with this value or none of them set, and answers where it begins. One grant of
    /// the world is used; where the allocation is refused, the answer is null.
    ///
    /// # Errors
    ///
    /// `Undefined(Size)` for a number outside 1 to 1,099,511,627,776, and `NoMemory` where memory for the block runs out.
    /// The store and the world are then as they were.
    pub fn allocate_cells(
        &mut self,
        world: &mut World,
        count: i64,
        fill: Option<C>,
    ) -> Result<Pointer, StoreFault>
        requires room { length self.old.made < 4294967295 }
        ensures { Allocates result self.old self.new world.old world.new (allocate_cells self.old world.old count fill) }
    {
        let count = size_of_block(count)?;
        if !world.granted() {
            world.use_grant();
            return Ok(Pointer::Null);
        }
        let cells = filled(self.alloc, fill, count)?;
        self.make(world, Block::Cells(cells))
    }

    // The block of a base.
    pub(crate) fn block(&self, base: Base) -> Option<&Block<C, A>>
        ensures { option_map seen (option_copied result) ≡ block_of self.now base }
    {
        match base {
            Base::Fixed(n) => self.fixed.get(&n),
            Base::Made(n) => at(self.made.as_slice(), n as usize),
        }
    }

    // The block that a pointer leads to, and the offset.
    pub(crate) fn find(&self, p: Pointer) -> Result<(&Block<C, A>, i64), Op>
        ensures { MatchResult result
            (λ at. located self.now p ≡ Some (seen at.0.now, at.1))
            (λ op. (op ≡ Op.Bounds) × (located self.now p ≡ None)) }
    {
        let Pointer::At(base, offset) = p else {
            return Err(Op::Bounds);
        };
        match self.block(base) {
            Some(block) => Ok((block, offset)),
            None => Err(Op::Bounds),
        }
    }

    // Edits a block at a place of it.
    fn edit_at(&mut self, base: Base, place: i128, edit: Edit<C>) -> Result<(), Op>
        ensures { Leaves result self.old self.new (change self.old (At base place) (edited edit)) }
    {
        match base {
            Base::Fixed(n) => edit_fixed(&mut self.fixed, n, place, edit),
            Base::Made(n) => edit_made(&mut self.made, n, place, edit),
        }
    }

    // Edits the block so much further on than a pointer leads.
    pub(crate) fn edit(&mut self, p: Pointer, by: i64, edit: Edit<C>) -> Result<(), Op>
        ensures { Leaves result self.old self.new (change self.old (plus p by) (edited edit)) }
    {
        match p {
            Pointer::Null => Err(Op::Bounds),
            Pointer::At(base, offset) => self.edit_at(base, sum(offset, by), edit),
        }
    }

    /// Frees a made block, by the pointer to its start.
    ///
    /// # Errors
    ///
    /// `Bounds` for null, a fixed block, or a pointer that does not lead to a block's start; `Freed` for a block that was
    /// freed. The store is then as it was.
    pub fn release(&mut self, p: Pointer) -> Result<(), Op>
        ensures { Leaves result self.old self.new (release self.old p) }
    {
        match p {
            Pointer::At(Base::Made(_), 0) => self.edit(p, 0, Edit::Free),
            Pointer::At(_, _) => Err(Op::Bounds),
            Pointer::Null => Err(Op::Bounds),
        }
    }
}

/// Pointers stay: no operation takes a pointer's block away or makes it shorter, and each pointer that one answers is null
/// or leads into a block of the store, or to its end.
pub fn pointers_stay<C: Cell>()
    ensures { PointersStay C }
{}
