//! What the fixed blocks of a store have.

ghost use Rattle.std.specs.Prelude.{◌≡◌, length, map, IfOk};
ghost use Rattle.std.specs.List.Sorted.{IsStrictlyIncreasing};
ghost use Rattle.std.specs.Map.{keys_of};
ghost use Rattle.std.specs.Option.{option_map};
ghost use Rattle.byte_store.specs.Blocks.{find};
ghost use Rattle.byte_store.specs.Contents.{lent, lent_numbered};
ghost use Rattle.byte_store.specs.Inside.{seen, seen_numbered};

use crate::block::Block;
use crate::pointer::{Base, Cell};
use crate::store::Store;
use ps_base::NoMemory;
use std::alloc::{AllocError, Allocator, Global};
use std::collections::BTreeMap;

/// What a block has: its bytes or its cells, each where it was set, or its length alone where it was freed.
#[derive(Clone, Copy)]
pub enum Contents<'a, C: Cell> {
    Bytes(&'a [Option<u8>]),
    Cells(&'a [Option<C>]),
    Freed(usize),
}

impl<C: Cell, A: Allocator + Copy> Store<C, A> {
    /// How many fixed blocks there are. Their numbers ascend.
    pub fn fixed_count(&self) -> usize
        ensures count { result ≡ length self.now.fixed }
        ensures ascending { IsStrictlyIncreasing (keys_of self.now.fixed) }
    {
        self.fixed.len()
    }

    /// What the fixed block of a number has, where there is one. It is found without a walk over the others.
    pub fn fixed_block(&self, number: u32) -> Option<Contents<'_, C>>
        ensures { option_map lent result ≡ find number self.now.fixed }
    {
        match self.block(Base::Fixed(number)) {
            Some(block) => Some(lend(block)),
            None => None,
        }
    }

    /// The fixed blocks in the order of their numbers, each with its number and what it has.
    ///
    /// # Errors
    ///
    /// `NoMemory` where memory for the list runs out.
    pub fn fixed_blocks(&self, alloc: Global) -> Result<Vec<(u32, Contents<'_, C>)>, NoMemory>
        ensures { IfOk result (λ blocks. map lent_numbered blocks.items ≡ self.now.fixed) }
    {
        Ok(lend_all(alloc, &self.fixed)?)
    }
}

// What each of these blocks has, in order.
fn lend_all<C: Cell, A: Allocator>(
    alloc: Global,
    fixed: &BTreeMap<u32, Block<C, A>, A>,
) -> Result<Vec<(u32, Contents<'_, C>)>, AllocError>
    ensures { IfOk result (λ blocks. map lent_numbered blocks.items ≡ map seen_numbered fixed.now.entries) }
{
    let mut blocks = Vec::with_capacity(alloc, fixed.len())?;
    for (number, block) in fixed {
        blocks.push((*number, lend(block)))?;
    }
    Ok(blocks)
}

// What a block has.
fn lend<C: Cell, A: Allocator>(block: &Block<C, A>) -> Contents<'_, C>
    ensures { lent result ≡ seen block.now }
{
    match block {
        Block::Bytes(bytes) => Contents::Bytes(bytes),
        Block::Cells(cells) => Contents::Cells(cells),
        Block::Freed(length) => Contents::Freed(*length),
    }
}
