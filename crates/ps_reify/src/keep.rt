//! What was reached is copied.

ghost use Rattle.std.specs.Prelude.{◌≡◌, ◌<◌, ◌++◌, length, map, OnOk, IfOk};
ghost use Rattle.byte_store.specs.Contents.{lent, lent_numbered};
ghost use Rattle.ps_survive.specs.Kept.{number_of, kept_value, kept_bytes, kept_cells, kept_block, procedure_at, procedure_in, procedures, global_at, globals, blocks, survivors};
ghost use Rattle.ps_reify.specs.InsideWork.{program_of, IsImage, flagged, added_block, all_added};

use crate::find::{Walk, flagged, procedure};
use crate::image::Image;
use byte_store::{Base, Contents, Pointer, Value};
use ps_base::{Bytes, Items, NoMemory};
use ps_kernel::{Kept, KeptBlock, KeptGlobal, KeptProcedure, NumberedBlock, Survivors};
use ps_survive::Node;
use std::alloc::{AllocError, Allocator, Global};

/// The survivors of a walk that ended well.
pub fn kept<A: Allocator + Copy>(
    alloc: Global,
    image: &Image<'_, A>,
    walk: &Walk,
) -> Result<Survivors, NoMemory>
    requires image { IsImage image.now }
    requires definitions { length image.now.globals.now < 4294967296 }
    ensures { IfOk result (λ s. s ≡ survivors (program_of image.now) walk.now.order (flagged walk.now)) }
{
    Ok(Survivors {
        procedures: procedures(alloc, image, walk.order.as_slice())?,
        blocks: blocks(alloc, image, walk)?,
        globals: globals(alloc, image, walk)?,
        main: image.kernel.main,
    })
}

fn add_procedure<A: Allocator + Copy>(
    image: &Image<'_, A>,
    list: &mut Items<KeptProcedure>,
    node: Node,
) -> Result<(), AllocError>
    requires image { IsImage image.now }
    ensures { OnOk result (list.new ≡ list.old ++ procedure_in (program_of image.now) node) }
{
    match node {
        Node::Global(definition) => match procedure(image, definition) {
            Some(lambda) => {
                list.push(KeptProcedure { definition, lambda })?;
                Ok(())
            }
            None => Ok(()),
        },
        Node::Inner(_) => Ok(()),
        Node::Data(_) => Ok(()),
    }
}

// The procedure definitions among nodes, in their order.
fn procedures<A: Allocator + Copy>(
    alloc: Global,
    image: &Image<'_, A>,
    order: &[Node],
) -> Result<Items<KeptProcedure>, AllocError>
    requires image { IsImage image.now }
    ensures { IfOk result (λ list. list ≡ procedures (program_of image.now) order.now) }
{
    let mut list = Items::new(alloc);
    for node in order {
        add_procedure(image, &mut list, *node)?;
    }
    Ok(list)
}

fn number_of(p: Pointer) -> u32
    ensures { result ≡ number_of p }
{
    match p {
        Pointer::Null => 0,
        Pointer::At(Base::Fixed(b), _) => b,
        Pointer::At(Base::Made(_), _) => 0,
    }
}

fn kept_value(v: Value) -> Kept
    ensures { result ≡ kept_value v }
{
    match v {
        Value::Integer(i) => Kept::Integer(i),
        Value::Boolean(b) => Kept::Boolean(b),
        Value::Char(c) => Kept::Char(c),
        Value::Unit => Kept::Unit,
        Value::Address(_) => Kept::NullAddress,
        Value::Text(p) => Kept::Text(number_of(p)),
        Value::Vector(p) => Kept::Vector(number_of(p)),
        Value::Tuple(kind, p) => Kept::Tuple(kind, number_of(p)),
    }
}

fn add_global(
    list: &mut Items<KeptGlobal>,
    seen: bool,
    number: u32,
    procedure: Option<u32>,
    value: Option<Value>,
) -> Result<(), AllocError>
    ensures { OnOk result (list.new ≡ list.old ++ global_at seen number procedure value) }
{
    match procedure {
        Some(_) => Ok(()),
        None => match value {
            None => Ok(()),
            Some(v) => {
                if seen {
                    let value = kept_value(v);
                    list.push(KeptGlobal { number, value })?;
                }
                Ok(())
            }
        },
    }
}

// The other definitions that were seen, in order of their numbers.
fn globals<A: Allocator + Copy>(
    alloc: Global,
    image: &Image<'_, A>,
    walk: &Walk,
) -> Result<Items<KeptGlobal>, AllocError>
    requires image { IsImage image.now }
    requires definitions { length image.now.globals.now < 4294967296 }
    ensures { IfOk result (λ list. list ≡ globals (program_of image.now) (flagged walk.now) 0 image.now.globals.now) }
{
    let mut list = Items::new(alloc);
    let mut number = 0u32;
    let values = image.globals;
    for value in values {
        let seen = flagged(walk, Node::Global(number));
        add_global(&mut list, seen, number, procedure(image, number), *value)?;
        number += 1;
    }
    Ok(list)
}

fn kept_bytes(alloc: Global, bytes: &[Option<u8>]) -> Result<Bytes, AllocError>
    ensures { IfOk result (λ all. all ≡ kept_bytes bytes.now) }
{
    let mut all = Items::new(alloc);
    for byte in bytes {
        match byte {
            Some(b) => all.push(*b)?,
            None => all.push(0)?,
        }
    }
    Ok(all)
}

fn kept_cells(alloc: Global, cells: &[Option<Value>]) -> Result<Items<Kept>, AllocError>
    ensures { IfOk result (λ all. all ≡ kept_cells cells.now) }
{
    let mut all = Items::new(alloc);
    for cell in cells {
        match cell {
            Some(v) => all.push(kept_value(*v))?,
            None => all.push(Kept::Unit)?,
        }
    }
    Ok(all)
}

fn kept_block(alloc: Global, contents: Contents<'_, Value>) -> Result<KeptBlock, AllocError>
    ensures { IfOk result (λ block. block ≡ kept_block (lent contents.entry)) }
{
    match contents {
        Contents::Bytes(bytes) => Ok(KeptBlock::Bytes(kept_bytes(alloc, bytes)?)),
        Contents::Cells(cells) => Ok(KeptBlock::Cells(kept_cells(alloc, cells)?)),
        Contents::Freed(_) => Ok(KeptBlock::Bytes(Items::new(alloc))),
    }
}

fn add_block(
    alloc: Global,
    list: &mut Items<NumberedBlock>,
    seen: bool,
    number: u32,
    contents: Contents<'_, Value>,
) -> Result<(), AllocError>
    ensures { OnOk result (list.new ≡ list.old ++ added_block seen (number, lent contents.entry)) }
{
    if seen {
        let block = kept_block(alloc, contents)?;
        list.push(NumberedBlock { number, block })?;
    }
    Ok(())
}

fn add_blocks(
    alloc: Global,
    walk: &Walk,
    all: &[(u32, Contents<'_, Value>)],
) -> Result<Items<NumberedBlock>, AllocError>
    ensures { IfOk result (λ list. list ≡ all_added (flagged walk.now) (map lent_numbered all.now)) }
{
    let mut list = Items::new(alloc);
    for item in all {
        let (number, contents) = *item;
        let seen = flagged(walk, Node::Data(number));
        add_block(alloc, &mut list, seen, number, contents)?;
    }
    Ok(list)
}

// The blocks that were seen, in order of their numbers.
fn blocks<A: Allocator + Copy>(
    alloc: Global,
    image: &Image<'_, A>,
    walk: &Walk,
) -> Result<Items<NumberedBlock>, NoMemory>
    ensures { IfOk result (λ list. list ≡ blocks (flagged walk.now) (program_of image.now).memory.fixed) }
{
    let all = image.store.fixed_blocks(alloc)?;
    Ok(add_blocks(alloc, walk, &all)?)
}
