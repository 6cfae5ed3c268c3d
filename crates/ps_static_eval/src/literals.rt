//! The literals of a kernel: their cells, their values, and the fixed blocks that they lie in.

ghost use Rattle.std.specs.Prelude.{◌≡◌, ◌+◌, ◌++◌, ◌∷◌, [], ℕ, List, length, map, IfOk};
ghost use Rattle.byte_store.specs.declared.pointer.Value.{Value as ValueSpec};
ghost use Rattle.byte_store.specs.Blocks.{Block, next_number};
ghost use Rattle.ps_prims.specs.Cells.{cells_in};
ghost use Rattle.ps_meaning.specs.Literals.{laid, lay_parts};
ghost use Rattle.ps_static_eval.specs.InsideLaying.{filled, left_after, text_block, vector_block};

use byte_store::{Base, Pointer, Store, Value};
use ps_base::{Bytes, Items, NoMemory};
use ps_datum::{Datum, DatumKind};
use std::alloc::{Allocator, Global};

/// The first number that no fixed block has.
pub const NUMBERS: u32 = 4_294_967_295;

// ---- cells

// So many cells are paid for, if they are there.
fn take(asked: u64, cells: u64) -> Option<u64>
    ensures { result ≡ left_after asked cells }
{
    if asked <= cells {
        Some(cells - asked)
    } else {
        None
    }
}

// The cells of a literal are paid for, if they are there. A string of L bytes has the cells of L + 1 bytes.
#[cycle(paying)]
fn pay(d: &Datum, cells: u64) -> Option<u64>
    ensures { (n : ℕ) → result ≡ left_after (cells_in (laid d.now n).blocks) cells }
{
    match &d.kind {
        DatumKind::Boolean(_) => take(0, cells),
        DatumKind::Integer(_) => take(0, cells),
        DatumKind::Char(_) => take(0, cells),
        DatumKind::Text(bytes) => take(bytes.len() as u64 / 8 + 1, cells),
        DatumKind::Symbol(_) => take(0, cells),
        DatumKind::List(_) => take(0, cells),
        DatumKind::Dotted(_, _) => take(0, cells),
        DatumKind::Vector(parts) => match take(parts.len() as u64, cells) {
            Some(left) => pay_each(parts.as_slice(), left),
            None => None,
        },
    }
}

// The same of literals in order.
#[cycle(paying)]
fn pay_each(parts: &[Datum], cells: u64) -> Option<u64>
    ensures { (n : ℕ) → result ≡ left_after (cells_in (lay_parts (map laid parts.now) n).blocks) cells }
{
    let mut left = cells;
    for part in parts {
        match pay(part, left) {
            Some(rest) => left = rest,
            None => return None,
        }
    }
    Some(left)
}

/// What is left of so many cells where those of the literals are paid for, if there are so many.
pub fn pay_all(literals: &[Datum], cells: u64) -> Option<u64>
    ensures { result ≡ left_after (cells_in (lay_parts (map laid literals.now) 0).blocks) cells }
{
    pay_each(literals, cells)
}

// ---- values

// The number behind another, where there is one.
fn next(number: u32) -> Result<u32, NoMemory>
    ensures { IfOk result (λ r. r ≡ number + 1) }
{
    match number.checked_add(1) {
        Some(next) => Ok(next),
        None => Err(NoMemory),
    }
}

// The number of the block behind those of a literal, where its own begin at a number.
#[cycle(laying)]
fn end_of(d: &Datum, start: u32) -> Result<u32, NoMemory>
    ensures { IfOk result (λ r. r ≡ start + length (laid d.now start).blocks) }
{
    match &d.kind {
        DatumKind::Boolean(_) => Ok(start),
        DatumKind::Integer(_) => Ok(start),
        DatumKind::Char(_) => Ok(start),
        DatumKind::Text(_) => next(start),
        DatumKind::Symbol(_) => Ok(start),
        DatumKind::List(_) => Ok(start),
        DatumKind::Dotted(_, _) => Ok(start),
        DatumKind::Vector(parts) => end_of_each(parts.as_slice(), next(start)?),
    }
}

#[cycle(laying)]
fn end_of_each(parts: &[Datum], start: u32) -> Result<u32, NoMemory>
    ensures { IfOk result (λ r. r ≡ start + length (lay_parts (map laid parts.now) start).blocks) }
{
    let mut end = start;
    for part in parts {
        end = end_of(part, end)?;
    }
    Ok(end)
}

// The value of a literal whose blocks begin at a number.
fn value_of(d: &Datum, start: u32) -> Value
    ensures { result ≡ (laid d.now start).value }
{
    match &d.kind {
        DatumKind::Boolean(b) => Value::Boolean(*b),
        DatumKind::Integer(i) => Value::Integer(*i),
        DatumKind::Char(code) => Value::Char(*code),
        DatumKind::Text(_) => Value::Text(Pointer::At(Base::Fixed(start), 0)),
        DatumKind::Symbol(_) => Value::Unit,
        DatumKind::List(_) => Value::Unit,
        DatumKind::Dotted(_, _) => Value::Unit,
        DatumKind::Vector(_) => Value::Vector(Pointer::At(Base::Fixed(start), 0)),
    }
}

/// The values of literals in order, whose blocks begin at a number.
///
/// # Errors
///
/// `NoMemory` where memory runs out, or numbers of blocks.
pub fn values_of(alloc: Global, parts: &[Datum], start: u32) -> Result<Items<Value>, NoMemory>
    ensures { IfOk result (λ values. values ≡ (lay_parts (map laid parts.now) start).values) }
{
    let mut values = Items::new(alloc);
    let mut first = start;
    for part in parts {
        values.push(value_of(part, first))?;
        first = end_of(part, first)?;
    }
    Ok(values)
}

// ---- blocks

// The bytes of a string, with the 0 that ends it.
fn ended(alloc: Global, bytes: &[u8]) -> Result<Bytes, NoMemory>
    ensures { IfOk result (λ r. r ≡ bytes.now ++ 0 ∷ []) }
{
    let mut all = Items::from_slice(alloc, bytes)?;
    all.push(0)?;
    Ok(all)
}

// A literal is laid out behind the others, its own block before those of its parts.
#[cycle(filling)]
fn lay<A: Allocator + Copy>(
    alloc: Global,
    d: &Datum,
    store: &mut Store<Value, A>,
) -> Result<(), NoMemory>
    ensures { (bs : List (Block ValueSpec)) → store.old ≡ filled bs → IfOk result (λ done. store.new ≡ filled (bs ++ (laid d.now (length bs)).blocks)) }
{
    match &d.kind {
        DatumKind::Boolean(_) => Ok(()),
        DatumKind::Integer(_) => Ok(()),
        DatumKind::Char(_) => Ok(()),
        DatumKind::Text(bytes) => Ok(lay_text(alloc, bytes.as_slice(), store)?),
        DatumKind::Symbol(_) => Ok(()),
        DatumKind::List(_) => Ok(()),
        DatumKind::Dotted(_, _) => Ok(()),
        DatumKind::Vector(parts) => {
            lay_cells(alloc, parts.as_slice(), store)?;
            Ok(lay_each(alloc, parts.as_slice(), store)?)
        }
    }
}

// The block of a string.
fn lay_text<A: Allocator + Copy>(
    alloc: Global,
    bytes: &[u8],
    store: &mut Store<Value, A>,
) -> Result<(), NoMemory>
    ensures { (bs : List (Block ValueSpec)) → store.old ≡ filled bs → IfOk result (λ done. store.new ≡ filled (bs ++ text_block bytes.now ∷ [])) }
{
    let number = store.next_fixed();
    if number >= NUMBERS {
        return Err(NoMemory);
    }
    let all = ended(alloc, bytes)?;
    Ok(store.fix_bytes(number, all.as_slice())?)
}

// The block of a vector, whose parts get their blocks behind it.
fn lay_cells<A: Allocator + Copy>(
    alloc: Global,
    parts: &[Datum],
    store: &mut Store<Value, A>,
) -> Result<(), NoMemory>
    ensures { (bs : List (Block ValueSpec)) → store.old ≡ filled bs → IfOk result (λ done. store.new ≡ filled (bs ++ vector_block parts.now (length bs) ∷ [])) }
{
    let number = store.next_fixed();
    if number >= NUMBERS {
        return Err(NoMemory);
    }
    let values = values_of(alloc, parts, number + 1)?;
    Ok(store.fix_cells(number, values)?)
}

/// Literals are laid out in order behind the blocks that are there.
///
/// # Errors
///
/// `NoMemory` where memory runs out, or numbers of blocks.
#[cycle(filling)]
pub fn lay_each<A: Allocator + Copy>(
    alloc: Global,
    parts: &[Datum],
    store: &mut Store<Value, A>,
) -> Result<(), NoMemory>
    ensures { (bs : List (Block ValueSpec)) → store.old ≡ filled bs → IfOk result (λ done. store.new ≡ filled (bs ++ (lay_parts (map laid parts.now) (length bs)).blocks)) }
{
    for part in parts {
        lay(alloc, part, store)?;
    }
    Ok(())
}
