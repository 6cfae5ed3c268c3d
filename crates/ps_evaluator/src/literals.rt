//! The values of constants.

ghost use Rattle.std.specs.Prelude.{◌≡◌, ◌+◌, length, map, slice_get, IfOk};
ghost use Rattle.ps_meaning.specs.Literals.{laid, lay_parts};
ghost use Rattle.ps_meaning.specs.Eval.{constant};

use byte_store::{Base, Pointer, Value};
use ps_datum::{Datum, DatumKind};
use ps_kernel::{Constant, Kernel};

/// The literals have more blocks than there are numbers of fixed blocks.
#[derive(Clone, Copy, Debug, PartialEq, Eq)]
pub struct TooManyBlocks;

// The number of the next block.
fn next(number: u32) -> Result<u32, TooManyBlocks>
    ensures { IfOk result (λ r. r ≡ number + 1) }
{
    match number.checked_add(1) {
        Some(next) => Ok(next),
        None => Err(TooManyBlocks),
    }
}

// The number of the block behind those of a literal, where its own begin at a number.
#[cycle(laying)]
fn end_of(d: &Datum, start: u32) -> Result<u32, TooManyBlocks>
    ensures { IfOk result (λ r. r ≡ start + length (laid d.now start).blocks) }
{
    match &d.kind {
        DatumKind::Boolean(_) => Ok(start),
        DatumKind::Integer(_) => Ok(start),
        DatumKind::Char(_) => Ok(start),
        DatumKind::Text(_) => next(start),
        DatumKind::Symbol(_) => Ok(start),
        DatumKind::List(_) => Ok(start),
        DatumKind::Dotted(_, _) => Ok(start),
        DatumKind::Vector(parts) => end_of_all(parts.as_slice(), next(start)?),
    }
}

#[cycle(laying)]
fn end_of_all(parts: &[Datum], start: u32) -> Result<u32, TooManyBlocks>
    ensures { IfOk result (λ r. r ≡ start + length (lay_parts (map laid parts.now) start).blocks) }
{
    let mut end = start;
    for part in parts {
        end = end_of(part, end)?;
    }
    Ok(end)
}

// The value of a literal whose blocks begin at a number.
fn value_of(d: &Datum, start: u32) -> Value
    ensures { result ≡ (laid d.now start).value }
{
    match &d.kind {
        DatumKind::Boolean(b) => Value::Boolean(*b),
        DatumKind::Integer(i) => Value::Integer(*i),
        DatumKind::Char(code) => Value::Char(*code),
        DatumKind::Text(_) => Value::Text(Pointer::At(Base::Fixed(start), 0)),
        DatumKind::Symbol(_) => Value::Unit,
        DatumKind::List(_) => Value::Unit,
        DatumKind::Dotted(_, _) => Value::Unit,
        DatumKind::Vector(_) => Value::Vector(Pointer::At(Base::Fixed(start), 0)),
    }
}

// The value of a literal by its number among these, whose blocks begin at a number.
fn value_in(literals: &[Datum], start: u32, number: usize) -> Result<Option<Value>, TooManyBlocks>
    ensures { IfOk result (λ r. r ≡ slice_get (lay_parts (map laid literals.now) start).values number) }
{
    match literals {
        [] => Ok(None),
        [literal, rest @ ..] => {
            if number == 0 {
                Ok(Some(value_of(literal, start)))
            } else {
                value_in(rest, end_of(literal, start)?, number - 1)
            }
        }
    }
}

/// The value of a constant, where it has one.
pub fn constant_of(kernel: &Kernel, c: Constant) -> Result<Option<Value>, TooManyBlocks>
    ensures { IfOk result (λ r. r ≡ constant kernel.now c) }
{
    match c {
        Constant::Integer(i) => Ok(Some(Value::Integer(i))),
        Constant::Boolean(b) => Ok(Some(Value::Boolean(b))),
        Constant::Char(code) => Ok(Some(Value::Char(code))),
        Constant::Unit => Ok(Some(Value::Unit)),
        Constant::NullAddress => Ok(Some(Value::Address(Pointer::Null))),
        Constant::Quoted(q) => value_in(kernel.literals.as_slice(), 0, q as usize),
    }
}
