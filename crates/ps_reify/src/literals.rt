//! The values of literals: which block each begins at.

ghost use Rattle.std.specs.Prelude.{◌≡◌, ◌+◌, ◌<◌, length, map, IfOk};
ghost use Rattle.ps_meaning.specs.Literals.{laid, lay_parts, lay_all};

use byte_store::{Base, Pointer, Value};
use ps_base::Items;
use ps_datum::{Datum, DatumKind};
use std::alloc::{AllocError, Global};

/// The values of all literals, in order of their numbers.
pub fn values_of(alloc: Global, literals: &[Datum]) -> Result<Items<Value>, AllocError>
    requires { length (lay_all literals.now).blocks < 4294967296 }
    ensures { IfOk result (λ values. values ≡ (lay_all literals.now).values) }
{
    let mut values = Items::new(alloc);
    let mut start = 0u32;
    for literal in literals {
        values.push(value_of(literal, start))?;
        start = end_of(literal, start);
    }
    Ok(values)
}

// The number of the block behind those of a datum, where its own begin at a number.
#[cycle(laying)]
fn end_of(d: &Datum, start: u32) -> u32
    requires { start + length (laid d.now start).blocks < 4294967296 }
    ensures { result ≡ start + length (laid d.now start).blocks }
{
    match &d.kind {
        DatumKind::Boolean(_) => start,
        DatumKind::Integer(_) => start,
        DatumKind::Char(_) => start,
        DatumKind::Text(_) => start + 1,
        DatumKind::Symbol(_) => start,
        DatumKind::List(_) => start,
        DatumKind::Dotted(_, _) => start,
        DatumKind::Vector(parts) => end_of_all(parts.as_slice(), start + 1),
    }
}

#[cycle(laying)]
fn end_of_all(parts: &[Datum], start: u32) -> u32
    requires { start + length (lay_parts (map laid parts.now) start).blocks < 4294967296 }
    ensures { result ≡ start + length (lay_parts (map laid parts.now) start).blocks }
{
    let mut end = start;
    for part in parts {
        end = end_of(part, end);
    }
    end
}

// The value of a datum whose blocks begin at a number.
fn value_of(d: &Datum, start: u32) -> Value
    ensures { result ≡ (laid d.now start).value }
{
    match &d.kind {
        DatumKind::Boolean(b) => Value::Boolean(*b),
        DatumKind::Integer(i) => Value::Integer(*i),
        DatumKind::Char(code) => Value::Char(*code),
        DatumKind::Text(_) => Value::Text(Pointer::At(Base::Fixed(start), 0)),
        DatumKind::Symbol(_) => Value::Unit,
        DatumKind::List(_) => Value::Unit,
        DatumKind::Dotted(_, _) => Value::Unit,
        DatumKind::Vector(_) => Value::Vector(Pointer::At(Base::Fixed(start), 0)),
    }
}
