//! What the data of a case stand for.

use crate::trouble::Trouble;
use byte_store::{Base, Pointer, Value};
use ps_base::Names;
use ps_datum::{Datum, DatumKind};
use std::alloc::Global;

/// The word that a datum is; none, where it is no symbol.
pub fn word<'a>(names: &'a Names, d: &Datum) -> &'a [u8] {
    match &d.kind {
        DatumKind::Symbol(name) if name.0 < names.len() => names.text(*name),
        _ => b"",
    }
}

/// The members of a list.
pub fn members(d: &Datum) -> Result<&[Datum], Trouble> {
    match &d.kind {
        DatumKind::List(parts) => Ok(parts.as_slice()),
        _ => Err(Trouble::Unread(d.place)),
    }
}

/// The first member of a list, and what is behind it.
pub fn form_of(d: &Datum) -> Result<(&Datum, &[Datum]), Trouble> {
    match members(d)? {
        [first, rest @ ..] => Ok((first, rest)),
        [] => Err(Trouble::Unread(d.place)),
    }
}

/// An integer.
pub fn integer_of(d: &Datum) -> Result<i64, Trouble> {
    match &d.kind {
        DatumKind::Integer(i) => Ok(*i),
        _ => Err(Trouble::Unread(d.place)),
    }
}

/// A number of 32 bits.
pub fn number_of(d: &Datum) -> Result<u32, Trouble> {
    u32::try_from(integer_of(d)?).map_err(|_| Trouble::Unread(d.place))
}

/// A byte.
pub fn byte_of(d: &Datum) -> Result<u8, Trouble> {
    u8::try_from(integer_of(d)?).map_err(|_| Trouble::Unread(d.place))
}

/// `#t` or `#f`.
pub fn flag_of(d: &Datum) -> Result<bool, Trouble> {
    match &d.kind {
        DatumKind::Boolean(b) => Ok(*b),
        _ => Err(Trouble::Unread(d.place)),
    }
}

// The block of this kind and number.
fn base_of(names: &Names, kind: &Datum, number: &Datum) -> Result<Base, Trouble> {
    let number = number_of(number)?;
    match word(names, kind) {
        b"s" => Ok(Base::Fixed(number)),
        b"d" => Ok(Base::Made(number)),
        _ => Err(Trouble::Unread(kind.place)),
    }
}

// A block and an offset, or nothing for null.
fn pointer_of(names: &Names, first: &Datum, parts: &[Datum]) -> Result<Pointer, Trouble> {
    match parts {
        [] => Ok(Pointer::Null),
        [kind, number, offset] => {
            let offset = integer_of(offset)?;
            Ok(Pointer::At(base_of(names, kind, number)?, offset))
        }
        _ => Err(Trouble::Unread(first.place)),
    }
}

fn record_of(names: &Names, first: &Datum, parts: &[Datum]) -> Result<Value, Trouble> {
    match parts {
        [kind, pointer @ ..] => {
            let kind = number_of(kind)?;
            Ok(Value::Tuple(kind, pointer_of(names, first, pointer)?))
        }
        [] => Err(Trouble::Unread(first.place)),
    }
}

fn char_of(first: &Datum, parts: &[Datum]) -> Result<Value, Trouble> {
    match parts {
        [code] => Ok(Value::Char(byte_of(code)?)),
        _ => Err(Trouble::Unread(first.place)),
    }
}

// A value that is written as a list.
fn listed_of(names: &Names, d: &Datum) -> Result<Value, Trouble> {
    let (first, parts) = form_of(d)?;
    match word(names, first) {
        b"address" => Ok(Value::Address(pointer_of(names, first, parts)?)),
        b"string" => Ok(Value::Text(pointer_of(names, first, parts)?)),
        b"vector" => Ok(Value::Vector(pointer_of(names, first, parts)?)),
        b"record" => record_of(names, first, parts),
        b"char" => char_of(first, parts),
        _ => Err(Trouble::Unread(first.place)),
    }
}

/// A value.
pub fn value_of(names: &Names, d: &Datum) -> Result<Value, Trouble> {
    match &d.kind {
        DatumKind::Integer(i) => Ok(Value::Integer(*i)),
        DatumKind::Boolean(b) => Ok(Value::Boolean(*b)),
        DatumKind::Char(code) => Ok(Value::Char(*code)),
        DatumKind::Symbol(_) => Ok(Value::Unit),
        _ => listed_of(names, d),
    }
}

/// Values.
pub fn values_of(alloc: Global, names: &Names, parts: &[Datum]) -> Result<Vec<Value>, Trouble> {
    let mut values = Vec::new(alloc);
    for d in parts {
        values.push(value_of(names, d)?)?;
    }
    Ok(values)
}
