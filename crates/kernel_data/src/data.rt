//! What the data of a case are made of.

use crate::trouble::Trouble;
use ps_base::{Items, Name, Names, Place};
use ps_datum::{Datum, DatumKind};
use ps_kernel::{Labels, Numbers};
use std::alloc::Global;

/// Where what has no place of its own stands.
pub const PLACE: Place = Place {
    file: 0,
    line: 1,
    column: 1,
};

/// The text of a name, or nothing where the table has none.
pub fn text_of(names: &Names, name: Name) -> &[u8] {
    if name.0 < names.len() {
        names.text(name)
    } else {
        b""
    }
}

/// The members of a list.
pub fn members(d: &Datum) -> Result<&[Datum], Trouble> {
    match &d.kind {
        DatumKind::List(parts) => Ok(parts.as_slice()),
        _ => Err(Trouble::Unread(d.place)),
    }
}

/// The word at the head of a list, and what is behind it.
pub fn form_of(d: &Datum) -> Result<(&Datum, &[Datum]), Trouble> {
    match members(d)? {
        [word, rest @ ..] => Ok((word, rest)),
        [] => Err(Trouble::Unread(d.place)),
    }
}

/// An integer.
pub fn integer_of(d: &Datum) -> Result<i64, Trouble> {
    match &d.kind {
        DatumKind::Integer(i) => Ok(*i),
        _ => Err(Trouble::Unread(d.place)),
    }
}

/// A number.
pub fn number_of(d: &Datum) -> Result<u32, Trouble> {
    u32::try_from(integer_of(d)?).map_err(|_| Trouble::Unread(d.place))
}

/// A number of turns or calls.
pub fn count_of(d: &Datum) -> Result<u64, Trouble> {
    Ok(u64::from(number_of(d)?))
}

/// `#t` or `#f`.
pub fn flag_of(d: &Datum) -> Result<bool, Trouble> {
    match &d.kind {
        DatumKind::Boolean(b) => Ok(*b),
        _ => Err(Trouble::Unread(d.place)),
    }
}

/// The bytes of a string.
pub fn bytes_of(d: &Datum) -> Result<&[u8], Trouble> {
    match &d.kind {
        DatumKind::Text(bytes) => Ok(bytes.as_slice()),
        _ => Err(Trouble::Unread(d.place)),
    }
}

/// Numbers, each in a datum.
pub fn all_numbers(alloc: Global, ds: &[Datum]) -> Result<Numbers, Trouble> {
    let mut numbers = Items::new(alloc);
    for d in ds {
        numbers.push(number_of(d)?)?;
    }
    Ok(numbers)
}

/// The numbers in a list, or a number alone.
pub fn numbers_of(alloc: Global, d: &Datum) -> Result<Numbers, Trouble> {
    match &d.kind {
        DatumKind::List(parts) => all_numbers(alloc, parts.as_slice()),
        _ => Ok(Items::from_slice(alloc, &[number_of(d)?])?),
    }
}

// An integer, or the code of a character.
fn label_of(d: &Datum) -> Result<i64, Trouble> {
    match &d.kind {
        DatumKind::Char(code) => Ok(i64::from(*code)),
        _ => integer_of(d),
    }
}

// So many integers from one on.
fn labels_from(alloc: Global, first: u32, count: u32) -> Result<Labels, Trouble> {
    let mut labels = Items::new(alloc);
    for i in 0..count {
        labels.push(i64::from(first.wrapping_add(i)))?;
    }
    Ok(labels)
}

/// The labels in a list, or, of a vector, its second number of integers from its first one on.
pub fn labels_of(alloc: Global, d: &Datum) -> Result<Labels, Trouble> {
    if let DatumKind::Vector(parts) = &d.kind {
        return match parts.as_slice() {
            [first, count] => labels_from(alloc, number_of(first)?, number_of(count)?),
            _ => Err(Trouble::Unread(d.place)),
        };
    }
    let mut labels = Items::new(alloc);
    for label in members(d)? {
        labels.push(label_of(label)?)?;
    }
    Ok(labels)
}
