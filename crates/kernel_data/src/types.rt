//! Types and kinds of records: `integer`, `char`, `unit`, `(vector T)`, `(tuple K)`, `(proc (T ...) T)`, `(var N)`, and
//! `(deep N)`, a vector of vectors, and so on, so many levels deep, of characters.

use crate::data::{members, number_of, numbers_of};
use crate::trouble::Trouble;
use crate::words::{TYPES, TypeWord, meaning_of};
use ps_base::{Boxed, Items, Name, Names, Place};
use ps_datum::{Datum, DatumKind};
use ps_types::{RecordKind, Ty, Tys};
use std::alloc::Global;

#[cycle(ty)]
fn ty(alloc: Global, names: &Names, d: &Datum) -> Result<Ty, Trouble> {
    match &d.kind {
        DatumKind::Symbol(_) => simple(meaning_of(TYPES, names, d)?, d.place),
        DatumKind::List(parts) => match parts.as_slice() {
            [word, rest @ ..] => form(alloc, names, d.place, meaning_of(TYPES, names, word)?, rest),
            [] => Err(Trouble::Unread(d.place)),
        },
        _ => Err(Trouble::Unread(d.place)),
    }
}

fn simple(word: TypeWord, at: Place) -> Result<Ty, Trouble> {
    match word {
        TypeWord::Integer => Ok(Ty::Integer),
        TypeWord::Char => Ok(Ty::Char),
        TypeWord::Unit => Ok(Ty::Unit),
        _ => Err(Trouble::Unread(at)),
    }
}

#[cycle(ty)]
fn form(
    alloc: Global,
    names: &Names,
    at: Place,
    word: TypeWord,
    parts: &[Datum],
) -> Result<Ty, Trouble> {
    match (word, parts) {
        (TypeWord::Vector, [item]) => {
            let item = ty(alloc, names, item)?;
            Ok(Ty::Vector(Boxed::new(alloc, item)?))
        }
        (TypeWord::Tuple, [kind]) => Ok(Ty::Tuple(number_of(kind)?)),
        (TypeWord::Var, [number]) => Ok(Ty::Var(number_of(number)?)),
        (TypeWord::Proc, [parameters, answer]) => {
            let answer = ty(alloc, names, answer)?;
            let answer = Boxed::new(alloc, answer)?;
            Ok(Ty::Proc(parameters_of(alloc, names, parameters)?, answer))
        }
        (TypeWord::Deep, [levels]) => deep(alloc, number_of(levels)?),
        _ => Err(Trouble::Unread(at)),
    }
}

#[cycle(ty)]
fn parameters_of(alloc: Global, names: &Names, d: &Datum) -> Result<Tys, Trouble> {
    match &d.kind {
        DatumKind::List(parts) => types(alloc, names, parts.as_slice()),
        _ => Err(Trouble::Unread(d.place)),
    }
}

#[cycle(ty)]
fn types(alloc: Global, names: &Names, ds: &[Datum]) -> Result<Tys, Trouble> {
    let mut all = Items::new(alloc);
    for d in ds {
        all.push(ty(alloc, names, d)?)?;
    }
    Ok(all)
}

fn deep(alloc: Global, levels: u32) -> Result<Ty, Trouble> {
    let mut t = Ty::Char;
    for _ in 0..levels {
        t = Ty::Vector(Boxed::new(alloc, t)?);
    }
    Ok(t)
}

/// A kind of records, by the types of its fields and the fields that its maker takes.
pub fn kind(
    alloc: Global,
    names: &Names,
    fields: &Datum,
    maker: &Datum,
) -> Result<RecordKind, Trouble> {
    Ok(RecordKind {
        name: Name(0),
        fields: types(alloc, names, members(fields)?)?,
        maker: numbers_of(alloc, maker)?,
    })
}
