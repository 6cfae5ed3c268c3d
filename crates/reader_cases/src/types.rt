//! The types of cases, and their texts.
//!
//! A type is `integer`, `boolean`, `char`, `unit`, `address`, `string`, `(vector T)`, `(record N)`, `(var N)`,
//! `(proc (T ...) T)`, or a procedure with so many parameters: `(down N COUNT T)`, the variables from N down,
//! `(up N COUNT T)`, those from N up, and `(pairs N COUNT T)`, `(proc ((var I) (var I)) unit)` for each I from N up.

use crate::texts::{members, number_of, text_of, word_of};
use crate::trouble::Trouble;
use ps_base::{Boxed, Items, MemorySink, Name, Names, Place, write_all};
use ps_datum::{Datum, DatumKind};
use ps_types::{Kinds, RecordKind, Ty, Tys, has_known_records, write_type};
use std::alloc::Global;

/// A type.
#[cycle(types)]
pub fn type_of(alloc: Global, names: &Names, d: &Datum) -> Result<Ty, Trouble> {
    match &d.kind {
        DatumKind::Symbol(name) => simple(text_of(names, *name), d.place),
        DatumKind::List(parts) => match parts.as_slice() {
            [word, rest @ ..] => form(alloc, names, d.place, word_of(names, word), rest),
            [] => Err(Trouble::Unread(d.place)),
        },
        _ => Err(Trouble::Unread(d.place)),
    }
}

fn simple(word: &[u8], at: Place) -> Result<Ty, Trouble> {
    match word {
        b"integer" => Ok(Ty::Integer),
        b"boolean" => Ok(Ty::Boolean),
        b"char" => Ok(Ty::Char),
        b"unit" => Ok(Ty::Unit),
        b"address" => Ok(Ty::Address),
        b"string" => Ok(Ty::Text),
        _ => Err(Trouble::Unread(at)),
    }
}

#[cycle(types)]
fn form(
    alloc: Global,
    names: &Names,
    at: Place,
    word: &[u8],
    parts: &[Datum],
) -> Result<Ty, Trouble> {
    match (word, parts) {
        (b"record", [kind]) => Ok(Ty::Tuple(number_of(kind)?)),
        (b"var", [number]) => Ok(Ty::Var(number_of(number)?)),
        (b"vector", [item]) => {
            let item = type_of(alloc, names, item)?;
            Ok(Ty::Vector(Boxed::new(alloc, item)?))
        }
        (b"proc", [parameters, answer]) => {
            let answer = type_of(alloc, names, answer)?;
            let answer = Boxed::new(alloc, answer)?;
            Ok(Ty::Proc(parameters_of(alloc, names, parameters)?, answer))
        }
        (b"down" | b"up" | b"pairs", [first, count, answer]) => {
            let answer = type_of(alloc, names, answer)?;
            let answer = Boxed::new(alloc, answer)?;
            Ok(Ty::Proc(
                row_of(alloc, word, number_of(first)?, number_of(count)?)?,
                answer,
            ))
        }
        _ => Err(Trouble::Unread(at)),
    }
}

#[cycle(types)]
fn parameters_of(alloc: Global, names: &Names, d: &Datum) -> Result<Tys, Trouble> {
    match &d.kind {
        DatumKind::List(parts) => types_of(alloc, names, parts.as_slice()),
        _ => Err(Trouble::Unread(d.place)),
    }
}

#[cycle(types)]
fn types_of(alloc: Global, names: &Names, ds: &[Datum]) -> Result<Tys, Trouble> {
    let mut types = Items::new(alloc);
    for d in ds {
        types.push(type_of(alloc, names, d)?)?;
    }
    Ok(types)
}

fn row_of(alloc: Global, word: &[u8], first: u32, count: u32) -> Result<Tys, Trouble> {
    let mut types = Items::new(alloc);
    for i in 0..count {
        types.push(match word {
            b"down" => Ty::Var(first.saturating_sub(i)),
            b"up" => Ty::Var(first.saturating_add(i)),
            _ => pair_of(alloc, first.saturating_add(i))?,
        })?;
    }
    Ok(types)
}

fn pair_of(alloc: Global, variable: u32) -> Result<Ty, Trouble> {
    let mut parameters = Items::new(alloc);
    parameters.push(Ty::Var(variable))?;
    parameters.push(Ty::Var(variable))?;
    Ok(Ty::Proc(parameters, Boxed::new(alloc, Ty::Unit)?))
}

fn kind_of(alloc: Global, d: &Datum) -> Result<RecordKind, Trouble> {
    let name = match &d.kind {
        DatumKind::Symbol(name) => *name,
        _ => Name(number_of(d)?),
    };
    Ok(RecordKind {
        name,
        fields: Items::new(alloc),
        maker: Items::new(alloc),
    })
}

/// Kinds of records.
pub fn kinds_of(alloc: Global, d: &Datum) -> Result<Kinds, Trouble> {
    let mut kinds = Items::new(alloc);
    for kind in members(d)? {
        kinds.push(kind_of(alloc, kind)?)?;
    }
    Ok(kinds)
}

/// What a sink of at most two bytes a call, which fails at the call of this number, takes of a mark and the text of a type.
pub fn taken(
    alloc: Global,
    names: &Names,
    failing: u32,
    mark: &[u8],
    kinds: &[RecordKind],
    t: &Ty,
) -> Result<Vec<u8>, Trouble> {
    if !has_known_records(t, kinds, names) {
        return Ok(Vec::from_slice(alloc, b"unknown")?);
    }
    let failing = Items::from_slice(alloc, &[u64::from(failing)])?;
    let mut sink = MemorySink::new(alloc, 5000, 2, failing)?;
    let is_whole = write_all(&mut sink, mark).is_ok()
        && write_type(t, kinds, names, &mut sink).is_ok();
    let mut out = Vec::from_slice(alloc, if is_whole { b"" } else { b"fault ".as_slice() })?;
    out.extend_from_slice(sink.bytes())?;
    Ok(out)
}
