//! Cases, and the line of each.

use crate::meanings::{Bound, FREE, Meanings};
use crate::showing::{put, put_form};
use crate::trouble::Trouble;
use ps_base::{Bytes, Names};
use ps_datum::{Datum, DatumKind};
use ps_pattern::{Syntax, compile_rules, syntax_of, transcribe};
use ps_read::read_all;
use std::alloc::Global;

/// The lines of all cases.
pub fn lines_of(alloc: Global, text: &[u8]) -> Result<Bytes, Trouble> {
    if text.len() > 4_194_304 {
        return Err(Trouble::TooLong);
    }
    let mut names = Names::new(alloc);
    let cases = read_all(alloc, text, 0, &mut names)?;
    let mut page = Bytes::new(alloc);
    for case in cases.as_slice() {
        let line = put_line(alloc, &names, case, &mut page);
        end_line(alloc, line, &mut page)?;
    }
    Ok(page)
}

// Ends a line, behind the trouble that it met.
fn end_line(alloc: Global, line: Result<(), Trouble>, page: &mut Bytes) -> Result<(), Trouble> {
    if let Err(trouble) = line {
        put(format!(in alloc; "{trouble:?}")?.as_bytes(), page)?;
    }
    Ok(page.push(b'\n')?)
}

fn put_line(alloc: Global, names: &Names, case: &Datum, page: &mut Bytes) -> Result<(), Trouble> {
    match form_of(names, case) {
        (b"rules", [r]) => put_rules(alloc, names, r, page),
        (b"use", [r, f]) => {
            let form = filled(alloc, names, FREE, 1_000, r, f)?;
            put_form(alloc, names, false, &form, page)
        }
        (b"room", [n, r, f]) => {
            let room = u64::from(number_of(n)?);
            let form = filled(alloc, names, FREE, room, r, f)?;
            put_form(alloc, names, false, &form, page)
        }
        (b"places", [r, f]) => {
            let form = filled(alloc, names, FREE, 1_000, r, f)?;
            put_form(alloc, names, true, &form, page)
        }
        (b"bound", [at_use, at_rules, r, f]) => {
            let scope = Meanings {
                at_use: bound_of(at_use)?,
                at_rules: bound_of(at_rules)?,
            };
            let form = filled(alloc, names, scope, 1_000, r, f)?;
            put_form(alloc, names, false, &form, page)
        }
        (b"then", [r, f, g]) => put_then(alloc, names, r, f, g, page),
        _ => Err(Trouble::Unread(case.place)),
    }
}

// Whether a datum is a form of rules.
fn put_rules(alloc: Global, names: &Names, r: &Datum, page: &mut Bytes) -> Result<(), Trouble> {
    let _rules = compile_rules(alloc, &syntax_of(alloc, r)?, names)?;
    put(b"rules", page)
}

// What a use stands for.
fn filled(
    alloc: Global,
    names: &Names,
    scope: Meanings,
    room: u64,
    r: &Datum,
    f: &Datum,
) -> Result<Syntax, Trouble> {
    let rules = compile_rules(alloc, &syntax_of(alloc, r)?, names)?;
    let form = syntax_of(alloc, f)?;
    Ok(transcribe(alloc, &rules, &form, &scope, 7, room)?)
}

// What a use stands for under the rules that another use stands for.
fn put_then(
    alloc: Global,
    names: &Names,
    r: &Datum,
    f: &Datum,
    g: &Datum,
    page: &mut Bytes,
) -> Result<(), Trouble> {
    let rules = filled(alloc, names, FREE, 1_000, r, f)?;
    let rules = compile_rules(alloc, &rules, names)?;
    let form = transcribe(alloc, &rules, &syntax_of(alloc, g)?, &FREE, 8, 1_000)?;
    put_form(alloc, names, false, &form, page)
}

// The word that a list begins with, and what is behind it.
fn form_of<'a>(names: &'a Names, d: &'a Datum) -> (&'a [u8], &'a [Datum]) {
    match &d.kind {
        DatumKind::List(parts) => match parts.as_slice() {
            [first, rest @ ..] => (word(names, first), rest),
            [] => (b"", &[]),
        },
        _ => (b"", &[]),
    }
}

// The word that a datum is; none, where it is no symbol.
fn word<'a>(names: &'a Names, d: &Datum) -> &'a [u8] {
    match &d.kind {
        DatumKind::Symbol(name) if name.0 < names.len() => names.text(*name),
        _ => b"",
    }
}

fn number_of(d: &Datum) -> Result<u32, Trouble> {
    match &d.kind {
        DatumKind::Integer(i) => u32::try_from(*i).map_err(|_| Trouble::Unread(d.place)),
        _ => Err(Trouble::Unread(d.place)),
    }
}

// `(NAME N)`, or `()`.
fn bound_of(d: &Datum) -> Result<Option<Bound>, Trouble> {
    match &d.kind {
        DatumKind::List(parts) => match parts.as_slice() {
            [] => Ok(None),
            [name, local] => Ok(Some(Bound {
                name: name_of(name)?,
                local: number_of(local)?,
            })),
            _ => Err(Trouble::Unread(d.place)),
        },
        _ => Err(Trouble::Unread(d.place)),
    }
}

fn name_of(d: &Datum) -> Result<u32, Trouble> {
    match &d.kind {
        DatumKind::Symbol(name) => Ok(name.0),
        _ => Err(Trouble::Unread(d.place)),
    }
}
