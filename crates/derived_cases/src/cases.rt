//! Cases, and the line of each.

use crate::meanings::Meanings;
use crate::showing::{put, put_parts, put_quoted, put_type};
use crate::trouble::Trouble;
use crate::words::core_of;
use ps_base::{Bytes, Names};
use ps_datum::{Datum, DatumKind};
use ps_derived::{Parts, parts, quoted, type_of};
use ps_pattern::syntax_of;
use ps_read::read_all;
use std::alloc::Global;

/// The lines of all cases.
pub fn lines_of(alloc: Global, text: &[u8]) -> Result<Bytes, Trouble> {
    if text.len() > 4_194_304 {
        return Err(Trouble::TooLong);
    }
    let mut names = Names::new(alloc);
    let cases = read_all(alloc, text, 0, &mut names)?;
    let mut page = Bytes::new(alloc);
    for case in cases.as_slice() {
        let line = put_line(alloc, &names, case, &mut page);
        end_line(alloc, line, &mut page)?;
    }
    Ok(page)
}

// Ends a line, behind the trouble that it met.
fn end_line(alloc: Global, line: Result<(), Trouble>, page: &mut Bytes) -> Result<(), Trouble> {
    if let Err(trouble) = line {
        put(format!(in alloc; "{trouble:?}")?.as_bytes(), page)?;
    }
    Ok(page.push(b'\n')?)
}

fn put_line(alloc: Global, names: &Names, case: &Datum, page: &mut Bytes) -> Result<(), Trouble> {
    match form_of(names, case) {
        (b"parts", [f]) => put_taken(alloc, names, Meanings { local: None }, f, page),
        (b"bound", [name, f]) => {
            let scope = Meanings {
                local: Some(name_of(name)?),
            };
            put_taken(alloc, names, scope, f, page)
        }
        (b"count", [f]) => put_count(alloc, names, f, page),
        (b"quoted", [d]) => {
            let form = syntax_of(alloc, d)?;
            put_quoted(alloc, names, &quoted(&form, d.place)?, page)
        }
        (b"type", [t]) => {
            let form = syntax_of(alloc, t)?;
            put_type(names, &type_of(alloc, &form, names, t.place)?, page)
        }
        _ => Err(Trouble::Unread(case.place)),
    }
}

fn put_taken(
    alloc: Global,
    names: &Names,
    scope: Meanings,
    f: &Datum,
    page: &mut Bytes,
) -> Result<(), Trouble> {
    let Some(core) = core_of(form_of(names, f).0) else {
        return Err(Trouble::Unread(f.place));
    };
    let form = syntax_of(alloc, f)?;
    put_parts(
        alloc,
        names,
        &parts(alloc, core, &form, names, &scope)?,
        page,
    )
}

// How many bindings a form of `let` has.
fn put_count(alloc: Global, names: &Names, f: &Datum, page: &mut Bytes) -> Result<(), Trouble> {
    let Some(core) = core_of(form_of(names, f).0) else {
        return Err(Trouble::Unread(f.place));
    };
    let form = syntax_of(alloc, f)?;
    match parts(alloc, core, &form, names, &Meanings { local: None })? {
        Parts::Let(bindings, _) => put(format!(in alloc; "{}", bindings.len())?.as_bytes(), page),
        _ => Err(Trouble::Unread(f.place)),
    }
}

// The word that a list begins with, and what is behind it.
fn form_of<'a>(names: &'a Names, d: &'a Datum) -> (&'a [u8], &'a [Datum]) {
    match &d.kind {
        DatumKind::List(parts) => match parts.as_slice() {
            [first, rest @ ..] => (word(names, first), rest),
            [] => (b"", &[]),
        },
        DatumKind::Dotted(parts, _) => match parts.as_slice() {
            [first, ..] => (word(names, first), &[]),
            [] => (b"", &[]),
        },
        _ => (b"", &[]),
    }
}

// The word that a datum is; none, where it is no symbol.
fn word<'a>(names: &'a Names, d: &Datum) -> &'a [u8] {
    match &d.kind {
        DatumKind::Symbol(name) if name.0 < names.len() => names.text(*name),
        _ => b"",
    }
}

fn name_of(d: &Datum) -> Result<u32, Trouble> {
    match &d.kind {
        DatumKind::Symbol(name) => Ok(name.0),
        _ => Err(Trouble::Unread(d.place)),
    }
}
