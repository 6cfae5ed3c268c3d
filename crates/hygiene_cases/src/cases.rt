//! Cases, and the line of each.

use crate::bench::{Bench, LEVELS};
use crate::showing::{put, put_trouble};
use crate::trouble::Trouble;
use ps_base::{Bytes, Items, Limits, Name, Names};
use ps_datum::{Datum, DatumKind};
use ps_hygiene::Hygiene;
use ps_modules::{Export, Exports, Linked, Opened, Opens, Structure};
use ps_pattern::syntax_of;
use ps_read::read_all;
use std::alloc::Global;

/// The lines of all cases.
pub fn lines_of(alloc: Global, text: &[u8]) -> Result<Bytes, Trouble> {
    if text.len() > 4_194_304 {
        return Err(Trouble::TooLong);
    }
    let mut names = Names::new(alloc);
    let cases = read_all(alloc, text, 0, &mut names)?;
    let mut page = Bytes::new(alloc);
    for case in cases.as_slice() {
        let line = put_line(alloc, &names, parts_of(case), &mut page);
        if let Err(trouble) = line {
            put_trouble(alloc, trouble, &mut page)?;
        }
        page.push(b'\n')?;
    }
    Ok(page)
}

// Appends the line of a case.
fn put_line(
    alloc: Global,
    names: &Names,
    steps: &[Datum],
    page: &mut Bytes,
) -> Result<(), Trouble> {
    let limits = limits_of(names, steps)?;
    let mut bench = Bench {
        alloc,
        names,
        limits,
        linked: Linked {
            structures: Items::new(alloc),
        },
        hygiene: Hygiene::new(alloc, limits.transcribed)?,
        locals: 0,
        shown: false,
    };
    for step in steps {
        take_step(&mut bench, step, page)?;
    }
    Ok(())
}

// The limits that a case begins with.
fn limits_of(names: &Names, steps: &[Datum]) -> Result<Limits, Trouble> {
    let standard = Limits::standard();
    if let [first, ..] = steps {
        if let (b"limits", [n, m, d]) = form_of(names, first) {
            return Ok(Limits {
                transcriptions: u64::from(number_of(n)?),
                transcribed: u64::from(number_of(m)?),
                depth: u64::from(number_of(d)?),
                ..standard
            });
        }
    }
    Ok(Limits {
        transcriptions: 100,
        transcribed: 1_000,
        depth: 20,
        ..standard
    })
}

fn take_step(bench: &mut Bench, step: &Datum, page: &mut Bytes) -> Result<(), Trouble> {
    let alloc = bench.alloc;
    match form_of(bench.names, step) {
        (b"limits", _) => Ok(()),
        (b"structure", [opens, exports]) => {
            let structure = structure_of(alloc, bench.names, opens, exports)?;
            Ok(bench.linked.structures.push(structure)?)
        }
        (b"enter", [n]) => {
            let number = number_of(n)?;
            Ok(bench.hygiene.enter(number, bench.names, &bench.linked)?)
        }
        (b"define", [f, n]) => bench.define(&syntax_of(alloc, f)?, number_of(n)?),
        (b"syntax", [f]) => bench.define_syntax(&syntax_of(alloc, f)?),
        (b"show", [f]) => {
            if bench.shown {
                put(b"; ", page)?;
            }
            bench.shown = true;
            bench.show(LEVELS, &syntax_of(alloc, f)?, page)
        }
        _ => Err(Trouble::Unread(step.place)),
    }
}

fn structure_of(
    alloc: Global,
    names: &Names,
    opens: &Datum,
    exports: &Datum,
) -> Result<Structure, Trouble> {
    let mut opened = Opens::new(alloc);
    for part in parts_of(opens) {
        opened.push(opened_of(names, part)?)?;
    }
    let mut exported = Exports::new(alloc);
    for part in parts_of(exports) {
        exported.push(Export {
            name: name_of(part)?,
            syntax: false,
            place: part.place,
        })?;
    }
    Ok(Structure {
        name: Name(0),
        opens: opened,
        exports: exported,
        body: Items::new(alloc),
    })
}

fn opened_of(names: &Names, d: &Datum) -> Result<Opened, Trouble> {
    match word(names, d) {
        b"prescheme" => Ok(Opened::Prescheme),
        b"ps-memory" => Ok(Opened::Memory),
        b"ps-record-types" => Ok(Opened::Records),
        _ => Ok(Opened::At(number_of(d)?)),
    }
}

// The word that a list begins with, and what is behind it.
fn form_of<'a>(names: &'a Names, d: &'a Datum) -> (&'a [u8], &'a [Datum]) {
    match parts_of(d) {
        [first, rest @ ..] => (word(names, first), rest),
        [] => (b"", &[]),
    }
}

fn parts_of(d: &Datum) -> &[Datum] {
    match &d.kind {
        DatumKind::List(parts) => parts.as_slice(),
        _ => &[],
    }
}

// The word that a datum is; none, where it is no symbol.
fn word<'a>(names: &'a Names, d: &Datum) -> &'a [u8] {
    match &d.kind {
        DatumKind::Symbol(name) if name.0 < names.len() => names.text(*name),
        _ => b"",
    }
}

fn number_of(d: &Datum) -> Result<u32, Trouble> {
    match &d.kind {
        DatumKind::Integer(i) => u32::try_from(*i).map_err(|_| Trouble::Unread(d.place)),
        _ => Err(Trouble::Unread(d.place)),
    }
}

fn name_of(d: &Datum) -> Result<Name, Trouble> {
    match &d.kind {
        DatumKind::Symbol(name) => Ok(*name),
        _ => Err(Trouble::Unread(d.place)),
    }
}
