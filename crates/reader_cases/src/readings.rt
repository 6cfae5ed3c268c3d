//! What the reader answers.

use crate::texts::text_of;
use crate::trouble::Trouble;
use ps_base::{Bytes, Fault, Items, Name, Names, Place, SyntaxKind};
use ps_datum::{Datum, DatumKind, has_known_names, write_datum};
use ps_read::read_all;
use std::alloc::Global;

// How long a text, and a table of names, may be here.
const LONGEST: usize = 1_000_000;

/// What a text is: its data as they are written, with a space between each two, or its first breach.
#[derive(Debug, PartialEq, Drop)]
pub enum Reading {
    Data(Vec<u8>),
    Breach(SyntaxKind, Place),
}

/// The data of a text.
pub fn data_of(
    alloc: Global,
    text: &[u8],
    file: u32,
    names: &mut Names,
) -> Result<Items<Datum>, Trouble> {
    if text.len() < LONGEST && (names.len() as usize) < LONGEST {
        Ok(read_all(alloc, text, file, names)?)
    } else {
        Err(Trouble::TooLong)
    }
}

/// What a text is, over an empty table of names.
pub fn reading_of(alloc: Global, text: &[u8], file: u32) -> Result<Reading, Trouble> {
    let mut names = Names::new(alloc);
    match data_of(alloc, text, file, &mut names) {
        Ok(data) => Ok(Reading::Data(written(alloc, &names, data.as_slice())?)),
        Err(Trouble::Refused(Fault::Syntax(kind, place))) => Ok(Reading::Breach(kind, place)),
        Err(trouble) => Err(trouble),
    }
}

// The data with a space between each two.
fn written(alloc: Global, names: &Names, data: &[Datum]) -> Result<Vec<u8>, Trouble> {
    let mut out = Bytes::new(alloc);
    for datum in data {
        if !out.is_empty() {
            out.push(b' ')?;
        }
        put_datum(names, datum, &mut out)?;
    }
    Ok(Vec::from_slice(alloc, out.as_slice())?)
}

fn put_datum(names: &Names, datum: &Datum, out: &mut Bytes) -> Result<(), Trouble> {
    if has_known_names(datum, names) {
        Ok(write_datum(datum, names, out)?)
    } else {
        Err(Trouble::UnknownName)
    }
}

/// What a text is, as a line.
pub fn shown(alloc: Global, text: &[u8]) -> Result<Vec<u8>, Trouble> {
    match reading_of(alloc, text, 7)? {
        Reading::Data(written) => Ok(written),
        Reading::Breach(kind, place) => {
            let (file, line, column) = (place.file, place.line, place.column);
            Ok(format!(in alloc; "syntax {kind:?} {file}:{line}:{column}")?.into_bytes())
        }
    }
}

// A letter for what a text is.
fn letter_of(reading: &Reading) -> u8 {
    match reading {
        Reading::Data(_) => b'd',
        Reading::Breach(SyntaxKind::Unclosed, _) => b'u',
        Reading::Breach(SyntaxKind::BadToken, _) => b't',
        Reading::Breach(SyntaxKind::BadCharacter, _) => b'c',
        Reading::Breach(SyntaxKind::BadEscape, _) => b'e',
        Reading::Breach(_, _) => b'?',
    }
}

/// A letter for each front of a text.
pub fn fronts(alloc: Global, text: &[u8]) -> Result<Vec<u8>, Trouble> {
    let mut letters = Vec::new(alloc);
    for length in 0..=text.len() {
        let reading = reading_of(alloc, &text[..length], 0)?;
        letters.push(letter_of(&reading))?;
    }
    Ok(letters)
}

/// The table of names behind these texts.
pub fn names_behind(alloc: Global, texts: &[Vec<u8>]) -> Result<Names, Trouble> {
    let mut names = Names::new(alloc);
    for text in texts {
        let _data = data_of(alloc, text.as_slice(), 0, &mut names)?;
    }
    Ok(names)
}

/// The names of a table, with a space between each two.
pub fn listed(alloc: Global, names: &Names) -> Result<Vec<u8>, Trouble> {
    let mut out = Vec::new(alloc);
    for number in 0..names.len() {
        if number > 0 {
            out.push(b' ')?;
        }
        out.extend_from_slice(text_of(names, Name(number)))?;
    }
    Ok(out)
}

/// Whether a table has each name of each datum of a text, by number.
pub fn knows(alloc: Global, table: &Names, text: &[u8]) -> Result<Vec<u8>, Trouble> {
    let mut names = Names::new(alloc);
    let data = data_of(alloc, text, 0, &mut names)?;
    let mut out = Vec::new(alloc);
    for datum in data.as_slice() {
        let is_known = has_known_names(datum, table);
        out.push(if is_known { b't' } else { b'f' })?;
    }
    Ok(out)
}

/// The places of the data of a text.
pub fn places(alloc: Global, text: &[u8]) -> Result<Vec<u8>, Trouble> {
    let mut names = Names::new(alloc);
    let data = data_of(alloc, text, 0, &mut names)?;
    let mut out = Vec::new(alloc);
    put_places(alloc, &mut out, data.as_slice())?;
    Ok(out)
}

#[cycle(places)]
fn put_places(alloc: Global, out: &mut Vec<u8>, data: &[Datum]) -> Result<(), Trouble> {
    for datum in data {
        put_place(alloc, out, datum.place)?;
        put_inner_places(alloc, out, &datum.kind)?;
    }
    Ok(())
}

#[cycle(places)]
fn put_inner_places(alloc: Global, out: &mut Vec<u8>, kind: &DatumKind) -> Result<(), Trouble> {
    match kind {
        DatumKind::List(items) => put_places(alloc, out, items.as_slice()),
        DatumKind::Vector(items) => put_places(alloc, out, items.as_slice()),
        DatumKind::Dotted(items, tail) => {
            put_places(alloc, out, items.as_slice())?;
            let tail = tail.get();
            put_place(alloc, out, tail.place)?;
            put_inner_places(alloc, out, &tail.kind)
        }
        _ => Ok(()),
    }
}

fn put_place(alloc: Global, out: &mut Vec<u8>, place: Place) -> Result<(), Trouble> {
    let (line, column) = (place.line, place.column);
    let gap = if out.is_empty() { "" } else { " " };
    let text = format!(in alloc; "{gap}{line}:{column}")?;
    Ok(out.extend_from_slice(text.as_bytes())?)
}
