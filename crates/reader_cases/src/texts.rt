//! What the data of a case are made of.

use crate::trouble::Trouble;
use ps_base::{Name, Names};
use ps_datum::{Datum, DatumKind};
use std::alloc::Global;

/// The text of a name, or nothing where the table has none.
pub fn text_of(names: &Names, name: Name) -> &[u8] {
    if name.0 < names.len() {
        names.text(name)
    } else {
        b""
    }
}

/// The members of a list.
pub fn members(d: &Datum) -> Result<&[Datum], Trouble> {
    match &d.kind {
        DatumKind::List(parts) => Ok(parts.as_slice()),
        _ => Err(Trouble::Unread(d.place)),
    }
}

/// The text of a symbol, or nothing.
pub fn word_of<'a>(names: &'a Names, d: &Datum) -> &'a [u8] {
    match &d.kind {
        DatumKind::Symbol(name) => text_of(names, *name),
        _ => b"",
    }
}

/// The word at the head of a list, and what is behind it.
pub fn form_of<'a>(names: &'a Names, d: &'a Datum) -> Result<(&'a [u8], &'a [Datum]), Trouble> {
    match members(d)? {
        [word, rest @ ..] => Ok((word_of(names, word), rest)),
        [] => Err(Trouble::Unread(d.place)),
    }
}

/// A number.
pub fn number_of(d: &Datum) -> Result<u32, Trouble> {
    match &d.kind {
        DatumKind::Integer(i) => u32::try_from(*i).map_err(|_| Trouble::Unread(d.place)),
        _ => Err(Trouble::Unread(d.place)),
    }
}

// Appends texts.
#[cycle(texts)]
fn put_texts(
    alloc: Global,
    names: &Names,
    out: &mut Vec<u8>,
    texts: &[Datum],
) -> Result<(), Trouble> {
    for text in texts {
        put_text(alloc, names, out, text)?;
    }
    Ok(())
}

// Appends a text.
#[cycle(texts)]
fn put_text(alloc: Global, names: &Names, out: &mut Vec<u8>, text: &Datum) -> Result<(), Trouble> {
    match &text.kind {
        DatumKind::Text(bytes) => Ok(out.extend_from_slice(bytes.as_slice())?),
        DatumKind::Integer(_) => put_byte(out, text),
        DatumKind::List(parts) => match parts.as_slice() {
            [word, rest @ ..] => {
                if word_of(names, word) == b"times".as_slice() {
                    put_times(alloc, names, out, rest)
                } else {
                    put_texts(alloc, names, out, parts.as_slice())
                }
            }
            [] => Ok(()),
        },
        _ => Err(Trouble::Unread(text.place)),
    }
}

// Appends what is behind a number, so many times.
#[cycle(texts)]
fn put_times(
    alloc: Global,
    names: &Names,
    out: &mut Vec<u8>,
    parts: &[Datum],
) -> Result<(), Trouble> {
    match parts {
        [count, texts @ ..] => {
            let mut once = Vec::new(alloc);
            for text in texts {
                put_text(alloc, names, &mut once, text)?;
            }
            put_again(out, number_of(count)?, once.as_slice())
        }
        [] => Ok(()),
    }
}

fn put_again(out: &mut Vec<u8>, count: u32, text: &[u8]) -> Result<(), Trouble> {
    for _ in 0..count {
        out.extend_from_slice(text)?;
    }
    Ok(())
}

// Appends a byte.
fn put_byte(out: &mut Vec<u8>, d: &Datum) -> Result<(), Trouble> {
    let byte = u8::try_from(number_of(d)?).map_err(|_| Trouble::Unread(d.place))?;
    Ok(out.push(byte)?)
}

/// The text that these make up together.
pub fn joined(alloc: Global, names: &Names, texts: &[Datum]) -> Result<Vec<u8>, Trouble> {
    let mut out = Vec::new(alloc);
    put_texts(alloc, names, &mut out, texts)?;
    Ok(out)
}

/// Each of these texts.
pub fn each(alloc: Global, names: &Names, texts: &[Datum]) -> Result<Vec<Vec<u8>>, Trouble> {
    let mut all = Vec::new(alloc);
    for text in texts {
        let mut out = Vec::new(alloc);
        put_text(alloc, names, &mut out, text)?;
        all.push(out)?;
    }
    Ok(all)
}
