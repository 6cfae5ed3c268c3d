//! What the parts of a case stand for.

use crate::failure::Failure;
use itoa::Buffer;
use ps_base::{Bytes, Calls, Items, Names};
use ps_datum::{Datum, DatumKind};
use std::alloc::Global;
use std::str;

/// The word that a datum is; none, where it is no symbol.
pub fn word<'a>(names: &'a Names, datum: &Datum) -> &'a [u8] {
    match &datum.kind {
        DatumKind::Symbol(name) if name.0 < names.len() => names.text(*name),
        _ => b"",
    }
}

/// The data between the brackets of a list; none, where it is no list.
pub fn members(datum: &Datum) -> &[Datum] {
    match &datum.kind {
        DatumKind::List(parts) => parts.as_slice(),
        _ => &[],
    }
}

/// The number that a datum is; 0, where it is none.
pub fn number(datum: &Datum) -> u64 {
    match &datum.kind {
        DatumKind::Integer(number) => u64::try_from(*number).unwrap_or(0),
        _ => 0,
    }
}

/// The numbers that data are.
pub fn numbers(alloc: Global, data: &[Datum]) -> Result<Calls, Failure> {
    let mut numbers = Items::new(alloc);
    for datum in data {
        numbers.push(number(datum))?;
    }
    Ok(numbers)
}

// The text of a string.
fn string(alloc: Global, datum: &Datum) -> Result<String, Failure> {
    let text = match &datum.kind {
        DatumKind::Text(bytes) => str::from_utf8(bytes.as_slice()).unwrap_or("?"),
        _ => "?",
    };
    Ok(String::from_str(alloc, text)?)
}

/// The texts of strings.
pub fn strings(alloc: Global, data: &[Datum]) -> Result<Vec<String>, Failure> {
    let mut strings = Vec::new(alloc);
    for datum in data {
        strings.push(string(alloc, datum)?)?;
    }
    Ok(strings)
}

// Appends a number in decimal digits: `count` is the turn of the innermost `times`, from 0, and `next` is one more.
fn append_turn(word: &[u8], turn: u64, text: &mut Vec<u8>) -> Result<(), Failure> {
    let number = if word == b"next".as_slice() {
        turn.saturating_add(1)
    } else {
        turn
    };
    let mut buffer = Buffer::new();
    text.extend_from_slice(buffer.format(number).as_bytes())?;
    Ok(())
}

// Appends a part that is no `times`: a string is its bytes, an integer one byte, and `count` and `next` a turn's number.
fn append(names: &Names, turn: u64, part: &Datum, text: &mut Vec<u8>) -> Result<(), Failure> {
    match &part.kind {
        DatumKind::Text(bytes) => text.extend_from_slice(bytes.as_slice())?,
        DatumKind::Integer(byte) => text.push(u8::try_from(*byte).unwrap_or(b'?'))?,
        _ => append_turn(word(names, part), turn, text)?,
    }
    Ok(())
}

fn append_all(
    names: &Names,
    turn: u64,
    parts: &[Datum],
    text: &mut Vec<u8>,
) -> Result<(), Failure> {
    for part in parts {
        append(names, turn, part, text)?;
    }
    Ok(())
}

// Appends what `(times N PART ...)` stands for.
fn append_times(names: &Names, times: &[Datum], text: &mut Vec<u8>) -> Result<(), Failure> {
    let [_, count, parts @ ..] = times else {
        return Err(Failure::NoCase);
    };
    for turn in 0..number(count) {
        append_all(names, turn, parts, text)?;
    }
    Ok(())
}

/// The text that parts make up.
pub fn text(alloc: Global, names: &Names, parts: &[Datum]) -> Result<Bytes, Failure> {
    let mut text = Vec::new(alloc);
    for part in parts {
        match &part.kind {
            DatumKind::List(times) => append_times(names, times.as_slice(), &mut text)?,
            _ => append(names, 0, part, &mut text)?,
        }
    }
    Ok(Items::from_vec(text))
}
