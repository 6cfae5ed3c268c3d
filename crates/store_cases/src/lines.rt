//! Lines: those of events and of primitives, and the parts of one line.

use crate::kinds::{kinds, names_of_kinds};
use crate::trouble::Trouble;
use byte_store::{Cell, Event, Pointer, Value, write_event};
use ps_base::{Items, MemorySink, Prim, write_all};
use ps_prims::{arity_of, scheme_of, stages_of};
use ps_types::{has_known_records, write_type};
use std::alloc::{AllocError, Global};

/// A page of a line's parts.
pub fn page_of(alloc: Global) -> Result<MemorySink, Trouble> {
    Ok(MemorySink::new(alloc, 10_000, 10_000, Items::new(alloc))?)
}

/// The parts of a page, each of which ends with byte 10, joined by `; `.
pub fn joined(alloc: Global, page: &[u8]) -> Result<String, AllocError> {
    let mut line = String::new(alloc);
    let parts = match page {
        [parts @ .., b'\n'] => parts,
        _ => page,
    };
    for byte in parts {
        if *byte == b'\n' {
            line.push_str("; ")?;
        } else {
            line.push(char::from(*byte))?;
        }
    }
    Ok(line)
}

// What is done with a number.
fn number_event(word: &[u8], i: i64) -> Option<Event> {
    match word {
        b"in" => Some(Event::Input(i)),
        b"out" => Some(Event::Output(i)),
        _ => None,
    }
}

// What is asked for by a number.
fn made_event(word: &[u8], i: i64, p: Pointer) -> Option<Event> {
    match word {
        b"alloc" => Some(Event::Allocate(i, p)),
        b"tuple" => Some(Event::Tuple(i, p)),
        _ => None,
    }
}

// What is done with a value at a place.
fn place_event(word: &[u8], p: Pointer, value: Value) -> Option<Event> {
    let i = match value {
        Value::Integer(i) => i,
        _ => 0,
    };
    match word {
        b"load" => Some(Event::Load(p, i)),
        b"store" => Some(Event::Keep(p, i)),
        b"loadw" => Some(Event::LoadWord(p, i)),
        b"storew" => Some(Event::KeepWord(p, i)),
        b"length" => Some(Event::Length(p, i)),
        b"get" => Some(Event::Get(p, value.word())),
        b"put" => Some(Event::Put(p, value.word())),
        _ => None,
    }
}

// The event of a word and the values behind it.
fn event_of(word: &[u8], values: &[Value]) -> Option<Event> {
    match values {
        [Value::Integer(i)] => number_event(word, *i),
        [Value::Address(p)] => Some(Event::Free(*p)),
        [Value::Integer(i), Value::Address(p)] => made_event(word, *i, *p),
        [Value::Integer(i), value, Value::Address(p)] => Some(Event::Fill(*i, value.word(), *p)),
        [Value::Address(p), value] => place_event(word, *p, *value),
        _ => None,
    }
}

/// Writes the line of an event, where the word and the values are one.
pub fn put_event(word: &[u8], values: &[Value], page: &mut MemorySink) -> Result<(), Trouble> {
    match event_of(word, values) {
        Some(event) => Ok(write_event(&event, page)?),
        None => Ok(write_all(page, b"no event\n")?),
    }
}

/// Writes the row of a primitive.
pub fn put_row(alloc: Global, p: Prim, page: &mut MemorySink) -> Result<(), Trouble> {
    let names = names_of_kinds(alloc)?;
    let kinds = kinds(alloc)?;
    let scheme = scheme_of(alloc, p, &kinds)?;
    let variables = scheme.variables.len();
    let row = format!(in alloc; "{:?} {} {variables} ", stages_of(p), arity_of(p, &kinds))?;
    write_all(page, row.as_bytes())?;
    if has_known_records(&scheme.body, kinds.as_slice(), &names) {
        write_type(&scheme.body, kinds.as_slice(), &names, page)?;
    }
    Ok(write_all(page, b"\n")?)
}
