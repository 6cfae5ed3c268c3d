//! Values and blocks as data.
//!
//! A value V is an integer, `#t`, `#f`, a character, `unit`, `null`, or `none` where there is none; `(text B)`, `(vector B)` and
//! `(record KIND B)` begin at the start of block B. A block B is `(cells N V ...)` or `(bytes N BYTE ...)`, with ascending numbers;
//! `(chain N)` is N vectors of two cells, of which the first leads to itself, and each other to the one before and to the first.

use crate::members;
use byte_store::{Base, Pointer, Store, Value};
use kernel_data::{Trouble, meaning_of, number_of};
use ps_base::{Bytes, Items, Names};
use ps_datum::{Datum, DatumKind};
use std::alloc::Global;

#[derive(Clone, Copy)]
enum Atom {
    Unit,
    Null,
    None,
}

#[derive(Clone, Copy)]
enum Sort {
    Text,
    Vector,
    Record,
}

#[derive(Clone, Copy)]
enum Row {
    Cells,
    Bytes,
    Chain,
}

const ATOMS: &[(&str, Atom)] = &[
    ("unit", Atom::Unit),
    ("null", Atom::Null),
    ("none", Atom::None),
];

const SORTS: &[(&str, Sort)] = &[
    ("text", Sort::Text),
    ("vector", Sort::Vector),
    ("record", Sort::Record),
];

const ROWS: &[(&str, Row)] = &[
    ("cells", Row::Cells),
    ("bytes", Row::Bytes),
    ("chain", Row::Chain),
];

fn start_of(block: u32) -> Pointer {
    Pointer::At(Base::Fixed(block), 0)
}

fn plain(names: &Names, d: &Datum) -> Result<Option<Value>, Trouble> {
    match meaning_of(ATOMS, names, d)? {
        Atom::Unit => Ok(Some(Value::Unit)),
        Atom::Null => Ok(Some(Value::Address(Pointer::Null))),
        Atom::None => Ok(None),
    }
}

fn pointing(names: &Names, d: &Datum) -> Result<Value, Trouble> {
    match members(d)? {
        [word, block] => match meaning_of(SORTS, names, word)? {
            Sort::Text => Ok(Value::Text(start_of(number_of(block)?))),
            Sort::Vector => Ok(Value::Vector(start_of(number_of(block)?))),
            Sort::Record => Err(Trouble::Unread(d.place)),
        },
        [word, kind, block] => match meaning_of(SORTS, names, word)? {
            Sort::Record => Ok(Value::Tuple(number_of(kind)?, start_of(number_of(block)?))),
            Sort::Text => Err(Trouble::Unread(d.place)),
            Sort::Vector => Err(Trouble::Unread(d.place)),
        },
        _ => Err(Trouble::Unread(d.place)),
    }
}

fn value_of(names: &Names, d: &Datum) -> Result<Option<Value>, Trouble> {
    match &d.kind {
        DatumKind::Integer(i) => Ok(Some(Value::Integer(*i))),
        DatumKind::Boolean(b) => Ok(Some(Value::Boolean(*b))),
        DatumKind::Char(c) => Ok(Some(Value::Char(*c))),
        DatumKind::Symbol(_) => plain(names, d),
        _ => Ok(Some(pointing(names, d)?)),
    }
}

/// The values of definitions.
pub fn values_of(
    alloc: Global,
    names: &Names,
    ds: &[Datum],
) -> Result<Items<Option<Value>>, Trouble> {
    let mut values = Items::new(alloc);
    for d in ds {
        values.push(value_of(names, d)?)?;
    }
    Ok(values)
}

fn cells_of(alloc: Global, names: &Names, ds: &[Datum]) -> Result<Items<Value>, Trouble> {
    let mut cells = Items::new(alloc);
    for d in ds {
        match value_of(names, d)? {
            Some(value) => cells.push(value)?,
            None => return Err(Trouble::Unread(d.place)),
        }
    }
    Ok(cells)
}

fn bytes_of(alloc: Global, ds: &[Datum]) -> Result<Bytes, Trouble> {
    let mut bytes = Items::new(alloc);
    for d in ds {
        match u8::try_from(number_of(d)?) {
            Ok(byte) => bytes.push(byte)?,
            Err(_) => return Err(Trouble::Unread(d.place)),
        }
    }
    Ok(bytes)
}

fn fix_cells(
    store: &mut Store<Value>,
    number: u32,
    cells: Items<Value>,
    d: &Datum,
) -> Result<(), Trouble> {
    if number < store.next_fixed() || number == u32::MAX {
        return Err(Trouble::Unread(d.place));
    }
    Ok(store.fix_cells(number, cells)?)
}

fn fix_bytes(
    store: &mut Store<Value>,
    number: u32,
    bytes: &[u8],
    d: &Datum,
) -> Result<(), Trouble> {
    if number < store.next_fixed() || number == u32::MAX {
        return Err(Trouble::Unread(d.place));
    }
    Ok(store.fix_bytes(number, bytes)?)
}

fn fix_chain(
    alloc: Global,
    store: &mut Store<Value>,
    count: u32,
    d: &Datum,
) -> Result<(), Trouble> {
    let mut before = 0;
    for number in 0..count {
        let mut cells = Items::new(alloc);
        cells.push(Value::Vector(start_of(before)))?;
        cells.push(Value::Vector(start_of(0)))?;
        fix_cells(store, number, cells, d)?;
        before = number;
    }
    Ok(())
}

fn fix(alloc: Global, names: &Names, store: &mut Store<Value>, d: &Datum) -> Result<(), Trouble> {
    match members(d)? {
        [word, number, rest @ ..] => {
            let n = number_of(number)?;
            match meaning_of(ROWS, names, word)? {
                Row::Cells => fix_cells(store, n, cells_of(alloc, names, rest)?, d),
                Row::Bytes => fix_bytes(store, n, bytes_of(alloc, rest)?.as_slice(), d),
                Row::Chain => fix_chain(alloc, store, n, d),
            }
        }
        _ => Err(Trouble::Unread(d.place)),
    }
}

/// Adds these blocks.
pub fn fix_all(
    alloc: Global,
    names: &Names,
    store: &mut Store<Value>,
    ds: &[Datum],
) -> Result<(), Trouble> {
    for d in ds {
        fix(alloc, names, store, d)?;
    }
    Ok(())
}
