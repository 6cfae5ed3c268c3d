//! The parts of a case.
//!
//! - of a kernel: `(definitions N)`, so many more; the next lambda, `(lambda COLUMN (PARAMETER ...) (KEPT ...) e)`; the next
//!   literal, `(literal D)`, or `(deep-literal N D)`, which is D in vectors, N levels deep; the next kind of records,
//!   `(kind (T ...) (FIELD ...))`, by its types and its maker; the next form, `(define N e)` or `(do e)`; `(main N)`; and
//!   `(source "TEXT")`, the whole kernel of the program that a text is.
//! - of its run: `(globals V ...)`, where a V is an integer, `none`, or `#(BLOCK)` for the vector that begins this block; the
//!   fixed blocks `(cells N I ...)`, of integers, and `(bytes N "TEXT")`, which end with 0; `(input BYTE ...)`,
//!   `(grants #t ...)`, `(calls N)` and `(turns N)`.
//!
//! A kernel begins with nothing and `main` 0, and a run with 9 calls, 10,000,000 turns, and 8 definitions without a value.

use crate::copies::{copied, deep_vector};
use crate::data::{
    PLACE, bytes_of, count_of, flag_of, form_of, integer_of, number_of, numbers_of, text_of,
};
use crate::expressions::expr;
use crate::texts::kernel_of;
use crate::trouble::Trouble;
use crate::types::kind;
use crate::words::{SECTIONS, Section, meaning_of};
use byte_store::{Base, Pointer, Store, Value};
use ps_base::{Bytes, Flags, Items, Name, Names, Place};
use ps_datum::{Datum, DatumKind};
use ps_kernel::{Definition, Form, Kernel, Lambda};
use std::alloc::Global;

/// A kernel, and what its program is run in.
#[derive(Drop)]
pub struct Building {
    pub kernel: Kernel,
    pub globals: Items<Option<Value>>,
    pub store: Store<Value>,
    pub input: Bytes,
    pub grants: Flags,
    pub calls: u64,
    pub turns: u64,
}

fn empty_kernel(alloc: Global) -> Kernel {
    Kernel {
        definitions: Items::new(alloc),
        lambdas: Items::new(alloc),
        literals: Items::new(alloc),
        kinds: Items::new(alloc),
        forms: Items::new(alloc),
        main: 0,
    }
}

fn empty(alloc: Global) -> Result<Building, Trouble> {
    Ok(Building {
        kernel: empty_kernel(alloc),
        globals: Items::from_slice(alloc, &[None; 8])?,
        store: Store::new(alloc),
        input: Items::new(alloc),
        grants: Items::new(alloc),
        calls: 9,
        turns: 10_000_000,
    })
}

/// What these parts make, one behind the other.
pub fn built(
    alloc: Global,
    names: &Names,
    base: &[Datum],
    own: &[Datum],
) -> Result<Building, Trouble> {
    let mut building = empty(alloc)?;
    for part in base.iter().chain(own) {
        add(alloc, names, &mut building, part)?;
    }
    Ok(building)
}

fn add(alloc: Global, names: &Names, building: &mut Building, d: &Datum) -> Result<(), Trouble> {
    let (word, parts) = form_of(d)?;
    let section = meaning_of(SECTIONS, names, word)?;
    if add_to_kernel(alloc, names, &mut building.kernel, section, parts)? {
        return Ok(());
    }
    if add_to_run(alloc, names, building, section, parts)? {
        return Ok(());
    }
    Err(Trouble::Unread(d.place))
}

// Adds a part of the kernel, if it is one.
fn add_to_kernel(
    alloc: Global,
    names: &Names,
    kernel: &mut Kernel,
    section: Section,
    parts: &[Datum],
) -> Result<bool, Trouble> {
    match (section, parts) {
        (Section::Main, [g]) => kernel.main = number_of(g)?,
        (Section::Source, [text]) => *kernel = kernel_of(alloc, bytes_of(text)?)?,
        (Section::Definitions, [count]) => add_definitions(kernel, number_of(count)?)?,
        (Section::Lambda, [column, parameters, captured, body]) => {
            let place = place_of(column)?;
            kernel.lambdas.push(Lambda {
                place,
                parameters: numbers_of(alloc, parameters)?,
                captured: numbers_of(alloc, captured)?,
                body: expr(alloc, names, body)?,
            })?;
        }
        (Section::Literal, [d]) => kernel.literals.push(copied(alloc, d)?)?,
        (Section::DeepLiteral, [levels, d]) => {
            let d = copied(alloc, d)?;
            kernel
                .literals
                .push(deep_vector(alloc, number_of(levels)?, d)?)?;
        }
        (Section::Kind, [fields, maker]) => {
            kernel.kinds.push(kind(alloc, names, fields, maker)?)?;
        }
        (Section::Define, [g, e]) => {
            let g = number_of(g)?;
            kernel.forms.push(Form::Define(g, expr(alloc, names, e)?))?;
        }
        (Section::Do, [e]) => kernel.forms.push(Form::Do(expr(alloc, names, e)?))?,
        _ => return Ok(false),
    }
    Ok(true)
}

fn place_of(column: &Datum) -> Result<Place, Trouble> {
    Ok(Place {
        column: number_of(column)?,
        ..PLACE
    })
}

fn add_definitions(kernel: &mut Kernel, count: u32) -> Result<(), Trouble> {
    for _ in 0..count {
        kernel.definitions.push(Definition {
            structure: Name(0),
            name: Name(0),
            place: PLACE,
        })?;
    }
    Ok(())
}

// Adds a part of the run, if it is one.
fn add_to_run(
    alloc: Global,
    names: &Names,
    building: &mut Building,
    section: Section,
    parts: &[Datum],
) -> Result<bool, Trouble> {
    match (section, parts) {
        (Section::Calls, [count]) => building.calls = count_of(count)?,
        (Section::Turns, [count]) => building.turns = count_of(count)?,
        (Section::Globals, values) => building.globals = values_of(alloc, names, values)?,
        (Section::Input, bytes) => building.input = input_of(alloc, bytes)?,
        (Section::Grants, flags) => building.grants = flags_of(alloc, flags)?,
        (Section::Cells, [block, cells @ ..]) => {
            fix_cells(&mut building.store, block, integers_of(alloc, cells)?)?;
        }
        (Section::Bytes, [block, text]) => {
            fix_bytes(alloc, &mut building.store, block, bytes_of(text)?)?;
        }
        _ => return Ok(false),
    }
    Ok(true)
}

fn value_of(names: &Names, d: &Datum) -> Result<Option<Value>, Trouble> {
    match &d.kind {
        DatumKind::Integer(i) => Ok(Some(Value::Integer(*i))),
        DatumKind::Symbol(name) if text_of(names, *name) == b"none".as_slice() => Ok(None),
        DatumKind::Vector(blocks) => match blocks.as_slice() {
            [block] => {
                let at = Pointer::At(Base::Fixed(number_of(block)?), 0);
                Ok(Some(Value::Vector(at)))
            }
            _ => Err(Trouble::Unread(d.place)),
        },
        _ => Err(Trouble::Unread(d.place)),
    }
}

fn values_of(alloc: Global, names: &Names, ds: &[Datum]) -> Result<Items<Option<Value>>, Trouble> {
    let mut values = Items::new(alloc);
    for d in ds {
        values.push(value_of(names, d)?)?;
    }
    Ok(values)
}

fn input_of(alloc: Global, ds: &[Datum]) -> Result<Bytes, Trouble> {
    let mut bytes = Items::new(alloc);
    for d in ds {
        match u8::try_from(integer_of(d)?) {
            Ok(byte) => bytes.push(byte)?,
            Err(_) => return Err(Trouble::Unread(d.place)),
        }
    }
    Ok(bytes)
}

fn flags_of(alloc: Global, ds: &[Datum]) -> Result<Flags, Trouble> {
    let mut flags = Items::new(alloc);
    for d in ds {
        flags.push(flag_of(d)?)?;
    }
    Ok(flags)
}

fn integers_of(alloc: Global, ds: &[Datum]) -> Result<Items<Value>, Trouble> {
    let mut cells = Items::new(alloc);
    for d in ds {
        cells.push(Value::Integer(integer_of(d)?))?;
    }
    Ok(cells)
}

fn fix_cells(store: &mut Store<Value>, block: &Datum, cells: Items<Value>) -> Result<(), Trouble> {
    let number = number_of(block)?;
    if number < store.next_fixed() || number == u32::MAX {
        return Err(Trouble::Unread(block.place));
    }
    Ok(store.fix_cells(number, cells)?)
}

fn fix_bytes(
    alloc: Global,
    store: &mut Store<Value>,
    block: &Datum,
    text: &[u8],
) -> Result<(), Trouble> {
    let number = number_of(block)?;
    if number < store.next_fixed() || number == u32::MAX {
        return Err(Trouble::Unread(block.place));
    }
    let mut bytes = Vec::from_slice(alloc, text)?;
    bytes.push(0)?;
    Ok(store.fix_bytes(number, bytes.as_slice())?)
}
