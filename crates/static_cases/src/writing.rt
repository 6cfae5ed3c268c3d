//! Values, blocks and faults, as lines.

use byte_store::{Base, Contents, Pointer, Store, Value};
use kernel_data::Trouble;
use ps_base::{Fault, Place, Refusal, op_word_of};
use ps_static_eval::Globals;
use std::alloc::{AllocError, Allocator, Global};

/// What a case asks for.
#[derive(Clone, Copy)]
pub enum Asked {
    All,
    Sizes,
}

// The block that a pointer leads to.
fn put_pointer(out: &mut String, p: Pointer) -> Result<(), AllocError> {
    match p {
        Pointer::Null => out.push_str(" null"),
        Pointer::At(Base::Fixed(block), 0) => write!(out, " {block}"),
        other => write!(out, " {other:?}"),
    }
}

fn put_value(out: &mut String, value: Value) -> Result<(), AllocError> {
    match value {
        Value::Integer(i) => write!(out, " {i}"),
        Value::Boolean(b) => out.push_str(if b { " #t" } else { " #f" }),
        Value::Char(c) => write!(out, " char {c}"),
        Value::Unit => out.push_str(" unit"),
        Value::Address(p) => put_pointer(out, p),
        Value::Text(p) => {
            out.push_str(" text")?;
            put_pointer(out, p)
        }
        Value::Vector(p) => {
            out.push_str(" vector")?;
            put_pointer(out, p)
        }
        Value::Tuple(kind, p) => {
            write!(out, " record {kind}")?;
            put_pointer(out, p)
        }
    }
}

fn put_cell(out: &mut String, cell: Option<Value>) -> Result<(), AllocError> {
    match cell {
        Some(value) => put_value(out, value),
        None => out.push_str(" none"),
    }
}

fn put_cells(out: &mut String, cells: &[Option<Value>]) -> Result<(), AllocError> {
    for cell in cells {
        put_cell(out, *cell)?;
    }
    Ok(())
}

fn put_bytes(out: &mut String, bytes: &[Option<u8>]) -> Result<(), AllocError> {
    for byte in bytes {
        match byte {
            Some(byte) => write!(out, " {byte}")?,
            None => out.push_str(" none")?,
        }
    }
    Ok(())
}

fn put_contents(out: &mut String, contents: &Contents<'_, Value>) -> Result<(), AllocError> {
    match contents {
        Contents::Bytes(bytes) => put_bytes(out, bytes),
        Contents::Cells(cells) => put_cells(out, cells),
        Contents::Freed(_) => out.push_str(" freed"),
    }
}

fn put_size(out: &mut String, contents: &Contents<'_, Value>) -> Result<(), AllocError> {
    match contents {
        Contents::Bytes(bytes) => write!(out, " {} bytes", bytes.len()),
        Contents::Cells(cells) => write!(out, " {} cells", cells.len()),
        Contents::Freed(_) => out.push_str(" freed"),
    }
}

fn put_blocks<A: Allocator + Copy>(
    alloc: Global,
    out: &mut String,
    asked: Asked,
    store: &Store<Value, A>,
) -> Result<(), Trouble> {
    for (number, contents) in store.fixed_blocks(alloc)?.iter() {
        write!(out, ", block {number}:")?;
        match asked {
            Asked::All => put_contents(out, contents)?,
            Asked::Sizes => put_size(out, contents)?,
        }
    }
    Ok(())
}

fn put_place(out: &mut String, at: Place) -> Result<(), AllocError> {
    write!(out, " {}:{}:{}", at.file, at.line, at.column)
}

fn put_refusal(out: &mut String, refusal: Refusal) -> Result<(), AllocError> {
    match refusal {
        Refusal::Fault(Fault::StaticWrong(at)) => {
            out.push_str("wrong")?;
            put_place(out, at)
        }
        Refusal::Fault(Fault::StaticUndefined(op, at)) => {
            out.push_str("undefined ")?;
            out.push_str(str::from_utf8(op_word_of(op)).unwrap_or("?"))?;
            put_place(out, at)
        }
        Refusal::Fault(Fault::StaticRunOnly(at)) => {
            out.push_str("run-only")?;
            put_place(out, at)
        }
        Refusal::Fault(Fault::BudgetSpent(n)) => write!(out, "budget-spent {n}"),
        Refusal::Fault(Fault::CellsSpent(n)) => write!(out, "cells-spent {n}"),
        other => write!(out, "{other:?}"),
    }
}

/// What forms come to: the values of definitions, and the blocks; or why there are none.
pub fn line<A: Allocator + Copy>(
    alloc: Global,
    asked: Asked,
    answer: &Result<Globals, Refusal>,
    store: &Store<Value, A>,
) -> Result<String, Trouble> {
    let mut out = String::new(alloc);
    match answer {
        Ok(globals) => {
            out.push_str("globals")?;
            put_cells(&mut out, globals.as_slice())?;
            put_blocks(alloc, &mut out, asked, store)?;
        }
        Err(refusal) => put_refusal(&mut out, *refusal)?,
    }
    Ok(out)
}
