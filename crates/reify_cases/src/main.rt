//! A program that runs cases of what survives: from Scheme data on standard input to one line for each case on standard output,
//! by the public calls of the crates below. It is no part of the compiler.
//!
//! - `(base PART ...)` is no case and has no line. Each case behind it begins with these parts of a kernel.
//! - `(reify (V ...) (B ...) PART ...)`: what survives of the kernel of the parts, where its definitions have these values and the
//!   fixed blocks are these: the procedures, each `DEFINITION/LAMBDA`, the blocks and the other definitions; or the fault; or
//!   `trouble`, where the kernel does not keep the rules, or there are too many values or literals. The blocks of literals
//!   stand among the others, from block 0 on.
//! - `(count (V ...) (B ...) PART ...)`: how many procedures, blocks and other definitions survive.
//!
//! `reading.rt` has the values and the blocks, and `kernel_data` the parts of a kernel and the ways to write an expression.
#![tactic(auto)]

mod literals;
mod reading;
mod writing;

use byte_store::{Store, Value};
use kernel_data::{Building, Program, Trouble, built, lines_of, meaning_of};
use literals::are_few;
use ps_base::{Names, Place};
use ps_datum::{Datum, DatumKind};
use ps_kernel::{Kernel, valid};
use ps_reify::reify;
use reading::{fix_all, values_of};
use std::alloc::Global;
use std::io;
use writing::{counts, line};

/// What a case asks for.
#[derive(Clone, Copy)]
enum Asked {
    All,
    Counts,
}

/// The program of survivors.
struct Survivals;

impl Program for Survivals {
    fn answer(
        &self,
        alloc: Global,
        names: &Names,
        word: &Datum,
        at: Place,
        base: &[Datum],
        parts: &[Datum],
    ) -> Result<String, Trouble> {
        let asked = meaning_of(
            &[("reify", Asked::All), ("count", Asked::Counts)],
            names,
            word,
        )?;
        match parts {
            [values, blocks, own @ ..] => survivors(alloc, names, asked, values, blocks, base, own),
            _ => Err(Trouble::Unread(at)),
        }
    }
}

/// The members of a list.
pub fn members(d: &Datum) -> Result<&[Datum], Trouble> {
    match &d.kind {
        DatumKind::List(parts) => Ok(parts.as_slice()),
        _ => Err(Trouble::Unread(d.place)),
    }
}

fn survivors(
    alloc: Global,
    names: &Names,
    asked: Asked,
    values: &Datum,
    blocks: &Datum,
    base: &[Datum],
    own: &[Datum],
) -> Result<String, Trouble> {
    let Building { kernel, .. } = built(alloc, names, base, own)?;
    let globals = values_of(alloc, names, members(values)?)?;
    let mut store = Store::new(alloc);
    fix_all(alloc, names, &mut store, members(blocks)?)?;
    line_of(alloc, asked, &kernel, globals.as_slice(), &store)
}

// What is asked for of a kernel, the values of its definitions and the memory.
fn line_of(
    alloc: Global,
    asked: Asked,
    kernel: &Kernel,
    globals: &[Option<Value>],
    store: &Store<Value>,
) -> Result<String, Trouble> {
    let few = globals.len() <= u32::MAX as usize;
    if !few || !valid(alloc, kernel)? || !are_few(kernel.literals.as_slice()) {
        return Ok(String::from_str(alloc, "trouble")?);
    }
    let answer = reify(alloc, kernel, globals, store);
    match asked {
        Asked::All => line(alloc, &answer),
        Asked::Counts => counts(alloc, &answer),
    }
}

fn main(rt: HostRuntime) -> io::Result<()> {
    let text = io::read_to_string(rt.alloc(), rt.reader())?;
    match lines_of(rt.alloc(), text.as_bytes(), &Survivals) {
        Ok(lines) => print!(rt; "{lines}"),
        Err(trouble) => println!(rt; "{trouble:?}"),
    }
}
