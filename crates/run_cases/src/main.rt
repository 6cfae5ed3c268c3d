//! A program that runs cases of what the programs of kernels do: from Scheme data on standard input to one line for each case
//! on standard output, by the public calls of the crates below. It is no part of the compiler.
//!
//! - `(base PART ...)` is no case and has no line. Each case behind it begins with these parts.
//! - `(run PART ...)`: the events of the kernel's program, its depth and its end.
//!
//! `kernel_data` has the parts and the ways to write an expression.
#![tactic(auto)]

mod outcomes;

use kernel_data::{Program, Trouble, built, lines_of, meaning_of};
use outcomes::outcome;
use ps_base::{Names, Place};
use ps_datum::Datum;
use std::alloc::Global;
use std::io;

/// The program of runs.
struct Runs;

impl Program for Runs {
    fn answer(
        &self,
        alloc: Global,
        names: &Names,
        word: &Datum,
        _at: Place,
        base: &[Datum],
        parts: &[Datum],
    ) -> Result<String, Trouble> {
        meaning_of(&[("run", ())], names, word)?;
        outcome(alloc, built(alloc, names, base, parts)?)
    }
}

fn main(rt: HostRuntime) -> io::Result<()> {
    let text = io::read_to_string(rt.alloc(), rt.reader())?;
    match lines_of(rt.alloc(), text.as_bytes(), &Runs) {
        Ok(lines) => print!(rt; "{lines}"),
        Err(trouble) => println!(rt; "{trouble:?}"),
    }
}
