//! A program that runs cases of what top-level forms come to at compile time: from Scheme data on standard input to one line for
//! each case on standard output, by the public calls of the crates below. It is no part of the compiler.
//!
//! - `(base PART ...)` is no case and has no line. Each case behind it begins with these parts of a kernel.
//! - `(static CELLS PART ...)`: what the forms of the kernel of the parts come to, where at most so many cells are made: the
//!   values of its definitions, and the blocks of the store with what they hold; or the fault, with its place or its number; or
//!   `trouble`, where the kernel does not keep the rules. `(calls N)` among the parts is the budget of calls.
//! - `(sizes CELLS PART ...)`: the same, where each block is told by its size alone.
//!
//! A value is an integer, `#t`, `#f`, `char N`, `unit`, `null`, or `none` where there is none; `text B`, `vector B` and
//! `record KIND B` begin at the start of block B. `kernel_data` has the parts and the ways to write an expression.
#![tactic(auto)]

mod outcomes;
mod writing;

use kernel_data::{Building, Program, Trouble, built, lines_of, meaning_of, number_of};
use outcomes::outcome;
use ps_base::{Names, Place};
use ps_datum::Datum;
use std::alloc::Global;
use std::io;
use writing::Asked;

/// The program of top-level forms.
struct TopLevels;

impl Program for TopLevels {
    fn answer(
        &self,
        alloc: Global,
        names: &Names,
        word: &Datum,
        at: Place,
        base: &[Datum],
        parts: &[Datum],
    ) -> Result<String, Trouble> {
        let asked = meaning_of(
            &[("static", Asked::All), ("sizes", Asked::Sizes)],
            names,
            word,
        )?;
        match parts {
            [cells, own @ ..] => {
                let cells = u64::from(number_of(cells)?);
                let Building { kernel, calls, .. } = built(alloc, names, base, own)?;
                outcome(alloc, asked, &kernel, calls, cells)
            }
            _ => Err(Trouble::Unread(at)),
        }
    }
}

fn main(rt: HostRuntime) -> io::Result<()> {
    let text = io::read_to_string(rt.alloc(), rt.reader())?;
    match lines_of(rt.alloc(), text.as_bytes(), &TopLevels) {
        Ok(lines) => print!(rt; "{lines}"),
        Err(trouble) => println!(rt; "{trouble:?}"),
    }
}
