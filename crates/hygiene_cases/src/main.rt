//! A program that runs cases of hygiene: from Scheme data on standard input to one line for each case on standard output, by
//! `Hygiene`. It is no part of the compiler.
//!
//! A case is a list of steps. F is a form; where it is a macro use, it is transcribed first.
//!
//! - `(limits N M D)`: N transcriptions, M transcribed nodes and a nesting of D are allowed, where it is the first step; else it is
//!   100, 1,000 and 20.
//! - `(structure (S ...) (NAME ...))`: a structure more, numbered from 0, that opens each S and exports each name. S is `prescheme`,
//!   `ps-memory`, `ps-record-types`, or the number of a structure.
//! - `(enter N)`: structure N is entered. A case begins in structure 0, without what it opens.
//! - `(define F N)`: F is `(define x e)`, and x is defined as global N.
//! - `(syntax F)`: F is `(define-syntax k R)`, and k is defined as the next macro.
//! - `(show F)`: what F is, with what each of its identifiers means behind it: `l` and the number of a local, `g` of a global, `m` of a
//!   macro, `core`, `prim`, or `free`, and `!` where the structure in which it was looked up defines it. The parameters of a `lambda`
//!   and the macro of a `let-syntax` are bound in its body, locals with numbers from 0. `bad` is a form that is none.
//!
//! A line is what was shown, joined by `; `, and at the end the fault at which the case stopped, a fault of a form by its kind and its
//! column.
#![tactic(auto)]

mod bench;
mod cases;
mod showing;
mod trouble;

use std::io;
use std::io::Write;

fn main(rt: HostRuntime) -> io::Result<()> {
    let text = io::read_to_string(rt.alloc(), rt.reader())?;
    match cases::lines_of(rt.alloc(), text.as_bytes()) {
        Ok(lines) => io::writer(&rt).write_all(lines.as_slice()),
        Err(trouble) => println!(rt; "{trouble:?}"),
    }
}
