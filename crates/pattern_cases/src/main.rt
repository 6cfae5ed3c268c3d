//! A program that runs cases of `syntax-rules`: from Scheme data on standard input to one line for each case on standard output,
//! by `compile_rules` and `transcribe`. It is no part of the compiler.
//!
//! R is a `syntax-rules` form, and F and G are uses of its macro. A use is transcribed with stamp 7 and a room of 1,000 nodes,
//! and each name is unbound, where the case does not say otherwise.
//!
//! - `(rules R)`: whether R is a form of rules.
//! - `(use R F)`: the form that F stands for. Behind a name stand its stamps, each behind `'`, the latest first.
//! - `(room N R F)`: the same with a room of N nodes.
//! - `(places R F)`: the same with the column of each form behind it.
//! - `(bound (NAME N) (NAME N) R F)`: the same where the first name is local N at the use, and the second one at the rules; `()`
//!   stands for none.
//! - `(then R F G)`: what G stands for under the rules that F stands for, with stamp 8.
#![tactic(auto)]

mod cases;
mod meanings;
mod showing;
mod trouble;

use std::io;
use std::io::Write;

fn main(rt: HostRuntime) -> io::Result<()> {
    let text = io::read_to_string(rt.alloc(), rt.reader())?;
    match cases::lines_of(rt.alloc(), text.as_bytes()) {
        Ok(lines) => io::writer(&rt).write_all(lines.as_slice()),
        Err(trouble) => println!(rt; "{trouble:?}"),
    }
}
