//! A program that runs cases of special forms: from Scheme data on standard input to one line for each case on standard output,
//! by `parts`, `quoted` and `type_of`. It is no part of the compiler.
//!
//! F is a special form, told by its first name, which is unbound like each other name where the case does not say otherwise. A line
//! shows its parts in the order in which they are written, each list of them in brackets, or the place of the fault.
//!
//! - `(parts F)`: the parts of F.
//! - `(bound NAME F)`: the same where the name is a local.
//! - `(count F)`: how many bindings a form of `let` has.
//! - `(quoted D)`: the constant that the datum D is as a quoted one.
//! - `(type T)`: the type that T stands for as that of a field.
#![tactic(auto)]

mod cases;
mod meanings;
mod showing;
mod trouble;
mod words;

use std::io;
use std::io::Write;

fn main(rt: HostRuntime) -> io::Result<()> {
    let text = io::read_to_string(rt.alloc(), rt.reader())?;
    match cases::lines_of(rt.alloc(), text.as_bytes()) {
        Ok(lines) => io::writer(&rt).write_all(lines.as_slice()),
        Err(trouble) => println!(rt; "{trouble:?}"),
    }
}
