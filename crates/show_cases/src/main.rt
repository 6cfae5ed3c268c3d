//! A program that runs cases of the text of a kernel: from Scheme data on standard input to lines on standard output, by the
//! public calls of the crates below. It is no part of the compiler.
//!
//! - `(base PART ...)` is no case and has no line. Each case behind it begins with these parts.
//! - `(show PART ...)`: the text of the kernel of the parts, or `show-deep F:L:C`, or `show-long`.
//! - `(size PART ...)`: the number of its bytes, or the same faults.
//! - `(primitives)`: the text of a sequence of all primitives that are no records', without operands.
//!
//! `kernel_data` has the parts and the ways to write an expression.
#![tactic(auto)]

mod cases;
mod primitives;

use cases::Texts;
use kernel_data::lines_of;
use std::io;

fn main(rt: HostRuntime) -> io::Result<()> {
    let text = io::read_to_string(rt.alloc(), rt.reader())?;
    match lines_of(rt.alloc(), text.as_bytes(), &Texts) {
        Ok(lines) => print!(rt; "{lines}"),
        Err(trouble) => println!(rt; "{trouble:?}"),
    }
}
