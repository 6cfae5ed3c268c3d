//! A program that runs cases of kernels and of their rules: from Scheme data on standard input to one line for each case on
//! standard output, by the public calls of the crates below. It is no part of the compiler.
//!
//! - `(base PART ...)` is no case and has no line. Each case behind it begins with these parts.
//! - `(valid PART ...)`: whether the kernel of the parts keeps the rules, `valid` or `invalid`.
//! - `(resolve "TEXT")`: the program that the text is, or the place of its first fault. `(resolve "TEXT" N)` is the same where
//!   only the first N names of the text are known.
//!
//! `kernel_data` has the parts and the ways to write an expression.
#![tactic(auto)]

mod cases;
mod programs;
mod texts;

use cases::Kernels;
use kernel_data::lines_of;
use std::io;

fn main(rt: HostRuntime) -> io::Result<()> {
    let text = io::read_to_string(rt.alloc(), rt.reader())?;
    match lines_of(rt.alloc(), text.as_bytes(), &Kernels) {
        Ok(lines) => print!(rt; "{lines}"),
        Err(trouble) => println!(rt; "{trouble:?}"),
    }
}
