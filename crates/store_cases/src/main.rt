//! A program that runs cases of the store and of the primitives: from Scheme data on standard input to one line for each case
//! on standard output, by the public calls of `byte_store` and `ps_prims`. It is no part of the compiler.
//!
//! - `(scene COMMAND ...)` is no case and has no line. Each case behind it begins with these commands, at run time, in a world
//!   of six grants.
//! - `(run COMMAND ...)`, `(compile COMMAND ...)` and `(both COMMAND ...)`: what the commands show and answer, at run time, at
//!   compile time, or at both, which must be the same. The world has the input 200 and one grant.
//! - `(row PRIMITIVE)`: the stages of a primitive, how many operands it takes, how many type variables it has, and its type.
//! - `(line WORD VALUE ...)`: the line of an event.
//!
//! A command is `(PRIMITIVE VALUE ...)`, or one of those in `commands.rt`. Its part of the line has the events that it shows
//! and then its answer, with ` !` behind it where the memory or the world is another than before. Parts are joined by `; `.
//!
//! A value is an integer, a boolean, a character, `unit`, `(char CODE)`, or `(address BLOCK N OFFSET)`, where BLOCK is `s` for a
//! fixed one or `d` for a made one; `(address)` is null, and `string`, `vector` and `record KIND` stand like `address`.
//!
//! The kinds of records are the two of `kinds.rt`.
#![tactic(auto)]

mod blocks;
mod cases;
mod commands;
mod data;
mod kinds;
mod lines;
mod scene;
mod tables;
mod trouble;

use std::io;

fn main(rt: HostRuntime) -> io::Result<()> {
    let text = io::read_to_string(rt.alloc(), rt.reader())?;
    match cases::lines_of(rt.alloc(), text.as_bytes()) {
        Ok(lines) => print!(rt; "{lines}"),
        Err(trouble) => println!(rt; "{trouble:?}"),
    }
}
