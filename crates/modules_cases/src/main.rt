//! A program that runs cases of the search path and of linking: from Scheme data on standard input to one line for each case on
//! standard output, by the public calls of `ps_library` and `ps_modules`. It is no part of the compiler.
//!
//! - `(fetch (LIBRARY ...) (NAME ROOM) ...)`: what the libraries answer to fetching these files one after another, joined by `; `.
//! - `(link (LIBRARY ...) TEXT)` and `(link (LIBRARY ...) TEXT ONE ALL)`: the structures of a text, joined by ` | `, or its fault; ONE
//!   and ALL are how many bytes one text and all texts may have. A structure is its name, what it opens in brackets, where a number
//!   is a place in the line, what it exports, with a star behind a macro's name, and its forms, each with `@FILE` where it is of a file.
//! - `(row N K)`: a text of N structures `s0`, `s1` and so on, of which each opens at most K before it, the nearest first, is linked:
//!   how many structures there are, and the last of them; or its fault.
//! - `(folders WORD ...)`: the folders that words of a command line name, each in angle brackets.
//!
//! A library is `(memory (NAME TEXT) ...)`, `(failing (CALL ...) (NAME TEXT) ...)`, which is one in memory that fails at these
//! calls, `(folder PATH)`, `(once TEXT)`, which gives a text at its first call and has nothing later, `endless`, which gives a
//! space at each call, `ends`, which is at the end at each, or `no-memory`.
#![tactic(auto)]

mod cases;
mod changing;
mod data;
mod libraries;
mod linked;
mod rows;
mod trouble;

use std::io;

fn main(rt: HostRuntime) -> io::Result<()> {
    let text = io::read_to_string(rt.alloc(), rt.reader())?;
    match cases::lines_of(&rt, text.as_bytes()) {
        Ok(lines) => print!(rt; "{lines}"),
        Err(trouble) => println!(rt; "{trouble:?}"),
    }
}
