//! A program that runs cases of the reader, of what is written of data, of the texts of types, and of unification: from Scheme
//! data on standard input to one line for each case on standard output, by `read_all`, `write_datum`, `write_type`, `unify`,
//! `unify_within` and the tests of their conditions. It is no part of the compiler.
//!
//! A TEXT is a string, an integer, which is one byte, `(TEXT ...)`, or `(times N TEXT ...)`. In a line, a byte that is no
//! printable one of ASCII is shown as its number in brackets.
//!
//! - `(read TEXT ...)`: the data of the text that these make up together, with a space between each two, or the kind and the
//!   place of its first breach, in file 7.
//! - `(places TEXT ...)`: line and column of each datum, each before its parts.
//! - `(fronts TEXT ...)`: what each front of the text is, by a letter: `d` data, `u` unclosed, `t` a bad token, `c` a bad
//!   character, `e` a bad escape, `?` another breach.
//! - `(names TEXT ...)`: the table of names behind these texts, read one after another.
//! - `(knows TEXT TEXT)`: whether the table behind the first text has each name of each datum of the second, by number.
//! - `(agree TEXT ...)`: on how many of these texts the reader answers as the plain slow reader does. `(agree-fronts TEXT)` and
//!   `(agree-rows N TEXT ...)` are the same for each front of a text, and for all rows of at most N of these texts.
//! - `(type (KIND ...) TYPE)`: the text of a type, or `unknown`. Kinds of records are given by their names or by the numbers
//!   of these. `(type-cut N (KIND ...) TYPE)`: what a sink of two bytes a call, which failed at call N, has then taken; call
//!   0 was `<`. `types.rt` has the ways to write a type.
//! - `(unify STEP ...)`: from no binding on, what each step answers. `(equal TYPE TYPE)` and `(within LIMIT TYPE TYPE)` make two
//!   types equal: `ok`, `unequal`, `large` or `memory`. `(means TYPE)` is the text of what a type means, `(bound)` how many
//!   variables are bound, and `(room N TYPE)` what the size of what the type means leaves of N, or `none`.
#![tactic(auto)]

mod agreement;
mod cases;
mod readings;
mod slow;
mod texts;
mod trouble;
mod types;
mod unifying;

use std::io;
use std::io::Write;

fn main(rt: HostRuntime) -> io::Result<()> {
    let text = io::read_to_string(rt.alloc(), rt.reader())?;
    match cases::lines_of(rt.alloc(), text.as_bytes()) {
        Ok(lines) => io::writer(&rt).write_all(lines.as_slice()),
        Err(trouble) => println!(rt; "{trouble:?}"),
    }
}
