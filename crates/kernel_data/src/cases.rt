//! The cases of a text, and the line of each.

use crate::data::form_of;
use crate::trouble::Trouble;
use crate::words::meaning_of;
use ps_base::{Fault, Names, Place};
use ps_datum::Datum;
use ps_read::read_all;
use std::alloc::{AllocError, Global};

/// A program that answers cases.
pub trait Program {
    /// The line of a case, or why it has no other: the word that it begins with, its place, the parts that each case begins
    /// with and its own.
    fn answer(
        &self,
        alloc: Global,
        names: &Names,
        word: &Datum,
        at: Place,
        base: &[Datum],
        parts: &[Datum],
    ) -> Result<String, Trouble>;
}

// The line of a refusal.
fn refusal(alloc: Global, trouble: Trouble) -> Result<String, AllocError> {
    match trouble {
        Trouble::Refused(Fault::NotBuilt(at)) => {
            format!(in alloc; "not-built {}:{}", at.line, at.column)
        }
        other => format!(in alloc; "{other:?}"),
    }
}

// Adds the line of a case.
fn put_line(
    alloc: Global,
    answer: Result<String, Trouble>,
    out: &mut String,
) -> Result<(), AllocError> {
    let line = match answer {
        Ok(line) => line,
        Err(trouble) => refusal(alloc, trouble)?,
    };
    out.push_str(line.as_str())?;
    out.push_str("\n")
}

// The parts behind it begin each case.
fn is_base(names: &Names, word: &Datum) -> bool {
    meaning_of(&[("base", ())], names, word).is_ok()
}

/// The lines of all cases of a text, one for each form but those that begin with `base`.
pub fn lines_of<P: Program>(alloc: Global, text: &[u8], program: &P) -> Result<String, Trouble> {
    if text.len() > 4_194_304 {
        return Err(Trouble::Refused(Fault::TooLong(0)));
    }
    let mut names = Names::new(alloc);
    let cases = read_all(alloc, text, 0, &mut names)?;
    let mut out = String::new(alloc);
    let mut base: &[Datum] = &[];
    for d in cases.as_slice() {
        let (word, parts) = form_of(d)?;
        if is_base(&names, word) {
            base = parts;
        } else {
            let answer = program.answer(alloc, &names, word, d.place, base, parts);
            put_line(alloc, answer, &mut out)?;
        }
    }
    Ok(out)
}
