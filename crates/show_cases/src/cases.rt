//! The cases, and the lines of each.

use crate::primitives::all_primitives;
use kernel_data::{Program, Trouble, built, meaning_of};
use ps_base::{Bytes, Names, Place};
use ps_datum::Datum;
use ps_kernel::Kernel;
use ps_show::{ShowFault, show};
use std::alloc::Global;

// What a case begins with.
#[derive(Clone, Copy)]
enum CaseWord {
    Show,
    Size,
    Primitives,
}

const CASES: &[(&str, CaseWord)] = &[
    ("show", CaseWord::Show),
    ("size", CaseWord::Size),
    ("primitives", CaseWord::Primitives),
];

// The line of a fault.
fn refused(alloc: Global, fault: ShowFault) -> Result<String, Trouble> {
    match fault {
        ShowFault::Deep(at) => {
            Ok(format!(in alloc; "show-deep {}:{}:{}", at.file, at.line, at.column)?)
        }
        ShowFault::Long => Ok(String::from_str(alloc, "show-long")?),
        ShowFault::NoMemory => Err(Trouble::NoMemory),
    }
}

// A text without the end of its last line.
fn lines(alloc: Global, text: &Bytes) -> Result<String, Trouble> {
    let text = str::from_utf8(text.as_slice()).unwrap_or("?");
    Ok(String::from_str(alloc, text.trim_end())?)
}

fn shown(alloc: Global, kernel: &Kernel, names: &Names) -> Result<String, Trouble> {
    match show(alloc, kernel, names) {
        Ok(text) => lines(alloc, &text),
        Err(fault) => refused(alloc, fault),
    }
}

fn size(alloc: Global, kernel: &Kernel, names: &Names) -> Result<String, Trouble> {
    match show(alloc, kernel, names) {
        Ok(text) => Ok(format!(in alloc; "size {}", text.len())?),
        Err(fault) => refused(alloc, fault),
    }
}

/// The program of the texts of kernels.
pub struct Texts;

impl Program for Texts {
    fn answer(
        &self,
        alloc: Global,
        names: &Names,
        word: &Datum,
        _at: Place,
        base: &[Datum],
        parts: &[Datum],
    ) -> Result<String, Trouble> {
        let mut building = built(alloc, names, base, parts)?;
        match meaning_of(CASES, names, word)? {
            CaseWord::Show => shown(alloc, &building.kernel, names),
            CaseWord::Size => size(alloc, &building.kernel, names),
            CaseWord::Primitives => {
                building.kernel.forms.push(all_primitives(alloc)?)?;
                shown(alloc, &building.kernel, names)
            }
        }
    }
}
