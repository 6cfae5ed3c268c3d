//! The cases, and the line of each.

use crate::texts::resolved;
use kernel_data::{Program, Trouble, built, bytes_of, meaning_of, number_of};
use ps_base::{Names, Place};
use ps_datum::Datum;
use ps_kernel::valid;
use std::alloc::Global;

// What a case begins with.
#[derive(Clone, Copy)]
enum CaseWord {
    Valid,
    Resolve,
}

const CASES: &[(&str, CaseWord)] = &[("valid", CaseWord::Valid), ("resolve", CaseWord::Resolve)];

fn validity(
    alloc: Global,
    names: &Names,
    base: &[Datum],
    parts: &[Datum],
) -> Result<String, Trouble> {
    let building = built(alloc, names, base, parts)?;
    let word = if valid(alloc, &building.kernel)? {
        "valid"
    } else {
        "invalid"
    };
    Ok(String::from_str(alloc, word)?)
}

/// The program of the rules of kernels, and of the programs that texts are.
pub struct Kernels;

impl Program for Kernels {
    fn answer(
        &self,
        alloc: Global,
        names: &Names,
        word: &Datum,
        at: Place,
        base: &[Datum],
        parts: &[Datum],
    ) -> Result<String, Trouble> {
        match (meaning_of(CASES, names, word)?, parts) {
            (CaseWord::Valid, _) => validity(alloc, names, base, parts),
            (CaseWord::Resolve, [text]) => resolved(alloc, bytes_of(text)?, u32::MAX),
            (CaseWord::Resolve, [text, known]) => {
                let known = number_of(known)?;
                resolved(alloc, bytes_of(text)?, known)
            }
            _ => Err(Trouble::Unread(at)),
        }
    }
}
