//! Texts, and the programs that they are.

use crate::programs::shown;
use kernel_data::{Trouble, data_of, text_of};
use ps_base::{Name, Names, NoMemory};
use ps_resolve::resolve;
use std::alloc::Global;

// The first names of a table, so many.
fn first_names(alloc: Global, names: &Names, count: u32) -> Result<Names, NoMemory> {
    let mut first = Names::new(alloc);
    for number in 0..count.min(names.len()) {
        if first.len() < u32::MAX {
            first.add(text_of(names, Name(number)))?;
        }
    }
    Ok(first)
}

/// The program that a text is, where so many of its names are known.
pub fn resolved(alloc: Global, text: &[u8], known: u32) -> Result<String, Trouble> {
    let mut names = Names::new(alloc);
    let forms = data_of(alloc, text, &mut names)?;
    let names = first_names(alloc, &names, known)?;
    let program = resolve(alloc, &names, forms.as_slice())?;
    Ok(shown(alloc, &names, &program)?)
}
