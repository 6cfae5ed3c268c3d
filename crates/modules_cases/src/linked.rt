//! Linking a text, and the line of what that answers.

use crate::data::{number_of, text_of};
use crate::rows::row_text;
use crate::trouble::Trouble;
use ps_base::{Fault, Items, Limits, Name, Names, Place, Refusal};
use ps_datum::{Datum, has_known_names, write_datum};
use ps_library::Library;
use ps_modules::{Export, Linked, Opened, Structure, link};
use ps_read::read_all;
use std::alloc::{AllocError, Global};

/// The line of a case of linking, which is a text, or a text with other numbers of bytes for one text and for all.
pub fn linked_line(
    alloc: Global,
    parts: &[Datum],
    libs: &mut Vec<Box<dyn Library>>,
) -> Result<String, Trouble> {
    let mut limits = Limits::standard();
    let text = match parts {
        [text] => text_of(text)?,
        [text, one, all] => {
            limits.text_bytes = number_of(one)?;
            limits.all_bytes = number_of(all)?;
            text_of(text)?
        }
        _ => return Err(Trouble::NoData),
    };
    let mut names = Names::new(alloc);
    match answer_of(alloc, text, &mut names, libs, &limits)? {
        Ok(program) => program_line(alloc, &program, &names),
        Err(refusal) => Ok(refusal_line(alloc, refusal)?),
    }
}

/// The line of a text of so many structures, of which each opens at most so many before it.
pub fn row_line(alloc: Global, structures: u64, opened: u64) -> Result<String, Trouble> {
    let text = row_text(alloc, structures, opened)?;
    let mut names = Names::new(alloc);
    let mut libs = Vec::new(alloc);
    match answer_of(
        alloc,
        text.as_bytes(),
        &mut names,
        &mut libs,
        &Limits::standard(),
    )? {
        Ok(program) => last_line(alloc, &program, &names),
        Err(refusal) => Ok(refusal_line(alloc, refusal)?),
    }
}

// What linking a text answers.
fn answer_of(
    alloc: Global,
    text: &[u8],
    names: &mut Names,
    libs: &mut Vec<Box<dyn Library>>,
    limits: &Limits,
) -> Result<Result<Linked, Refusal>, Trouble> {
    let taken = text.len() as u64;
    if taken > 4_194_304 || taken > limits.all_bytes || limits.all_bytes > 16_777_216 {
        return Err(Trouble::NoData);
    }
    if !names.is_empty() {
        return Err(Trouble::NoData);
    }
    let forms = read_all(alloc, text, 0, names)?;
    if names.len() > 4_194_304 {
        return Err(Trouble::NoData);
    }
    Ok(link(alloc, &forms, taken, names, libs, limits))
}

// How many structures there are, and the last of them.
fn last_line(alloc: Global, program: &Linked, names: &Names) -> Result<String, Trouble> {
    let structures = program.structures.as_slice();
    let mut line = format!(in alloc; "{} ", structures.len())?;
    if let Some(last) = structures.last() {
        put_structure(alloc, last, names, &mut line)?;
    }
    Ok(line)
}

fn place_text(alloc: Global, place: Place) -> Result<String, AllocError> {
    let Place { file, line, column } = place;
    format!(in alloc; "{file}:{line}:{column}")
}

fn refusal_line(alloc: Global, refusal: Refusal) -> Result<String, AllocError> {
    match refusal {
        Refusal::Fault(Fault::Module(kind, place)) => {
            let at = place_text(alloc, place)?;
            format!(in alloc; "{kind:?} {at}")
        }
        Refusal::Fault(Fault::Syntax(kind, place)) => {
            let at = place_text(alloc, place)?;
            format!(in alloc; "{kind:?} {at}")
        }
        _ => format!(in alloc; "{refusal:?}"),
    }
}

fn program_line(alloc: Global, program: &Linked, names: &Names) -> Result<String, Trouble> {
    let mut line = String::new(alloc);
    for structure in program.structures.as_slice() {
        if !line.is_empty() {
            line.push_str(" | ")?;
        }
        put_structure(alloc, structure, names, &mut line)?;
    }
    Ok(line)
}

// A name, the opened structures in brackets, the exports, and the forms.
fn put_structure(
    alloc: Global,
    structure: &Structure,
    names: &Names,
    line: &mut String,
) -> Result<(), Trouble> {
    put_bytes(name_text(names, structure.name), line)?;
    line.push_str(" [")?;
    for (i, opened) in structure.opens.as_slice().iter().enumerate() {
        put_gap(i, line)?;
        put_opened(alloc, *opened, line)?;
    }
    line.push_str("] (")?;
    for (i, export) in structure.exports.as_slice().iter().enumerate() {
        put_gap(i, line)?;
        put_export(*export, names, line)?;
    }
    line.push_str(")")?;
    for datum in structure.body.as_slice() {
        put_datum(alloc, datum, names, line)?;
    }
    Ok(())
}

fn name_text(names: &Names, name: Name) -> &[u8] {
    if name.0 < names.len() {
        names.text(name)
    } else {
        b"?"
    }
}

// Nothing before the first of some texts, and a space before each other.
fn put_gap(i: usize, line: &mut String) -> Result<(), AllocError> {
    if i > 0 { line.push_str(" ") } else { Ok(()) }
}

fn put_opened(alloc: Global, opened: Opened, line: &mut String) -> Result<(), AllocError> {
    match opened {
        Opened::Prescheme => line.push_str("prescheme"),
        Opened::Memory => line.push_str("ps-memory"),
        Opened::Records => line.push_str("ps-record-types"),
        Opened::At(k) => line.push_str(format!(in alloc; "{k}")?.as_str()),
    }
}

// A name, with a star behind it where it is to be a macro.
fn put_export(export: Export, names: &Names, line: &mut String) -> Result<(), AllocError> {
    put_bytes(name_text(names, export.name), line)?;
    if export.syntax {
        line.push_str("*")
    } else {
        Ok(())
    }
}

// A form, with the number of its file behind it where that is not the input.
fn put_datum(
    alloc: Global,
    datum: &Datum,
    names: &Names,
    line: &mut String,
) -> Result<(), Trouble> {
    line.push_str(" ")?;
    let mut text = Items::new(alloc);
    if has_known_names(datum, names) {
        write_datum(datum, names, &mut text)?;
    }
    put_bytes(text.as_slice(), line)?;
    if datum.place.file > 0 {
        let file = datum.place.file;
        line.push_str(format!(in alloc; "@{file}")?.as_str())?;
    }
    Ok(())
}

// Adds bytes, each as a character.
fn put_bytes(text: &[u8], line: &mut String) -> Result<(), AllocError> {
    for byte in text {
        line.push(char::from(*byte))?;
    }
    Ok(())
}
