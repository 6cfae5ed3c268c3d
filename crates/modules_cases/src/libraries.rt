//! The libraries of a case.

use crate::changing::{Changing, Way};
use crate::data::{form_of, members, number_of, text_of, word};
use crate::trouble::Trouble;
use ps_base::{Items, Names};
use ps_datum::Datum;
use ps_library::{MemoryLibrary, NamedText};
use std::alloc::Global;

/// A library before it is boxed.
#[derive(Drop)]
pub enum Plan {
    /// One in memory.
    Memory(MemoryLibrary),
    /// One that changes.
    Changing(Changing),
    /// One over the folder of this path.
    Folder(String),
}

/// The library that a datum stands for.
pub fn library_of(alloc: Global, names: &Names, d: &Datum) -> Result<Plan, Trouble> {
    match word(names, d) {
        b"endless" => return Ok(Plan::Changing(Changing::new(Way::Endless))),
        b"ends" => return Ok(Plan::Changing(Changing::new(Way::Ends))),
        b"no-memory" => return Ok(Plan::Changing(Changing::new(Way::NoMemory))),
        _ => {}
    }
    let (kind, parts) = form_of(d)?;
    match (word(names, kind), parts) {
        (b"once", [text]) => once_of(alloc, text),
        (b"folder", [path]) => folder_of(alloc, path),
        (b"memory", files) => memory_of(alloc, &[], files),
        (b"failing", [calls, files @ ..]) => memory_of(alloc, members(calls)?, files),
        _ => Err(Trouble::Unread(d.place)),
    }
}

fn once_of(alloc: Global, text: &Datum) -> Result<Plan, Trouble> {
    let text = Items::from_slice(alloc, text_of(text)?)?;
    Ok(Plan::Changing(Changing::new(Way::Once(text))))
}

fn folder_of(alloc: Global, path: &Datum) -> Result<Plan, Trouble> {
    match std::str::from_utf8(text_of(path)?) {
        Ok(path) => Ok(Plan::Folder(String::from_str(alloc, path)?)),
        Err(_) => Err(Trouble::Unread(path.place)),
    }
}

// A library of files that fails at the listed calls. A file is a list of its name and its text.
fn memory_of(alloc: Global, calls: &[Datum], files: &[Datum]) -> Result<Plan, Trouble> {
    let mut failing = Items::new(alloc);
    for call in calls {
        failing.push(number_of(call)?)?;
    }
    let mut texts = Items::new(alloc);
    for file in files {
        texts.push(named_text_of(alloc, file)?)?;
    }
    Ok(Plan::Memory(MemoryLibrary::new(texts, failing)))
}

fn named_text_of(alloc: Global, file: &Datum) -> Result<NamedText, Trouble> {
    match members(file)? {
        [name, text] => Ok(NamedText {
            name: Items::from_slice(alloc, text_of(name)?)?,
            text: Items::from_slice(alloc, text_of(text)?)?,
        }),
        _ => Err(Trouble::Unread(file.place)),
    }
}
