//! The cases, and the line of each.

use crate::data::{form_of, members, number_of, text_of, word};
use crate::libraries::{Plan, library_of};
use crate::linked::{linked_line, row_line};
use crate::trouble::Trouble;
use ps_base::{Bytes, Names};
use ps_datum::Datum;
use ps_library::{FetchFault, FolderLibrary, Library, fetch, folders_of};
use ps_read::read_all;
use std::alloc::{AllocError, Global};

// Adds a text, byte by byte.
fn put_text(text: &[u8], line: &mut String) -> Result<(), AllocError> {
    for byte in text {
        line.push(char::from(*byte))?;
    }
    Ok(())
}

// Adds what fetching answered, behind what other fetching did.
fn put_answer(
    alloc: Global,
    answer: &Result<Bytes, FetchFault>,
    line: &mut String,
) -> Result<(), AllocError> {
    if !line.is_empty() {
        line.push_str("; ")?;
    }
    match answer {
        Ok(text) => put_text(text.as_slice(), line),
        Err(fault) => line.push_str(format!(in alloc; "{fault:?}")?.as_str()),
    }
}

// The name and the room of a wish.
fn wish_of(wish: &Datum) -> Result<(&[u8], u64), Trouble> {
    match members(wish)? {
        [name, room] => Ok((text_of(name)?, number_of(room)?)),
        _ => Err(Trouble::Unread(wish.place)),
    }
}

// What a case answers that asks libraries.
fn asked(
    rt: &HostRuntime,
    names: &Names,
    kind: &Datum,
    libraries: &Datum,
    parts: &[Datum],
) -> Result<String, Trouble> {
    let alloc = rt.alloc();
    let mut libs: Vec<Box<dyn Library>> = Vec::new(alloc);
    for d in members(libraries)? {
        match library_of(alloc, names, d)? {
            Plan::Memory(library) => libs.push(Box::new(alloc, library)?)?,
            Plan::Changing(library) => libs.push(Box::new(alloc, library)?)?,
            Plan::Folder(path) => {
                libs.push(Box::new(alloc, FolderLibrary::new(rt.clone()?, path))?)?;
            }
        }
    }
    match word(names, kind) {
        b"fetch" => fetched_line(alloc, parts, libs),
        b"link" => linked_line(alloc, parts, &mut libs),
        _ => Err(Trouble::Unread(kind.place)),
    }
}

// What fetching these files one after another answers.
fn fetched_line(
    alloc: Global,
    wishes: &[Datum],
    libs: Vec<Box<dyn Library>>,
) -> Result<String, Trouble> {
    let mut libs = libs;
    let mut line = String::new(alloc);
    for wish in wishes {
        let (name, room) = wish_of(wish)?;
        let answer = fetch(alloc, &mut libs, name, room);
        put_answer(alloc, &answer, &mut line)?;
    }
    Ok(line)
}

// The folders that words name, each in angle brackets.
fn folders(alloc: Global, parts: &[Datum]) -> Result<String, Trouble> {
    let mut words = Vec::new(alloc);
    for d in parts {
        let mut word = String::new(alloc);
        put_text(text_of(d)?, &mut word)?;
        words.push(word)?;
    }
    let mut line = String::new(alloc);
    for folder in &folders_of(alloc, &words)? {
        line.push_str(format!(in alloc; "<{folder}>")?.as_str())?;
    }
    Ok(line)
}

// The line of a case.
fn line_of(rt: &HostRuntime, names: &Names, d: &Datum) -> Result<String, Trouble> {
    let (kind, parts) = form_of(d)?;
    match (word(names, kind), parts) {
        (b"folders", _) => folders(rt.alloc(), parts),
        (b"row", [structures, opened]) => {
            row_line(rt.alloc(), number_of(structures)?, number_of(opened)?)
        }
        (_, [libraries, rest @ ..]) => asked(rt, names, kind, libraries, rest),
        _ => Err(Trouble::Unread(kind.place)),
    }
}

// Adds a line.
fn add_line(
    alloc: Global,
    line: Result<String, Trouble>,
    out: &mut String,
) -> Result<(), AllocError> {
    match line {
        Ok(line) => out.push_str(line.as_str())?,
        Err(trouble) => out.push_str(format!(in alloc; "{trouble:?}")?.as_str())?,
    }
    out.push_str("\n")
}

/// The lines of all cases of a text.
pub fn lines_of(rt: &HostRuntime, text: &[u8]) -> Result<String, Trouble> {
    if text.len() > 4_194_304 {
        return Err(Trouble::NoData);
    }
    let alloc = rt.alloc();
    let mut names = Names::new(alloc);
    let cases = read_all(alloc, text, 0, &mut names)?;
    let mut out = String::new(alloc);
    for d in cases.as_slice() {
        add_line(alloc, line_of(rt, &names, d), &mut out)?;
    }
    Ok(out)
}
