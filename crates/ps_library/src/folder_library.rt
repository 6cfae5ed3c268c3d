//! A folder of files as a library.

ghost use Rattle.std.specs.Prelude.{◌≡◌, ℕ, ◌<◌, ◌≤◌, ◌^◌, length, IfOk, IfSome, string_bytes, true, None};
ghost use Rattle.ps_base.specs.Numbers.{more};
ghost use Rattle.std.specs.Str.{IsUtf8};
ghost use Rattle.ps_library.specs.InsideFolders.{Means};
ghost use Rattle.ps_library.specs.Outside.{leads_out, climbs, is_dots, part_after, more_dots};
ghost use Rattle.ps_library.specs.declared.folder_library.Part.TheVariants as parts;

use crate::library::{LibPiece, Library};
use std::io::{ErrorKind, Read, Seek, SeekFrom};
use std::marker::Model;
use std::rt::Files;
use std::{fs, io, str};

/// What a part of a name is so far, where parts stand between slashes.
#[derive(Clone, Copy, Debug, PartialEq, Eq)]
pub enum Part {
    /// Nothing.
    Start,
    /// `.`
    Dot,
    /// `..`
    Dots,
    /// Any other text.
    Other,
}

/// The files below a folder. As a library it tells nothing of them; contracts see how many bytes it has given and how often
/// it failed.
#[derive(Drop)]
pub struct FolderLibrary<R> {
    rt: R,
    folder: String,
    given: u64,
    faults: u64,
}

impl<R> Model for FolderLibrary<R> {
    ghost use Rattle.std.specs.Prelude.{string_bytes};
    ghost use Rattle.ps_library.specs.Folders.{Folder};

    ghost Value = { Folder };

    ghost view = { λ s. record { path = string_bytes s.folder; given = s.given; faults = s.faults } };
}

impl<R> FolderLibrary<R> {
    /// The folder as a library that has given nothing and not failed.
    pub fn new(rt: R, folder: String) -> FolderLibrary<R>
        ensures { result ≡ record { path = string_bytes folder; given = 0; faults = 0 } }
    {
        FolderLibrary {
            rt,
            folder,
            given: 0,
            faults: 0,
        }
    }
}

impl<R: Files + Alloc + Drop> Library for FolderLibrary<R> {
    ghost use Rattle.std.specs.Prelude.{◌≡◌, ◌<◌, length, true};
    ghost use Rattle.std.specs.Str.{IsUtf8};
    ghost use Rattle.ps_library.specs.Libraries.{Answers};
    ghost use Rattle.ps_library.specs.Folders.{folder_shows, given_after, faults_after};
    ghost use Rattle.ps_library.specs.Outside.{leads_out};
    ghost use Rattle.ps_library.specs.declared.library.LibPiece.TheVariants as piece;

    ghost shows = { folder_shows };

    /// Opens the file and reads once from the position on. There is no file of a name that is empty, is no UTF-8, begins
    /// with a slash or has a part `..`. Want of memory is no fault, every other error is one.
    fn read(&mut self, name: &[u8], from: u64, into: &mut [u8]) -> LibPiece
        requires { 0 < length into.old }
        ensures gives { Answers (folder_shows self.old) (folder_shows self.new) name.now from into.new result }
        ensures given { self.new.given ≡ given_after self.old.given result }
        ensures faults { self.new.faults ≡ faults_after self.old.faults result }
        ensures below { leads_out name.now ≡ true → result ≡ piece.Absent }
        ensures text { ¬ (IsUtf8 name.now) → result ≡ piece.Absent }
    {
        let piece = match path_of(name) {
            Some(path) => piece_of(read_at(&self.rt, self.folder.as_str(), path, from, into)),
            None => LibPiece::Absent,
        };
        match piece {
            LibPiece::Bytes(k) => self.given = raised(self.given, k as u64),
            LibPiece::End => {}
            LibPiece::Absent => {}
            LibPiece::Failed => self.faults = raised(self.faults, 1),
            LibPiece::NoMemory => {}
        }
        piece
    }
}

// The name as a path that stays below the folder.
fn path_of(name: &[u8]) -> Option<&str>
    ensures below { leads_out name.now ≡ true → result ≡ None }
    ensures text { ¬ (IsUtf8 name.now) → result ≡ None }
{
    if leads_out(name) {
        return None;
    }
    match str::from_utf8(name) {
        Ok(path) => Some(path),
        Err(_) => None,
    }
}

// Whether the name is empty, begins with a slash or has a part `..`.
fn leads_out(name: &[u8]) -> bool
    ensures { result ≡ leads_out name.now }
{
    match name {
        [] => true,
        [first, ..] => *first == b'/' || climbs(name),
    }
}

// Whether the name has a part `..`.
fn climbs(name: &[u8]) -> bool
    ensures { result ≡ climbs parts.Start name.now }
{
    let mut part = Part::Start;
    for byte in name {
        if *byte == b'/' && is_dots(part) {
            return true;
        }
        part = part_after(part, *byte);
    }
    is_dots(part)
}

// Whether the part so far is `..`.
fn is_dots(part: Part) -> bool
    ensures { result ≡ is_dots part }
{
    match part {
        Part::Dots => true,
        Part::Start => false,
        Part::Dot => false,
        Part::Other => false,
    }
}

// What the part so far is behind one byte more.
fn part_after(part: Part, byte: u8) -> Part
    ensures { result ≡ part_after part byte }
{
    if byte == b'/' {
        Part::Start
    } else if byte == b'.' {
        more_dots(part)
    } else {
        Part::Other
    }
}

// What the part so far is behind one dot more.
fn more_dots(part: Part) -> Part
    ensures { result ≡ more_dots part }
{
    match part {
        Part::Start => Part::Dot,
        Part::Dot => Part::Dots,
        Part::Dots => Part::Other,
        Part::Other => Part::Other,
    }
}

// Reads once from the position on.
fn read_at<R: Files + Alloc>(
    rt: &R,
    folder: &str,
    path: &str,
    from: u64,
    into: &mut [u8],
) -> io::Result<usize>
    ensures count { IfOk result (λ k. k ≤ length into.new) }
    ensures len { length into.new ≡ length into.old }
{
    let whole = format!(in rt.alloc(); "{folder}/{path}")?;
    let mut file = fs::open(rt, whole.as_str())?;
    file.seek(SeekFrom::Start(from))?;
    file.read(into)
}

// What an answer of the runtime means.
fn piece_of(answer: io::Result<usize>) -> LibPiece
    ensures { Means answer result }
{
    match answer {
        Ok(0) => LibPiece::End,
        Ok(k) => LibPiece::Bytes(k),
        Err(e) => match e.kind() {
            ErrorKind::NotFound => LibPiece::Absent,
            ErrorKind::OutOfMemory => LibPiece::NoMemory,
            _ => LibPiece::Failed,
        },
    }
}

// The counter after so many more: it stands still at its last number.
fn raised(count: u64, by: u64) -> u64
    ensures { result ≡ more count by }
{
    count.saturating_add(by)
}
