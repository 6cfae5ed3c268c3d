//! The search path.

ghost use Rattle.std.specs.Prelude.{◌≡◌, ℕ, ◌+◌, ◌-◌, ◌^◌, ◌<◌, ◌≤◌, length, map, ◌↔◌, IsTrue, Err};
ghost use Rattle.ps_library.specs.declared.fetching.FetchFault.TheVariants as fault;
ghost use Rattle.ps_library.specs.Fetching.{ReadsFile, Fetches};

use crate::library::{LibPiece, Library};
use ps_base::{Bytes, Items};
use std::alloc::{AllocError, Global};

/// Why a file could not be fetched.
#[derive(Clone, Copy, Debug, PartialEq, Eq)]
pub enum FetchFault {
    /// No library has a file of that name.
    Absent,
    /// The library of this number failed.
    Failed(u64),
    /// The file has more bytes than there is room for.
    TooLong,
    /// Memory ran out.
    NoMemory,
}

impl From<AllocError> for FetchFault {
    ghost use Rattle.std.specs.Prelude.{◌≡◌};
    ghost use Rattle.ps_library.specs.declared.fetching.FetchFault.TheVariants as fault;

    ghost from_gives = { λ _ r. r ≡ fault.NoMemory };

    fn from(_e: AllocError) -> FetchFault {
        FetchFault::NoMemory
    }
}

/// The file of this name, from the first library that does not answer that it has none. Each library is asked for at most
/// 4096 bytes at a call, and stays in its place whatever is answered.
///
/// # Errors
///
/// - `Absent`: each library answered that it has no file of that name.
/// - `Failed`: a call of the library of this number failed, and its count of faults rose.
/// - `TooLong`: more than `room` bytes were taken of the file.
/// - `NoMemory`: memory ran out, here or in a library.
pub fn fetch(
    alloc: Global,
    libs: &mut Vec<Box<dyn Library>>,
    name: &[u8],
    room: u64,
) -> Result<Bytes, FetchFault>
    ensures { Fetches name.now room (map (λ b. shows b) libs.old.items) (map (λ b. shows b) libs.new.items) result }
{
    for i in 0..libs.len() {
        let answer = ask(alloc, &mut libs[i], i as u64, name, room);
        if !is_absent(&answer) {
            return answer;
        }
    }
    Err(FetchFault::Absent)
}

// Whether the answer is that there is no such file.
fn is_absent(answer: &Result<Bytes, FetchFault>) -> bool
    ensures { IsTrue result ↔ (answer.now ≡ Err fault.Absent) }
{
    match answer {
        Err(FetchFault::Absent) => true,
        Err(FetchFault::Failed(_)) => false,
        Err(FetchFault::TooLong) => false,
        Err(FetchFault::NoMemory) => false,
        Ok(_) => false,
    }
}

// The file of this name in one member of the search path.
fn ask(
    alloc: Global,
    lib: &mut Box<dyn Library>,
    number: u64,
    name: &[u8],
    room: u64,
) -> Result<Bytes, FetchFault>
    ensures { ReadsFile name.now room number (shows lib.old) (shows lib.new) result }
{
    read_file(alloc, &mut **lib, number, name, room)
}

// The file of this name in one library, whose number is `number`, in pieces of at most 4096 bytes.
fn read_file(
    alloc: Global,
    lib: &mut dyn Library,
    number: u64,
    name: &[u8],
    room: u64,
) -> Result<Bytes, FetchFault>
    ensures { ReadsFile name.now room number (shows lib.old) (shows lib.new) result }
{
    let mut text = Vec::new(alloc);
    let mut buffer = [0u8; 4096];
    'reading: loop {
        match lib.read(name, text.len() as u64, &mut buffer) {
            LibPiece::Bytes(k) => {
                if k as u64 > room - text.len() as u64 {
                    return Err(FetchFault::TooLong);
                }
                text.extend_from_slice(&buffer[..k])?;
            }
            LibPiece::End => return Ok(Items::from_vec(text)),
            LibPiece::Absent => {
                if text.len() == 0 {
                    return Err(FetchFault::Absent);
                }
                return Ok(Items::from_vec(text));
            }
            LibPiece::Failed => return Err(FetchFault::Failed(number)),
            LibPiece::NoMemory => return Err(FetchFault::NoMemory),
        }
    }
}
