//! Libraries that change from call to call. They tell nothing of their files.

use ps_base::Bytes;
use ps_library::{LibPiece, Library};

/// What a changing library does.
#[derive(Drop)]
pub enum Way {
    /// It gives these bytes at its first call, and has no file at every later one.
    Once(Bytes),
    /// It gives the byte 32 at every call.
    Endless,
    /// It is at the end at every call.
    Ends,
    /// It has no memory at any call.
    NoMemory,
}

/// A library that changes.
#[derive(Drop)]
pub struct Changing {
    way: Way,
    was_asked: bool,
    given: u64,
}

impl Changing {
    /// A library that was not asked yet.
    pub fn new(way: Way) -> Changing {
        Changing {
            way,
            was_asked: false,
            given: 0,
        }
    }
}

impl Library for Changing {
    ghost use Rattle.std.specs.Prelude.{[], ◌<◌, length, None};

    ghost shows = { λ s. record { key = []; files = None; given = s.given; faults = 0 } };

    fn read(&mut self, _name: &[u8], _from: u64, into: &mut [u8]) -> LibPiece {
        let again = self.was_asked;
        self.was_asked = true;
        match &self.way {
            Way::Once(text) => {
                let k = into.len().min(text.len());
                if again || k == 0 {
                    return LibPiece::Absent;
                }
                let (front, _) = text.as_slice().split_at(k);
                into[..k].copy_from_slice(front);
                self.given = self.given.saturating_add(k as u64);
                LibPiece::Bytes(k)
            }
            Way::Endless => {
                let k = into.len().min(1);
                let (front, _) = b" ".split_at(k);
                into[..k].copy_from_slice(front);
                self.given = self.given.saturating_add(k as u64);
                LibPiece::Bytes(k)
            }
            Way::Ends => LibPiece::End,
            Way::NoMemory => LibPiece::NoMemory,
        }
    }
}
