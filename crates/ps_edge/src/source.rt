//! Sources of bytes.

ghost use Rattle.std.specs.Prelude.{◌≡◌, ℕ, ◌+◌, ◌-◌, ◌^◌, ◌<◌, ◌≤◌, length};
ghost use Rattle.ps_edge.specs.Sources.{ReadsText};

use ps_base::{Bytes, Items};
use std::alloc::{AllocError, Global};

/// What one call of a source gave.
#[derive(Clone, Copy, Debug, PartialEq, Eq)]
pub enum Piece {
    /// So many bytes, at the front of what was to be filled.
    Bytes(usize),
    /// None, since nothing is left.
    End,
    /// None, since the source failed.
    Failed,
}

/// Why a text could not be read.
#[derive(Clone, Copy, Debug, PartialEq, Eq)]
pub enum TextFault {
    /// The source failed before its end.
    Failed,
    /// The source gave more bytes than the limit.
    TooLong,
    /// Memory ran out.
    NoMemory,
}

impl From<AllocError> for TextFault {
    ghost use Rattle.std.specs.Prelude.{◌≡◌};
    ghost use Rattle.ps_edge.specs.declared.source.TextFault.TheVariants as fault;

    ghost from_gives = { λ _ r. r ≡ fault.NoMemory };

    fn from(_e: AllocError) -> TextFault {
        TextFault::NoMemory
    }
}

/// Where bytes come from.
pub trait Source {
    ghost use Rattle.std.specs.Prelude.{◌<◌, length};
    ghost use Rattle.ps_edge.specs.SourceStates.{SourceState};
    ghost use Rattle.ps_edge.specs.Sources.{Gives};

    /// What the source shows of itself: the bytes that are left, where it tells them, how many it has given, and a count
    /// of faults that never falls.
    ghost shows: { Self → SourceState };

    /// Writes the next bytes to the front of `into`, at least one, or gives none at the end, or fails and gives none. It
    /// fails only where its count of faults rises or stands at the last number of 64 bits; a later call may go on. What
    /// `into` holds behind the given bytes is not said.
    fn read(&mut self, into: &mut [u8]) -> Piece
        requires { 0 < length into.old }
        ensures { Gives (shows self.old) (shows self.new) into.new result };
}

/// Reads all that is left, in pieces of at most 4096 bytes.
///
/// Where it does not answer `Ok`, the bytes that were taken are lost: the source stands behind them.
///
/// # Errors
///
/// - `Failed`: a call of the source failed, and its count of faults rose. At most `limit` bytes were taken.
/// - `TooLong`: more than `limit` bytes were taken.
/// - `NoMemory`: memory ran out. At most `limit` bytes were taken.
pub fn read_text<I: Source>(alloc: Global, source: &mut I, limit: u64) -> Result<Bytes, TextFault>
    ensures { ReadsText (I.shows source.old) (I.shows source.new) limit result }
{
    let mut text = Vec::new(alloc);
    let mut buffer = [0u8; 4096];
    'reading: loop {
        match source.read(&mut buffer) {
            Piece::Bytes(k) => {
                if k as u64 > limit - text.len() as u64 {
                    return Err(TextFault::TooLong);
                }
                text.extend_from_slice(&buffer[..k])?;
            }
            Piece::End => return Ok(Items::from_vec(text)),
            Piece::Failed => return Err(TextFault::Failed),
        }
    }
}
