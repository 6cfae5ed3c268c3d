//! Sinks of bytes.

ghost use Rattle.std.specs.Prelude.{ℕ, ◌<◌, length};
ghost use Rattle.ps_base.specs.Sinks.{Writes};

/// What one call of a sink took.
#[derive(Clone, Copy, Debug, PartialEq, Eq)]
pub enum Taken {
    /// So many bytes, from the front.
    Bytes(usize),
    /// None, since the sink failed.
    Failed,
}

/// A sink failed, and its count of faults rose or stands at the last number of 64 bits.
#[derive(Clone, Copy, Debug, PartialEq, Eq)]
pub struct SinkFault;

/// Where bytes go.
pub trait Sink {
    ghost use Rattle.std.specs.Prelude.{◌<◌, length};
    ghost use Rattle.ps_base.specs.SinkStates.{SinkState, TellsNumber};
    ghost use Rattle.ps_base.specs.Sinks.{Takes, Flushes};

    /// What the sink shows of itself: the bytes that it has taken and their number, where it tells them, a count of faults
    /// that never falls, and how many of the bytes it holds back, to hand them on later.
    ghost shows: { Self → SinkState };

    /// A sink that tells its bytes tells their number.
    ghost tells_number: { (sink : Self) → TellsNumber (shows sink).bytes (shows sink).number };

    /// Takes bytes from the front of a piece that is not empty, at least one, or fails and takes none. It fails only where
    /// its count of faults rises or stands at the last number of 64 bits.
    fn write(&mut self, piece: &[u8]) -> Taken
        requires { 0 < length piece.now }
        ensures { Takes (shows self.old) (shows self.new) piece.now result };

    /// Hands on all that the sink holds back.
    ///
    /// # Errors
    ///
    /// `SinkFault` where it failed: its count of faults rose or stands at the last number of 64 bits. What was not handed on
    /// is held back as before.
    fn flush(&mut self) -> Result<(), SinkFault>
        ensures { Flushes (shows self.old) (shows self.new) result };
}

/// Appends all the bytes.
///
/// # Errors
///
/// `SinkFault` where the sink failed. A front of the bytes was appended, and the sink's count of faults rose or stands at
/// the last number of 64 bits.
pub fn write_all<O: Sink>(out: &mut O, bytes: &[u8]) -> Result<(), SinkFault>
    ensures { Writes (O.shows out.old) (O.shows out.new) bytes.now result }
{
    let mut rest = bytes;
    while !rest.is_empty() {
        match out.write(rest) {
            Taken::Bytes(k) => rest = &rest[k..],
            Taken::Failed => return Err(SinkFault),
        }
    }
    Ok(())
}
