//! A sink that keeps nothing.

ghost use Rattle.std.specs.Prelude.{◌≡◌, ℕ, ◌<◌, ◌^◌, length};
ghost use Rattle.ps_base.specs.Numbers.{more};

use ps_base::{Sink, SinkFault, Taken};
use std::marker::Model;

/// A sink that takes every piece whole and keeps none of it, to find out how long a text is. It never fails. Contracts see how
/// many bytes it has taken, up to the last number of 64 bits.
#[derive(Drop)]
pub struct DropSink {
    taken: u64,
}

impl Model for DropSink {
    ghost use Rattle.std.specs.Prelude.{ℕ};

    ghost Value = { ℕ };

    ghost view = { λ s. s.taken };
}

impl DropSink {
    /// A sink that has taken nothing.
    pub fn new() -> DropSink
        ensures { result ≡ 0 }
    {
        DropSink { taken: 0 }
    }

    /// How many bytes it has taken, or the last number of 64 bits where there were more.
    pub fn taken(&self) -> u64
        ensures { result ≡ self.now }
    {
        self.taken
    }
}

impl Sink for DropSink {
    ghost use Rattle.std.specs.Prelude.{◌≡◌, ◌<◌, length, Ok};
    ghost use Rattle.ps_base.specs.Numbers.{more};
    ghost use Rattle.ps_base.specs.Sinks.{Takes, Flushes};
    ghost use Rattle.ps_base.specs.declared.sink.Taken.TheVariants as taken;
    ghost use Rattle.ps_edge.specs.Counting.{counting_shows};

    ghost shows = { counting_shows };

    ghost tells_number = { λ _. tt };

    /// Takes the whole piece.
    fn write(&mut self, piece: &[u8]) -> Taken
        requires { 0 < length piece.now }
        ensures takes { Takes (counting_shows self.old) (counting_shows self.new) piece.now result }
        ensures answer { result ≡ taken.Bytes (length piece.now) }
        ensures after { self.new ≡ more self.old (length piece.now) }
    {
        self.taken = self.taken.saturating_add(piece.len() as u64);
        Taken::Bytes(piece.len())
    }

    /// Nothing is ever held back.
    fn flush(&mut self) -> Result<(), SinkFault>
        ensures flushes { Flushes (counting_shows self.old) (counting_shows self.new) result }
        ensures answer { result ≡ Ok tt }
        ensures after { self.new ≡ self.old }
    {
        Ok(())
    }
}
