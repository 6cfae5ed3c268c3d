//! A sink that gathers many small pieces into few large ones.

ghost use Rattle.std.specs.Prelude.{◌≡◌, ℕ, ◌+◌, ◌-◌, ◌<◌, ◌≤◌, ◌^◌, List, [], ◌++◌, length, take, drop, OnOk};
ghost use Rattle.ps_base.specs.Numbers.{Rose};
ghost use Rattle.ps_edge.specs.Gatherings.{Hands, HandsOn};

use ps_base::{Sink, SinkFault, Taken};
use std::marker::Model;

/// How many bytes are held back at most.
const ROOM: usize = 65_536;

/// A sink before another one. It holds back the bytes that it takes, at most 65,536 of them, and hands them on when there is no
/// room for more, or when it is flushed. It takes no memory: the room is its own. As a sink it has taken what the one behind it
/// has, and then what it holds back. Bytes that are held back when it is dropped are lost.
#[derive(Drop)]
pub struct GatherSink<O> {
    sink: O,
    room: [u8; ROOM],
    from: usize,
    to: usize,
}

impl<O> Model for GatherSink<O> {
    ghost use Rattle.std.specs.Prelude.{◌-◌, ◌≤◌, take, drop};
    ghost use Rattle.ps_edge.specs.Gatherings.{Gathering};

    ghost Value = { Gathering O };

    ghost view = { λ s. record { sink = s.sink; held = drop s.from (take s.to s.room); free = 65536 - s.to } };

    ghost invariant = { λ s. (s.from ≤ s.to) × (s.to ≤ 65536) };
}

impl<O> GatherSink<O> {
    /// A sink before this one, which holds nothing back yet.
    pub fn new(sink: O) -> GatherSink<O>
        ensures { result ≡ record { sink = sink; held = []; free = 65536 } }
    {
        GatherSink {
            sink,
            room: [0; ROOM],
            from: 0,
            to: 0,
        }
    }

    /// The sink behind it.
    pub fn behind(&self) -> &O
        ensures { result.now ≡ self.now.sink }
    {
        &self.sink
    }
}

impl<O: Sink> GatherSink<O> {
    // Hands on all that is held back.
    fn hand_on(&mut self) -> Result<(), SinkFault>
        ensures hands { HandsOn (O.shows self.old.sink) (O.shows self.new.sink) self.old.held self.new.held result }
        ensures free { OnOk result (0 < self.new.free) }
    {
        self.from = give(&mut self.sink, &self.room[..self.to], self.from);
        if self.from < self.to {
            return Err(SinkFault);
        }
        self.from = 0;
        self.to = 0;
        Ok(())
    }

    // Takes the front of a piece for which there is room.
    fn keep(&mut self, piece: &[u8]) -> usize
        requires room { 0 < self.old.free }
        requires bytes { 0 < length piece.now }
        ensures some { 0 < result }
        ensures within { result ≤ length piece.now }
        ensures sink { self.new.sink ≡ self.old.sink }
        ensures held { self.new.held ≡ self.old.held ++ take result piece.now }
    {
        let k = copy(&mut self.room, self.to, piece);
        self.to += k;
        k
    }
}

// Gives the bytes from the place `from` on to a sink until it fails, and tells the place to which it took them.
fn give<O: Sink>(sink: &mut O, bytes: &[u8], from: usize) -> usize
    requires { from ≤ length bytes.now }
    ensures within { result ≤ length bytes.now }
    ensures hands { Hands (O.shows sink.old) (O.shows sink.new) (drop from bytes.now) (drop result bytes.now) }
    ensures rose { result < length bytes.now → Rose (O.shows sink.old).faults (O.shows sink.new).faults }
{
    let mut at = from;
    while at < bytes.len() {
        match sink.write(&bytes[at..]) {
            Taken::Bytes(k) => at += k,
            Taken::Failed => return at,
        }
    }
    at
}

// Copies the front of a piece behind the first `to` bytes of a room, as far as there is room, and tells how many it copied.
fn copy(room: &mut [u8], to: usize, piece: &[u8]) -> usize
    requires free { to < length room.old }
    requires given { 0 < length piece.now }
    ensures some { 0 < result }
    ensures within { result ≤ length piece.now }
    ensures room { to + result ≤ length room.old }
    ensures same { length room.new ≡ length room.old }
    ensures bytes { take (to + result) room.new ≡ take to room.old ++ take result piece.now }
{
    let k = piece.len().min(room.len() - to);
    room[to..to + k].copy_from_slice(&piece[..k]);
    k
}

impl<O: Sink> Sink for GatherSink<O> {
    ghost use Rattle.std.specs.Prelude.{◌≡◌, ◌<◌, length};
    ghost use Rattle.ps_base.specs.Sinks.{Takes, Flushes};
    ghost use Rattle.ps_edge.specs.Gatherings.{gathering_shows};
    ghost use Rattle.ps_base.proofs.Writing.{tells_more};

    ghost shows = { gathering_shows O.shows };

    ghost tells_number = { λ g. tells_more (O.shows g.sink).bytes (O.shows g.sink).number g.held (O.tells_number g.sink) };

    /// Takes as much of the piece as there is room for. Where there is none, what is held back is handed on first.
    fn write(&mut self, piece: &[u8]) -> Taken
        requires { 0 < length piece.now }
        ensures takes { Takes (gathering_shows O.shows self.old) (gathering_shows O.shows self.new) piece.now result }
    {
        if self.to == ROOM && self.hand_on().is_err() {
            return Taken::Failed;
        }
        Taken::Bytes(self.keep(piece))
    }

    /// Hands on what is held back, and flushes the sink behind.
    fn flush(&mut self) -> Result<(), SinkFault>
        ensures flushes { Flushes (gathering_shows O.shows self.old) (gathering_shows O.shows self.new) result }
    {
        self.hand_on()?;
        self.sink.flush()
    }
}
