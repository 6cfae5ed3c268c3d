//! Readers and writers of std as sources and sinks.

ghost use Rattle.std.specs.Prelude.{◌≡◌, ℕ, ◌<◌, ◌≤◌, ◌^◌};
ghost use Rattle.ps_base.specs.Numbers.{more};
ghost use Rattle.ps_edge.specs.Adapters.{piece_read, bytes_taken};

use crate::source::{Piece, Source};
use ps_base::{Sink, SinkFault, Taken};
use std::io;
use std::io::{Read, Write};
use std::marker::Model;

/// A reader as a source. As a source it tells nothing of what is left; contracts see the reader, how many bytes it has
/// given and how often it failed.
#[derive(Drop)]
pub struct ReaderSource<R> {
    reader: R,
    given: u64,
    faults: u64,
}

impl<R> Model for ReaderSource<R> {
    ghost use Rattle.ps_edge.specs.Adapters.{Reading};

    ghost Value = { Reading R };

    ghost view = { λ s. record { reader = s.reader; given = s.given; faults = s.faults } };
}

impl<R> ReaderSource<R> {
    /// The reader as a source that has given nothing and not failed.
    pub fn new(reader: R) -> ReaderSource<R>
        ensures { result ≡ record { reader = reader; given = 0; faults = 0 } }
    {
        ReaderSource {
            reader,
            given: 0,
            faults: 0,
        }
    }
}

impl<R: Read> Source for ReaderSource<R> {
    ghost use Rattle.std.specs.Prelude.{◌≡◌, ◌<◌, length};
    ghost use Rattle.ps_edge.specs.Sources.{Gives};
    ghost use Rattle.ps_edge.specs.Adapters.{reading_shows, ReadsOn, given_after, read_faults_after};

    ghost shows = { reading_shows };

    /// Reads once. 0 bytes are the end, and every error is a fault. The counts of bytes and of faults stand still at the
    /// last number of 64 bits. A reader that tells the bytes that it has left loses just those that are given.
    fn read(&mut self, into: &mut [u8]) -> Piece
        requires { 0 < length into.old }
        ensures gives { Gives (reading_shows self.old) (reading_shows self.new) into.new result }
        ensures reader { ReadsOn (R.remaining self.old.reader) (R.remaining self.new.reader) into.new result }
        ensures given { self.new.given ≡ given_after self.old.given result }
        ensures faults { self.new.faults ≡ read_faults_after self.old.faults result }
    {
        let piece = piece_of(self.reader.read(into));
        match piece {
            Piece::Bytes(k) => self.given = raised(self.given, k as u64),
            Piece::End => {}
            Piece::Failed => self.faults = raised(self.faults, 1),
        }
        piece
    }
}

// What a reader's answer means.
fn piece_of(answer: io::Result<usize>) -> Piece
    ensures { result ≡ piece_read answer }
{
    match answer {
        Ok(0) => Piece::End,
        Ok(k) => Piece::Bytes(k),
        Err(_) => Piece::Failed,
    }
}

/// A writer as a sink. As a sink it tells nothing of what it has taken; contracts see the writer and how often it failed.
#[derive(Drop)]
pub struct WriterSink<W> {
    writer: W,
    faults: u64,
}

impl<W> Model for WriterSink<W> {
    ghost use Rattle.ps_edge.specs.Adapters.{Writing};

    ghost Value = { Writing W };

    ghost view = { λ s. record { writer = s.writer; faults = s.faults } };
}

impl<W> WriterSink<W> {
    /// The writer as a sink that has not failed.
    pub fn new(writer: W) -> WriterSink<W>
        ensures { result ≡ record { writer = writer; faults = 0 } }
    {
        WriterSink { writer, faults: 0 }
    }
}

impl<W: Write> Sink for WriterSink<W> {
    ghost use Rattle.std.specs.Prelude.{◌≡◌, ◌<◌, length};
    ghost use Rattle.std.specs.Io.KnownBytes.{Keeps};
    ghost use Rattle.ps_base.specs.Sinks.{Takes, Flushes};
    ghost use Rattle.ps_edge.specs.Adapters.{writing_shows, WritesOn, write_faults_after, flush_faults_after};

    ghost shows = { writing_shows };

    ghost tells_number = { λ _. tt };

    /// Writes once. An error is a fault, and so it is to take 0 bytes. The count of faults stands still at the last number
    /// of 64 bits. A writer that tells the bytes that it holds gets just those that are taken.
    fn write(&mut self, piece: &[u8]) -> Taken
        requires { 0 < length piece.now }
        ensures takes { Takes (writing_shows self.old) (writing_shows self.new) piece.now result }
        ensures writer { WritesOn (W.contents self.old.writer) (W.contents self.new.writer) piece.now result }
        ensures faults { self.new.faults ≡ write_faults_after self.old.faults result }
    {
        let taken = taken_of(self.writer.write(piece));
        if taken == Taken::Failed {
            self.faults = raised(self.faults, 1);
        }
        taken
    }

    /// Flushes the writer. An error is a fault. This sink itself holds nothing back.
    fn flush(&mut self) -> Result<(), SinkFault>
        ensures flushes { Flushes (writing_shows self.old) (writing_shows self.new) result }
        ensures writer { Keeps (W.contents self.old.writer) (W.contents self.new.writer) }
        ensures faults { self.new.faults ≡ flush_faults_after self.old.faults result }
    {
        match self.writer.flush() {
            Ok(()) => Ok(()),
            Err(_) => {
                self.faults = raised(self.faults, 1);
                Err(SinkFault)
            }
        }
    }
}

// What a writer's answer means.
fn taken_of(answer: io::Result<usize>) -> Taken
    ensures { result ≡ bytes_taken answer }
{
    match answer {
        Ok(0) | Err(_) => Taken::Failed,
        Ok(k) => Taken::Bytes(k),
    }
}

// The counter after so many more: it stands still at its last number.
fn raised(count: u64, by: u64) -> u64
    ensures { result ≡ more count by }
{
    count.saturating_add(by)
}
