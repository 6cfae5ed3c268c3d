//! Reading and writing in memory, and over readers and writers of std that fail in mid-stream.

ghost use Rattle.std.specs.Prelude.{◌<◌};

use ps_base::{Calls, Items};
use ps_edge::*;
use std::alloc::Global;
use std::fmt::Debug;
use std::io;
use std::io::ErrorKind;
use std::process::Abort;

const LETTERS: &[u8] = b"abcdefghijklmnopqrstuvwxyz";

// What was got is what is wanted.
fn same<T: PartialEq + Debug + Drop>(rt: &impl Abort, got: T, want: T) {
    assert_eq!(rt; got, want);
}

fn calls(rt: &(impl Abort + Alloc<A = Global>), numbers: &[u64]) -> Calls {
    Items::from_slice(rt.alloc(), numbers).expect(rt, "memory")
}

// The letters, so many a call, with these calls failing.
fn letters(rt: &(impl Abort + Alloc<A = Global>), step: usize, failing: &[u64]) -> MemorySource
    requires { 0 < step }
{
    let bytes = Items::from_slice(rt.alloc(), LETTERS).expect(rt, "memory");
    MemorySource::new(bytes, step, calls(rt, failing))
}

fn reads<I: Source>(
    rt: &(impl Abort + Alloc<A = Global>),
    source: &mut I,
    limit: u64,
    want: Result<&[u8], TextFault>,
) {
    match (read_text(rt.alloc(), source, limit), want) {
        (Ok(text), Ok(wanted)) => same(rt, text.as_slice(), wanted),
        (Ok(_), Err(_)) => assert!(rt; false, "it was read whole"),
        (Err(fault), wanted) => same(rt, Err(fault), wanted),
    }
}

#[test]
fn reads_to_the_limit(rt: HostRuntime) {
    let limits: &[(u64, Result<&[u8], TextFault>)] = &[
        (26, Ok(LETTERS)),
        (u64::MAX, Ok(LETTERS)),
        (25, Err(TextFault::TooLong)),
        (0, Err(TextFault::TooLong)),
    ];
    for step in [1, 3, 7, 13, 26, 5000] {
        assert!(rt; step > 0);
        for (limit, want) in limits {
            reads(&rt, &mut letters(&rt, step, &[]), *limit, *want);
        }
    }
    let long = vec![in rt.alloc(); b'x'; 10_000].expect(&rt, "memory");
    let bytes = Items::from_slice(rt.alloc(), &long).expect(&rt, "memory");
    let mut source = MemorySource::new(bytes, 9_999, calls(&rt, &[]));
    reads(&rt, &mut source, 10_000, Ok(&long));
    reads(&rt, &mut source, 0, Ok(b""));
}

#[test]
fn fails_at_the_listed_calls(rt: HostRuntime) {
    // Calls 0 to 2 give letters where none fails, and call 3 is the end. The second reading goes on behind the fault.
    let cases: &[(&[u64], &[u8])] = &[(&[0], LETTERS), (&[9, 1], b"klmnopqrstuvwxyz"), (&[3], b"")];
    for (failing, rest) in cases {
        let mut source = letters(&rt, 10, failing);
        reads(&rt, &mut source, 26, Err(TextFault::Failed));
        reads(&rt, &mut source, 26, Ok(rest));
    }
}

fn sink(
    rt: &(impl Abort + Alloc<A = Global>),
    room: usize,
    step: usize,
    failing: &[u64],
) -> MemorySink
    requires { 0 < step }
{
    MemorySink::new(rt.alloc(), room, step, calls(rt, failing)).expect(rt, "memory")
}

#[test]
fn takes_as_far_as_the_room_goes(rt: HostRuntime) {
    let mut out = sink(&rt, 5, 2, &[1]);
    let cases: &[(&[u8], Taken)] = &[
        (b"abc", Taken::Bytes(2)),
        (b"c", Taken::Failed),
        (b"cde", Taken::Bytes(2)),
        (b"ef", Taken::Bytes(1)),
        (b"f", Taken::Failed),
    ];
    for (piece, want) in cases {
        assert!(rt; !piece.is_empty());
        same(&rt, out.write(piece), *want);
    }
    same(&rt, out.flush(), Ok(()));
    same(&rt, out.bytes(), b"abcde".as_slice());
    let mut counted = DropSink::new();
    same(&rt, write_all(&mut counted, LETTERS), Ok(()));
    same(&rt, counted.flush(), Ok(()));
    same(&rt, counted.taken(), 26);
}

#[test]
fn gathers_before_it_hands_on(rt: HostRuntime) {
    // 65,536 bytes go on at once, in steps of the sink behind; call 1 of it fails, and then it goes on.
    let long = vec![in rt.alloc(); b'x'; 65_535].expect(&rt, "memory");
    let mut out = GatherSink::new(sink(&rt, 70_000, 40_000, &[1]));
    same(&rt, write_all(&mut out, &long), Ok(()));
    same(&rt, write_all(&mut out, b"y"), Ok(()));
    same(&rt, out.behind().bytes().len(), 0);
    same(&rt, write_all(&mut out, b"z"), Err(SinkFault));
    same(&rt, out.behind().bytes().len(), 40_000);
    same(&rt, write_all(&mut out, b"z"), Ok(()));
    same(&rt, out.behind().bytes().len(), 65_536);
    same(&rt, out.flush(), Ok(()));
    same(&rt, out.behind().bytes().len(), 65_537);
    assert!(rt; out.behind().bytes().ends_with(b"xyz"));
}

// A reader and a writer of at most three bytes a call. The call of this number fails, and then it goes on.
#[derive(Drop)]
struct Unsteady {
    left: &'static [u8],
    calls: usize,
    failing: usize,
}

impl Unsteady {
    fn fails(&mut self) -> bool {
        let call = self.calls;
        self.calls = call.saturating_add(1);
        call == self.failing
    }
}

impl io::Read for Unsteady {
    fn read(&mut self, buf: &mut [u8]) -> io::Result<usize> {
        if self.fails() {
            return Err(io::Error::from(ErrorKind::ConnectionReset));
        }
        let k = buf.len().min(self.left.len()).min(3);
        let (front, rest) = self.left.split_at(k);
        buf[..k].copy_from_slice(front);
        self.left = rest;
        Ok(k)
    }
}

impl io::Write for Unsteady {
    fn write(&mut self, buf: &[u8]) -> io::Result<usize> {
        Ok(if self.fails() { 0 } else { buf.len().min(3) })
    }

    fn flush(&mut self) -> io::Result<()> {
        if self.fails() {
            return Err(io::Error::from(ErrorKind::ConnectionReset));
        }
        Ok(())
    }
}

fn failing_at(failing: usize) -> Unsteady {
    Unsteady {
        left: b"abcdefgh",
        calls: 0,
        failing,
    }
}

#[test]
fn goes_on_behind_a_failure(rt: HostRuntime) {
    let mut source = ReaderSource::new(failing_at(1));
    let mut into = [0; 100];
    same(&rt, source.read(&mut into), Piece::Bytes(3));
    same(&rt, &into[..3], b"abc".as_slice());
    same(&rt, source.read(&mut into), Piece::Failed);
    reads(&rt, &mut source, 5, Ok(b"defgh"));
    same(&rt, source.read(&mut into), Piece::End);
    let mut out = WriterSink::new(failing_at(1));
    same(&rt, out.write(b"abcd"), Taken::Bytes(3));
    same(&rt, out.write(b"d"), Taken::Failed);
    same(&rt, out.write(b"d"), Taken::Bytes(1));
    same(&rt, write_all(&mut out, LETTERS), Ok(()));
    same(&rt, out.flush(), Ok(()));
    let mut held = WriterSink::new(failing_at(0));
    same(&rt, held.flush(), Err(SinkFault));
    same(&rt, held.flush(), Ok(()));
}
