//! Names in a table, the standard limits, and pieces of a text into a sink that fails in
//! mid-stream.

ghost use Rattle.std.specs.Prelude.{◌<◌, ◌^◌, length, decimal};
ghost use Rattle.ps_base.specs.Texts.{◌&◌};

use ps_base::*;
use std::alloc::Global;
use std::test::Fail;

#[test]
fn numbers_texts_in_order(rt: HostRuntime) -> Result<(), Fail> {
    let mut names = Names::new(rt.alloc());
    assert!(rt; names.is_empty());
    let table = [
        (b"car".as_slice(), 0, 1),
        (b"cdr", 1, 2),
        (b"car", 0, 2),
        (b"", 2, 3),
        (b"Car", 3, 4),
        (b"cdr", 1, 4),
        (b"", 2, 4),
    ];
    for (text, number, len) in table {
        assert!(rt; names.len() < u32::MAX);
        let name = names.add(text)?;
        assert_eq!(rt; name, Name(number));
        assert_eq!(rt; names.len(), len);
        assert!(rt; name.0 < names.len());
        assert_eq!(rt; names.text(name), text);
    }
    assert!(rt; !names.is_empty());
    Ok(())
}

#[test]
fn standard_limits(rt: HostRuntime) {
    let limits = Limits {
        text_bytes: 4 * 1024 * 1024,
        all_bytes: 16 * 1024 * 1024,
        transcriptions: 100_000,
        transcribed: 10_000_000,
        nodes: 1_000_000,
        depth: 1_000,
        budget: 1_000_000,
        cells: 16_000_000,
        keys: 4_096,
        nested: 200,
        leaves: 127,
        code: 2_000_000,
    };
    assert_eq!(rt; Limits::standard(), limits);
    assert_eq!(rt; Refusal::from(NoMemory), Refusal::NoMemory);
}

// A sink of at most two bytes a call. The call of this number fails, and then it goes on.
fn sink(alloc: Global, failing: u64) -> Result<MemorySink, Fail> {
    let failing = Items::from_slice(alloc, &[failing])?;
    Ok(MemorySink::new(alloc, 99, 2, failing)?)
}

#[test]
fn writes_all_or_a_front(rt: HostRuntime) -> Result<(), Fail> {
    // The first call, which fails, is not that of the empty text.
    let table = [
        (9, Ok(()), b"abcdecde".as_slice()),
        (1, Err(SinkFault), b"abcde"),
        (0, Err(SinkFault), b"cde"),
    ];
    for (failing, want, text) in table {
        let mut out = sink(rt.alloc(), failing)?;
        assert_eq!(rt; write_all(&mut out, b""), Ok(()));
        assert_eq!(rt; write_all(&mut out, b"abcde"), want);
        assert_eq!(rt; write_all(&mut out, b"cde"), Ok(()));
        assert_eq!(rt; out.bytes(), text, "call {failing} fails");
    }
    Ok(())
}

// Members by their digits, each with its place before it.
struct Numbered;

impl Style<u64> for Numbered {
    ghost text = { λ k n. decimal k & decimal n };

    #[tactic(auto, using(ps_base::proofs::Writing::adds_then))]
    fn put_at<O: Sink>(out: &mut O, so_far: Written, place: u64, item: &u64) -> Written {
        let so_far = put_number(out, so_far, place);
        put_number(out, so_far, *item)
    }
}

#[test]
fn puts_pieces_until_the_first_fault(rt: HostRuntime) -> Result<(), Fail> {
    let alloc = rt.alloc();
    // Each piece but the last has at most two bytes, so it is one call of the sink.
    let numbers = Items::from_slice(alloc, &[70, 80, 90])?;
    let table = [
        (
            99,
            Ok(()),
            b"n=0:070180290:9700-1-9223372036854775808".as_slice(),
        ),
        (1, Err(SinkFault), b"n="),
        (5, Err(SinkFault), b"n=0:070"),
        (13, Err(SinkFault), b"n=0:070180290:9700"),
    ];
    for (failing, want, text) in table {
        let mut out = sink(alloc, failing)?;
        let so_far = put_numbered(&mut out, Ok(()), b"n=", 0);
        let so_far = put(&mut out, so_far, b":");
        let so_far = put_all::<Numbered, u64, MemorySink>(&mut out, so_far, &numbers);
        let so_far = put(&mut out, so_far, b":");
        let so_far = put_each::<Numbered, u64, MemorySink>(&mut out, so_far, 9, &[70]);
        let so_far = put_integer(&mut out, so_far, 0);
        let so_far = put_integer(&mut out, so_far, -1);
        let so_far = put_integer(&mut out, so_far, i64::MIN);
        assert_eq!(rt; so_far, want, "call {failing} fails");
        assert_eq!(rt; out.bytes(), text, "call {failing} fails");
    }
    Ok(())
}
