//! Pieces of a text, written one after another until the first fault. Behind a fault nothing is written, and the fault is
//! the answer to the end. Nothing here takes memory.

ghost use Rattle.std.specs.Prelude.{ℕ, ◌+◌, ◌<◌, ◌^◌, List, length, decimal};
ghost use Rattle.std.specs.Fmt.{signed_decimal};
ghost use Rattle.ps_base.specs.Sinks.{Adds};
ghost use Rattle.ps_base.specs.Texts.{◌&◌, each};

use crate::items::Items;
use crate::sink::{Sink, SinkFault, write_all};
use itoa::Buffer;

/// What came of the pieces so far.
pub type Written = Result<(), SinkFault>;

/// Appends the bytes, unless a fault came before.
pub fn put<O: Sink>(out: &mut O, so_far: Written, bytes: &[u8]) -> Written
    ensures { Adds (O.shows out.old) so_far (O.shows out.new) result bytes.now }
{
    match so_far {
        Ok(()) => write_all(out, bytes),
        Err(fault) => Err(fault),
    }
}

/// Appends the decimal digits of the number, unless a fault came before.
pub fn put_number<O: Sink>(out: &mut O, so_far: Written, number: u64) -> Written
    ensures { Adds (O.shows out.old) so_far (O.shows out.new) result (decimal number) }
{
    let mut buffer = Buffer::new();
    put(out, so_far, buffer.format(number).as_bytes())
}

/// Appends the bytes and then the decimal digits of the number, unless a fault came before.
#[tactic(auto, using(crate::proofs::Writing::adds_then))]
pub fn put_numbered<O: Sink>(out: &mut O, so_far: Written, bytes: &[u8], number: u64) -> Written
    ensures { Adds (O.shows out.old) so_far (O.shows out.new) result (bytes.now & decimal number) }
{
    let so_far = put(out, so_far, bytes);
    put_number(out, so_far, number)
}

/// Appends the decimal digits of the integer, behind `-` where it is negative, unless a fault came before.
pub fn put_integer<O: Sink>(out: &mut O, so_far: Written, number: i64) -> Written
    ensures { Adds (O.shows out.old) so_far (O.shows out.new) result (signed_decimal number) }
{
    let mut buffer = Buffer::new();
    put(out, so_far, buffer.format(number).as_bytes())
}

/// A way to write the members of a list.
pub trait Style<T> {
    /// The text of the member at a place.
    ghost text: { ℕ → T → List ℕ };

    /// Appends the text of the member at a place, unless a fault came before.
    fn put_at<O: Sink>(out: &mut O, so_far: Written, place: u64, item: &T) -> Written
        ensures { Adds (O.shows out.old) so_far (O.shows out.new) result (text place item.now) };
}

/// Appends each member in order, unless a fault came before; the first has the place `first`. The place behind the last
/// must have 64 bits.
pub fn put_each<S: Style<T>, T, O: Sink>(
    out: &mut O,
    so_far: Written,
    first: u64,
    items: &[T],
) -> Written
    requires { first + length items.now < 2 ^ 64 }
    ensures { Adds (O.shows out.old) so_far (O.shows out.new) result (each S.text first items.now) }
{
    let mut so_far = so_far;
    for (i, item) in items.iter().enumerate() {
        so_far = S::put_at(out, so_far, first + i as u64, item);
    }
    so_far
}

/// Appends each member of a list in order, unless a fault came before; the first has the place 0.
pub fn put_all<S: Style<T>, T, O: Sink>(out: &mut O, so_far: Written, items: &Items<T>) -> Written
    ensures { Adds (O.shows out.old) so_far (O.shows out.new) result (each S.text 0 items.now) }
{
    put_each::<S, T, O>(out, so_far, 0, items.as_slice())
}
