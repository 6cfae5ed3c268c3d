//! The texts of places and of the causes of undefined operations, as printed lines have them.

ghost use Rattle.std.specs.Prelude.{◌≡◌, codes, decimal};
ghost use Rattle.ps_base.specs.Sinks.{Adds};
ghost use Rattle.ps_base.specs.Texts.{◌&◌};
ghost use Rattle.ps_base.specs.Wording.{op_word, place_text};

use crate::faults::{Op, Place};
use crate::sink::Sink;
use crate::text::{Written, put, put_number};

/// The word of a cause, in small letters.
#[tactic(auto, unfolding(crate::specs::Wording::op_word))]
pub fn op_word_of(op: Op) -> &'static [u8]
    ensures { result.now ≡ op_word op }
{
    match op {
        Op::Overflow => b"overflow",
        Op::Division => b"division",
        Op::Shift => b"shift",
        Op::Char => b"char",
        Op::Byte => b"byte",
        Op::Size => b"size",
        Op::Bounds => b"bounds",
        Op::Unset => b"unset",
        Op::Freed => b"freed",
        Op::Blocks => b"blocks",
    }
}

/// Appends the file, the line and the column of a place, joined by `:`, unless a fault came before.
#[tactic(auto, using(crate::proofs::Writing::adds_then), unfolding(crate::specs::Wording::place_text))]
pub fn put_place<O: Sink>(out: &mut O, so_far: Written, place: Place) -> Written
    ensures { Adds (O.shows out.old) so_far (O.shows out.new) result (place_text place) }
{
    let so_far = put_number(out, so_far, place.file as u64);
    let so_far = put(out, so_far, b":");
    let so_far = put_number(out, so_far, place.line as u64);
    let so_far = put(out, so_far, b":");
    put_number(out, so_far, place.column as u64)
}
