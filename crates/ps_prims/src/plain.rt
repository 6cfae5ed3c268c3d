//! Primitives that see nothing but their operands.

ghost use Rattle.std.specs.Prelude.{◌≡◌, List, [], Result};
ghost use Rattle.std.specs.Int.{int_bit_not, w64};
ghost use Rattle.ps_base.specs.declared.language.PrimName.TheVariants as PrimName;
ghost use Rattle.ps_prims.specs.Sorts.{first_order};
ghost use Rattle.ps_prims.specs.Rows.{arithmetic, comparison, perform_row, row, test};
ghost use Rattle.ps_prims.specs.Inside.{char_out, number_out, calculated, compared, divided, shifted, tested};
ghost use Rattle.ps_prims.specs.InsideGroups.{plain_row};
ghost use Rattle.ps_prims.specs.InsidePerforming.{Quiet};

use crate::groups::Plain;
use crate::numbers::{
    self, Arithmetic, Comparison, Division, Shift, Sign, calculate, compare, divide, has_sign,
    shift_by,
};
use crate::operands::{
    no_operand, one_boolean, one_char, one_integer, two_booleans, two_chars, two_integers,
};
use crate::outcome::PrimOut;
use byte_store::{Pointer, Value};
use ps_base::Op;

// What comes of a number, or of the cause for which there is none.
fn number(answer: Result<i64, Op>) -> PrimOut
    ensures { result ≡ number_out answer }
{
    match answer {
        Ok(n) => PrimOut::Value(Value::Integer(n)),
        Err(op) => PrimOut::Undefined(op),
    }
}

#[tactic(auto, using(crate::proofs::QuietRowsShowNothing::quiet_arithmetic, crate::proofs::QuietRowsShowNothing::quiet_wrong))]
pub fn perform_arithmetic(operation: Arithmetic, args: &[Value]) -> PrimOut
    ensures { Quiet result (perform_row first_order (arithmetic first_order (calculated operation)) args.now) }
{
    match two_integers(args) {
        Some((i, j)) => number(calculate(operation, i, j)),
        None => PrimOut::Wrong,
    }
}

#[tactic(auto, using(crate::proofs::QuietRowsShowNothing::quiet_arithmetic, crate::proofs::QuietRowsShowNothing::quiet_wrong))]
pub fn perform_division(operation: Division, args: &[Value]) -> PrimOut
    ensures { Quiet result (perform_row first_order (arithmetic first_order (divided operation)) args.now) }
{
    match two_integers(args) {
        Some((i, j)) => number(divide(operation, i, j)),
        None => PrimOut::Wrong,
    }
}

#[tactic(auto, using(crate::proofs::QuietRowsShowNothing::quiet_arithmetic, crate::proofs::QuietRowsShowNothing::quiet_wrong))]
pub fn perform_shift(operation: Shift, args: &[Value]) -> PrimOut
    ensures { Quiet result (perform_row first_order (arithmetic first_order (shifted operation)) args.now) }
{
    match two_integers(args) {
        Some((i, count)) => number(shift_by(operation, i, count)),
        None => PrimOut::Wrong,
    }
}

#[tactic(auto, using(crate::proofs::QuietRowsShowNothing::quiet_comparison, crate::proofs::QuietRowsShowNothing::quiet_wrong))]
pub fn perform_comparison(order: Comparison, args: &[Value]) -> PrimOut
    ensures { Quiet result (perform_row first_order (comparison first_order (compared order)) args.now) }
{
    match two_integers(args) {
        Some((i, j)) => PrimOut::Value(Value::Boolean(compare(order, i, j))),
        None => PrimOut::Wrong,
    }
}

#[tactic(auto, using(crate::proofs::QuietRowsShowNothing::quiet_test, crate::proofs::QuietRowsShowNothing::quiet_wrong))]
pub fn perform_test(sign: Sign, args: &[Value]) -> PrimOut
    ensures { Quiet result (perform_row first_order (test first_order (tested sign)) args.now) }
{
    match one_integer(args) {
        Some(i) => PrimOut::Value(Value::Boolean(has_sign(sign, i))),
        None => PrimOut::Wrong,
    }
}

// `!` of an integer.
fn inverted(i: i64) -> i64
    ensures { result ≡ int_bit_not w64 i }
{
    !i
}

#[tactic(auto, using(crate::proofs::QuietRowsShowNothing::nothing_seen, crate::proofs::QuietRowsShowNothing::quiet_wrong))]
fn perform_bitwise_not(args: &[Value]) -> PrimOut
    ensures { Quiet result (perform_row first_order (row first_order [] PrimName.BitwiseNot) args.now) }
{
    match one_integer(args) {
        Some(i) => PrimOut::Value(Value::Integer(inverted(i))),
        None => PrimOut::Wrong,
    }
}

#[tactic(auto, using(crate::proofs::QuietRowsShowNothing::nothing_seen, crate::proofs::QuietRowsShowNothing::quiet_wrong))]
fn perform_not(args: &[Value]) -> PrimOut
    ensures { Quiet result (perform_row first_order (row first_order [] PrimName.Not) args.now) }
{
    match one_boolean(args) {
        Some(b) => PrimOut::Value(Value::Boolean(!b)),
        None => PrimOut::Wrong,
    }
}

#[tactic(auto, using(crate::proofs::QuietRowsShowNothing::nothing_seen, crate::proofs::QuietRowsShowNothing::quiet_wrong))]
fn perform_unspecific(args: &[Value]) -> PrimOut
    ensures { Quiet result (perform_row first_order (row first_order [] PrimName.Unspecific) args.now) }
{
    if no_operand(args) {
        PrimOut::Value(Value::Unit)
    } else {
        PrimOut::Wrong
    }
}

#[tactic(auto, using(crate::proofs::QuietRowsShowNothing::nothing_seen, crate::proofs::QuietRowsShowNothing::quiet_wrong))]
fn perform_boolean_equal(args: &[Value]) -> PrimOut
    ensures { Quiet result (perform_row first_order (row first_order [] PrimName.BooleanEqual) args.now) }
{
    match two_booleans(args) {
        Some((a, b)) => PrimOut::Value(Value::Boolean(a == b)),
        None => PrimOut::Wrong,
    }
}

#[tactic(auto, using(crate::proofs::QuietRowsShowNothing::nothing_seen, crate::proofs::QuietRowsShowNothing::quiet_wrong))]
fn perform_char_equal(args: &[Value]) -> PrimOut
    ensures { Quiet result (perform_row first_order (row first_order [] PrimName.CharEqual) args.now) }
{
    match two_chars(args) {
        Some((c, d)) => PrimOut::Value(Value::Boolean(c == d)),
        None => PrimOut::Wrong,
    }
}

#[tactic(auto, using(crate::proofs::QuietRowsShowNothing::nothing_seen, crate::proofs::QuietRowsShowNothing::quiet_wrong))]
fn perform_char_less(args: &[Value]) -> PrimOut
    ensures { Quiet result (perform_row first_order (row first_order [] PrimName.CharLess) args.now) }
{
    match two_chars(args) {
        Some((c, d)) => PrimOut::Value(Value::Boolean(c < d)),
        None => PrimOut::Wrong,
    }
}

#[tactic(auto, using(crate::proofs::QuietRowsShowNothing::nothing_seen, crate::proofs::QuietRowsShowNothing::quiet_wrong))]
fn perform_char_to_ascii(args: &[Value]) -> PrimOut
    ensures { Quiet result (perform_row first_order (row first_order [] PrimName.CharToAscii) args.now) }
{
    match one_char(args) {
        Some(c) => PrimOut::Value(Value::Integer(i64::from(c))),
        None => PrimOut::Wrong,
    }
}

// What comes of a character, or of the cause for which there is none.
fn char_out(answer: Result<u8, Op>) -> PrimOut
    ensures { result ≡ char_out answer }
{
    match answer {
        Ok(code) => PrimOut::Value(Value::Char(code)),
        Err(op) => PrimOut::Undefined(op),
    }
}

#[tactic(auto, using(crate::proofs::QuietRowsShowNothing::quiet_ascii, crate::proofs::QuietRowsShowNothing::quiet_wrong))]
fn perform_ascii_to_char(args: &[Value]) -> PrimOut
    ensures { Quiet result (perform_row first_order (row first_order [] PrimName.AsciiToChar) args.now) }
{
    match one_integer(args) {
        Some(i) => char_out(numbers::character(i)),
        None => PrimOut::Wrong,
    }
}

#[tactic(auto, using(crate::proofs::QuietRowsShowNothing::nothing_seen, crate::proofs::QuietRowsShowNothing::quiet_wrong))]
fn perform_null_address(args: &[Value]) -> PrimOut
    ensures { Quiet result (perform_row first_order (row first_order [] PrimName.NullAddress) args.now) }
{
    if no_operand(args) {
        PrimOut::Value(Value::Address(Pointer::Null))
    } else {
        PrimOut::Wrong
    }
}

/// Performs a primitive that sees nothing but its operands.
pub fn perform_plain(p: Plain, args: &[Value]) -> PrimOut
    ensures { Quiet result (perform_row first_order (plain_row p) args.now) }
{
    match p {
        Plain::BitwiseNot => perform_bitwise_not(args),
        Plain::Not => perform_not(args),
        Plain::BooleanEqual => perform_boolean_equal(args),
        Plain::CharEqual => perform_char_equal(args),
        Plain::CharLess => perform_char_less(args),
        Plain::CharToAscii => perform_char_to_ascii(args),
        Plain::AsciiToChar => perform_ascii_to_char(args),
        Plain::Unspecific => perform_unspecific(args),
        Plain::NullAddress => perform_null_address(args),
    }
}
