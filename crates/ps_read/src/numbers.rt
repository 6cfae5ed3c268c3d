//! Numbers: integers of 64 bits, and what would be no integer.

ghost use Rattle.std.specs.Prelude.{◌≡◌, ◌≤◌, length, true, if◌then◌else◌, Some, None, IfSome};
ghost use Rattle.std.specs.Prelude.{◌==◌, nat_lt};
ghost use Rattle.std.specs.List.{list_all, list_any, count_by};
ghost use Rattle.std.specs.Char.{digit_value};
ghost use Rattle.std.specs.Str.Parse.{without_leading_sign, signed_digits_value};
ghost use Rattle.ps_base.specs.Numbers.{fit};
ghost use Rattle.ps_read.specs.Lexical as spec;

use crate::bytes::{byte, past};
use crate::token::Word;
use ps_base::SyntaxKind;
use ps_datum::DatumKind;

/// The byte is a decimal digit.
pub(crate) fn is_digit(c: u8) -> bool
    ensures { result ≡ spec.is_digit c }
{
    b'0' <= c && c <= b'9'
}

/// What is left behind a sign.
pub(crate) fn behind_sign(run: &[u8]) -> &[u8]
    ensures { result.now ≡ without_leading_sign run.now }
{
    match run.split_first() {
        Some((c, rest)) => { if *c == b'-' || *c == b'+' { rest } else { run } }
        None => run,
    }
}

// Each byte is a digit of the base.
fn are_digits(base: u32, bytes: &[u8]) -> bool
    requires least { 2 ≤ base }
    requires most { base ≤ 16 }
    ensures { result ≡ list_all (λ c. nat_lt (digit_value c) base) bytes.now }
{
    bytes.iter().all(|c| char::from(*c).is_digit(base))
}

/// The bytes are one digit of the base or more, and nothing else.
#[tactic(auto, unfolding(crate::specs::Lexical::is_numeral))]
pub(crate) fn is_numeral(base: u32, digits: &[u8]) -> bool
    requires least { 2 ≤ base }
    requires most { base ≤ 16 }
    ensures { result ≡ spec.is_numeral base digits.now }
{
    0 < digits.len() && are_digits(base, digits)
}

// The integer, where it has 64 bits.
fn integer(base: u32, run: &[u8]) -> Option<i64>
    requires least { 2 ≤ base }
    requires most { base ≤ 16 }
    requires digits { spec.is_numeral base (without_leading_sign run.now) ≡ true }
    ensures { result ≡ fit (signed_digits_value base run.now) }
{
    let Ok(text) = str::from_utf8(run) else {
        return None;
    };
    i64::from_str_radix(text, base).ok()
}

/// The token of a sign and digits.
#[tactic(auto, unfolding(crate::specs::Lexical::integer_word))]
pub(crate) fn integer_word(base: u32, run: &[u8]) -> Word
    requires least { 2 ≤ base }
    requires most { base ≤ 16 }
    requires digits { spec.is_numeral base (without_leading_sign run.now) ≡ true }
    ensures { result ≡ spec.integer_word base run.now }
{
    match integer(base, run) {
        Some(number) => Word::Atom(DatumKind::Integer(number)),
        None => Word::Broken(SyntaxKind::WideLiteral),
    }
}

// The base that a letter stands for.
fn base_of(c: u8) -> Option<u32>
    ensures { result ≡ spec.base_of c }
{
    if c == b'x' {
        Some(16)
    } else if c == b'd' {
        Some(10)
    } else if c == b'o' {
        Some(8)
    } else if c == b'b' {
        Some(2)
    } else {
        None
    }
}

// The base that a run gives behind a `#`.
fn marked_base(run: &[u8]) -> Option<u32>
    ensures value { result ≡ spec.marked_base run.now }
    ensures known { IfSome result (λ base. (2 ≤ base) × (base ≤ 16)) }
{
    if byte(run, 0) == b'#' {
        base_of(byte(run, 1).to_ascii_lowercase())
    } else {
        None
    }
}

/// The token of digits behind a base, where the run is that.
pub(crate) fn marked_word(run: &[u8]) -> Option<Word>
    ensures { result ≡ (if spec.is_numeral_in (spec.marked_base run.now) run.now then Some (spec.word_in (spec.marked_base run.now) run.now) else None) }
{
    match marked_base(run) {
        Some(base) => {
            let digits = past(run, 2);
            if is_numeral(base, behind_sign(digits)) {
                Some(integer_word(base, digits))
            } else {
                None
            }
        }
        None => None,
    }
}

// How many digits and points the bytes begin with.
fn mantissa_len(run: &[u8]) -> usize
    ensures value { result ≡ spec.mantissa_len run.now }
    ensures within { result ≤ length run.now }
{
    run.iter()
        .take_while(|c| is_digit(**c) || **c == b'.')
        .count()
}

// One of the bytes is a digit.
fn has_digit(bytes: &[u8]) -> bool
    ensures { result ≡ list_any spec.is_digit bytes.now }
{
    bytes.iter().any(|c| is_digit(*c))
}

// How many of the bytes are points.
fn point_count(bytes: &[u8]) -> usize
    ensures { result ≡ count_by (λ c. c == 46) bytes.now }
{
    bytes.iter().filter(|c| **c == b'.').count()
}

// The bytes, which are digits and points, are a digit or more, and at most one point.
fn is_mantissa(bytes: &[u8]) -> bool
    ensures { result ≡ spec.is_mantissa bytes.now }
{
    has_digit(bytes) && point_count(bytes) <= 1
}

// The bytes are nothing, or a letter, an optional sign and digits.
fn is_exponent(bytes: &[u8]) -> bool
    ensures { result ≡ spec.is_exponent bytes.now }
{
    match bytes.split_first() {
        Some((c, rest)) => {
            b"esfdl".contains(&c.to_ascii_lowercase()) && is_numeral(10, behind_sign(rest))
        }
        None => true,
    }
}

/// The run is a number with a point or an exponent.
#[tactic(auto, unfolding(crate::specs::Lexical::is_float))]
pub(crate) fn is_float(run: &[u8]) -> bool
    ensures { result ≡ spec.is_float run.now }
{
    let digits = behind_sign(run);
    let (mantissa, exponent) = digits.split_at(mantissa_len(digits));
    is_mantissa(mantissa) && is_exponent(exponent)
}
