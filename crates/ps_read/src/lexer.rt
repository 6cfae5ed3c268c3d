//! What a text begins with: a gap, a token, or a breach (R5RS 7.1.1).

ghost use Rattle.std.specs.Prelude.{◌≡◌, ◌==◌, ◌≤◌, ◌<◌, ◌+◌, ◌-◌, not, length, drop, slice_index, take, ◌^◌, ◌&&◌, [], true, false, if◌then◌else◌, codes, IfOk};
ghost use Rattle.std.specs.List.{prefix_len, list_all};
ghost use Rattle.std.specs.Str.{bytes_eq};
ghost use Rattle.ps_base.specs.declared.faults.SyntaxKind.TheVariants as b;
ghost use Rattle.ps_read.specs.declared.token.Front.TheVariants as front;
ghost use Rattle.ps_read.specs.declared.token.Word.TheVariants as w;
ghost use Rattle.ps_read.specs.Lexical as spec;
ghost use Rattle.ps_read.specs.InsideReading.{Within};

use crate::bytes::{byte, is, is_without_case, past};
use crate::numbers::{behind_sign, integer_word, is_digit, is_float, is_numeral, marked_word};
use crate::token::{Front, Word};
use ps_base::{Bytes, Items, NoMemory, SyntaxKind};
use ps_datum::DatumKind;
use std::alloc::Global;

fn is_space(c: u8) -> bool
    ensures { result ≡ spec.is_space c }
{
    c == b'\t' || c == b'\n' || c == b'\x0c' || c == b'\r' || c == b' '
}

fn is_delimiter(c: u8) -> bool
    ensures { result ≡ spec.is_delimiter c }
{
    is_space(c) || c == b'(' || c == b')' || c == b'"' || c == b';'
}

// The text ends, or begins with a delimiter.
fn ends_here(text: &[u8]) -> bool
    ensures { result ≡ spec.ends_here text.now }
{
    match text.first() {
        Some(c) => is_delimiter(*c),
        None => true,
    }
}

// How many bytes the run takes that the text begins with.
fn run_len(text: &[u8]) -> usize
    ensures value { result ≡ spec.run_len text.now }
    ensures within { result ≤ length text.now }
{
    text.iter().take_while(|c| !is_delimiter(**c)).count()
}

// How many bytes the text has before its first byte 10.
fn line_len(text: &[u8]) -> usize
    ensures value { result ≡ prefix_len (λ x. not (x == 10)) text.now }
    ensures within { result ≤ length text.now }
{
    text.iter().take_while(|c| !(**c == b'\n')).count()
}

fn is_letter(c: u8) -> bool
    ensures { result ≡ spec.is_letter c }
{
    b'a' <= c && c <= b'z'
}

fn is_initial(c: u8) -> bool
    ensures { result ≡ spec.is_initial c }
{
    is_letter(c) || b"!$%&*/:<=>?^_~".contains(&c)
}

fn is_subsequent(c: u8) -> bool
    ensures { result ≡ spec.is_subsequent c }
{
    is_initial(c) || is_digit(c) || b"+-.@".contains(&c)
}

fn are_subsequent(bytes: &[u8]) -> bool
    ensures { result ≡ list_all spec.is_subsequent bytes.now }
{
    bytes.iter().all(|c| is_subsequent(*c))
}

// The name, which has no capital letters, is an identifier.
#[tactic(auto, unfolding(crate::specs::Lexical::is_identifier))]
fn is_identifier(name: &[u8]) -> bool
    ensures { result ≡ spec.is_identifier name.now }
{
    is(name, b"+")
        || is(name, b"-")
        || is(name, b"...")
        || begins_with_arrow(name)
        || (is_initial(byte(name, 0)) && are_subsequent(past(name, 1)))
}

// The name is `->` and then subsequents.
fn begins_with_arrow(name: &[u8]) -> bool
    ensures { result ≡ bytes_eq (take 2 name.now) (codes "->") && list_all spec.is_subsequent (drop 2 name.now) }
{
    match name.strip_prefix(b"->") {
        Some(rest) => are_subsequent(rest),
        None => false,
    }
}

// The run in small letters.
fn lowered(alloc: Global, run: &[u8]) -> Result<Bytes, NoMemory>
    ensures { IfOk result (λ name. name ≡ spec.small run.now) }
{
    Ok(Items::from_vec(run.to_ascii_lowercase(alloc)?))
}

// A run that is an identifier, or else a breach.
fn name_front(alloc: Global, len: usize, run: &[u8]) -> Result<Front, NoMemory>
    ensures { IfOk result (λ f. f ≡ (if spec.is_identifier (spec.small run.now) then front.Named len (spec.small run.now)
        else (if spec.is_float run.now then front.Whole len (w.Broken b.FloatLiteral) else front.Whole len (w.Broken b.BadToken)))) }
{
    let name = lowered(alloc, run)?;
    if is_identifier(name.as_slice()) {
        Ok(Front::Named(len, name))
    } else if is_float(run) {
        Ok(Front::Whole(len, Word::Broken(SyntaxKind::FloatLiteral)))
    } else {
        Ok(Front::Whole(len, Word::Broken(SyntaxKind::BadToken)))
    }
}

// What a run is.
#[tactic(auto, unfolding(crate::specs::Lexical::run_word))]
fn run_word(alloc: Global, len: usize, run: &[u8]) -> Result<Front, NoMemory>
    ensures { IfOk result (λ f. f ≡ spec.run_word len run.now) }
{
    if is(run, b".") {
        Ok(Front::Whole(len, Word::Dot))
    } else if is_without_case(run, b"#t") {
        Ok(Front::Whole(len, Word::Atom(DatumKind::Boolean(true))))
    } else if is_without_case(run, b"#f") {
        Ok(Front::Whole(len, Word::Atom(DatumKind::Boolean(false))))
    } else if is_numeral(10, behind_sign(run)) {
        Ok(Front::Whole(len, integer_word(10, run)))
    } else {
        match marked_word(run) {
            Some(word) => Ok(Front::Whole(len, word)),
            None => name_front(alloc, len, run),
        }
    }
}

// What the run is that the text begins with.
fn run_front(alloc: Global, text: &[u8]) -> Result<Front, NoMemory>
    ensures { IfOk result (λ f. f ≡ spec.run_front text.now) }
{
    let len = run_len(text);
    run_word(alloc, len, &text[..len])
}

// A character by its name.
fn named_char(len: usize, name: &[u8]) -> Front
    ensures { result ≡ spec.named_char len (spec.small name.now) }
{
    if is_without_case(name, b"space") {
        Front::Whole(len, Word::Atom(DatumKind::Char(b' ')))
    } else if is_without_case(name, b"newline") {
        Front::Whole(len, Word::Atom(DatumKind::Char(b'\n')))
    } else {
        Front::Stop(0, SyntaxKind::BadCharacter)
    }
}

// The character whose text is `#\` and then this text.
#[tactic(auto, unfolding(crate::specs::Lexical::char_front))]
fn char_front(text: &[u8]) -> Front
    requires { length text.now < 2 ^ 32 }
    ensures { result ≡ spec.char_front text.now }
{
    match text.split_first() {
        Some((c, rest)) => {
            if b' ' <= *c && *c <= b'~' && ends_here(rest) {
                return Front::Whole(3, Word::Atom(DatumKind::Char(*c)));
            }
            let len = run_len(text);
            named_char(2 + len, &text[..len])
        }
        None => Front::Stop(0, SyntaxKind::BadCharacter),
    }
}

fn is_escape(c: u8) -> bool
    ensures { result ≡ spec.is_escape c }
{
    c == b'\\' || c == b'"' || c == b'n'
}

// What a byte behind a backslash stands for.
fn escaped(c: u8) -> u8
    ensures { result ≡ spec.escaped c }
{
    if c == b'n' { b'\n' } else { c }
}

// The string that the text begins with.
#[tactic(auto, unfolding(crate::specs::Lexical::string_from))]
fn string_front(alloc: Global, text: &[u8]) -> Result<Front, NoMemory>
    requires { 0 < length text.now }
    ensures value { IfOk result (λ f. f ≡ spec.string_from false 1 [] (drop 1 text.now)) }
    ensures within { IfOk result (λ f. Within (length text.now) f) }
{
    let mut bytes = Items::new(alloc);
    let mut at = 1;
    let mut is_escaped = false;
    while at < text.len() {
        let c = text[at];
        if is_escaped {
            if !is_escape(c) {
                return Ok(Front::Stop(at - 1, SyntaxKind::BadEscape));
            }
            bytes.push(escaped(c))?;
            is_escaped = false;
        } else if c == b'"' {
            return Ok(Front::Whole(at + 1, Word::Atom(DatumKind::Text(bytes))));
        } else if c == 0 {
            return Ok(Front::Stop(at, SyntaxKind::BadCharacter));
        } else if c == b'\\' {
            is_escaped = true;
        } else {
            bytes.push(c)?;
        }
        at += 1;
    }
    if is_escaped {
        Ok(Front::Stop(at - 1, SyntaxKind::BadEscape))
    } else {
        Ok(Front::Stop(0, SyntaxKind::Unclosed))
    }
}

/// What the text begins with.
#[tactic(auto, unfolding(crate::specs::Lexical::front_of))]
pub(crate) fn front_of(alloc: Global, text: &[u8]) -> Result<Front, NoMemory>
    requires some { 0 < length text.now }
    requires short { length text.now < 2 ^ 32 }
    ensures { IfOk result (λ f. f ≡ spec.front_of (slice_index text.now 0) (drop 1 text.now)) }
{
    let c = text[0];
    if is_space(c) {
        Ok(Front::Gap(1))
    } else if c == b';' {
        Ok(Front::Gap(1 + line_len(&text[1..])))
    } else if c == b'(' {
        Ok(Front::Whole(1, Word::Open))
    } else if c == b')' {
        Ok(Front::Whole(1, Word::Close))
    } else if c == b'\'' {
        Ok(Front::Quoted)
    } else if c == b'"' {
        string_front(alloc, text)
    } else if c == b'#' && byte(&text[1..], 0) == b'(' {
        Ok(Front::Whole(2, Word::VectorOpen))
    } else if c == b'#' && byte(&text[1..], 0) == b'\\' {
        Ok(char_front(past(&text[1..], 1)))
    } else {
        run_front(alloc, text)
    }
}
