//! Writes data. Within this file a piece is written unless memory ran out before, and what came of the pieces so far is
//! passed from one to the next.

ghost use Rattle.std.specs.Prelude.{◌≡◌, ◌++◌, ◌∷◌, [], true, map, OnOk, OnErr};
ghost use Rattle.std.specs.List.{flat_map};
ghost use Rattle.std.specs.Fmt.{signed_decimal};
ghost use Rattle.ps_datum.specs.Writing.{Cut, all_known, is_known, escaped_byte, string_text, char_text, spaced, written};
ghost use Rattle.ps_datum.specs.InsideWriting.{Adds, kind_known, space_before, kind_written};

use crate::datum::{Datum, DatumKind};
use itoa::Buffer;
use ps_base::{Bytes, Names, NoMemory};

// What came of the pieces so far.
type Written = Result<(), NoMemory>;

// One byte.
fn put_byte(out: &mut Bytes, so_far: Written, byte: u8) -> Written
    ensures { Adds out.old so_far out.new result (byte ∷ []) }
{
    match so_far {
        Ok(()) => {
            out.push(byte)?;
            Ok(())
        }
        Err(e) => Err(e),
    }
}

// Bytes as they are.
fn put(out: &mut Bytes, so_far: Written, bytes: &[u8]) -> Written
    ensures { Adds out.old so_far out.new result bytes.now }
{
    let mut so_far = so_far;
    for byte in bytes {
        so_far = put_byte(out, so_far, *byte);
    }
    so_far
}

// An integer in decimal digits.
fn put_integer(out: &mut Bytes, so_far: Written, integer: i64) -> Written
    ensures { Adds out.old so_far out.new result (signed_decimal integer) }
{
    let mut buffer = Buffer::new();
    put(out, so_far, buffer.format(integer).as_bytes())
}

// A byte of a string, behind a backslash where it is a double quote or a backslash.
fn put_escaped(out: &mut Bytes, so_far: Written, byte: u8) -> Written
    ensures { Adds out.old so_far out.new result (escaped_byte byte) }
{
    if byte == b'"' || byte == b'\\' {
        put(out, so_far, &[b'\\', byte])
    } else {
        put_byte(out, so_far, byte)
    }
}

// The bytes of a string.
fn put_all_escaped(out: &mut Bytes, so_far: Written, bytes: &[u8]) -> Written
    ensures { Adds out.old so_far out.new result (flat_map escaped_byte bytes.now) }
{
    let mut so_far = so_far;
    for byte in bytes {
        so_far = put_escaped(out, so_far, *byte);
    }
    so_far
}

// A string between its double quotes.
fn put_string(out: &mut Bytes, so_far: Written, bytes: &[u8]) -> Written
    ensures { Adds out.old so_far out.new result (string_text bytes.now) }
{
    let so_far = put_byte(out, so_far, b'"');
    let so_far = put_all_escaped(out, so_far, bytes);
    put_byte(out, so_far, b'"')
}

// A character, by its name where it is a space or byte 10.
fn put_char(out: &mut Bytes, so_far: Written, code: u8) -> Written
    ensures { Adds out.old so_far out.new result (char_text code) }
{
    if code == b' ' {
        put(out, so_far, b"#\\space")
    } else if code == b'\n' {
        put(out, so_far, b"#\\newline")
    } else {
        put(out, so_far, &[b'#', b'\\', code])
    }
}

// What a datum is, without its place.
#[cycle(writing)]
#[tactic(auto, unfolding(crate::specs::InsideWriting::kind_written, crate::specs::Writing::written))]
fn put_kind(out: &mut Bytes, so_far: Written, kind: &DatumKind, names: &Names) -> Written
    requires { kind_known names.now kind.now ≡ true }
    ensures { Adds out.old so_far out.new result (kind_written names.now kind.now) }
{
    match kind {
        DatumKind::Boolean(true) => put(out, so_far, b"#t"),
        DatumKind::Boolean(false) => put(out, so_far, b"#f"),
        DatumKind::Integer(integer) => put_integer(out, so_far, *integer),
        DatumKind::Char(code) => put_char(out, so_far, *code),
        DatumKind::Text(bytes) => put_string(out, so_far, bytes.as_slice()),
        DatumKind::Symbol(name) => put(out, so_far, names.text(*name)),
        DatumKind::List(items) => {
            let so_far = put_byte(out, so_far, b'(');
            let so_far = put_items(out, so_far, items.as_slice(), names);
            put_byte(out, so_far, b')')
        }
        DatumKind::Dotted(items, tail) => {
            let so_far = put_byte(out, so_far, b'(');
            let so_far = put_items(out, so_far, items.as_slice(), names);
            let so_far = put(out, so_far, b" . ");
            let so_far = put_datum(out, so_far, tail.get(), names);
            put_byte(out, so_far, b')')
        }
        DatumKind::Vector(items) => {
            let so_far = put(out, so_far, b"#(");
            let so_far = put_items(out, so_far, items.as_slice(), names);
            put_byte(out, so_far, b')')
        }
    }
}

// The space before the part at a place: none before the first.
fn put_space(out: &mut Bytes, so_far: Written, place: usize) -> Written
    ensures { Adds out.old so_far out.new result (space_before place) }
{
    if place == 0 {
        so_far
    } else {
        put_byte(out, so_far, b' ')
    }
}

// The items, with one space between them.
#[cycle(writing)]
fn put_items(out: &mut Bytes, so_far: Written, items: &[Datum], names: &Names) -> Written
    requires { all_known (map (is_known names.now) items.now) ≡ true }
    ensures { Adds out.old so_far out.new result (spaced (map (written names.now) items.now)) }
{
    let mut so_far = so_far;
    for (i, item) in items.iter().enumerate() {
        so_far = put_space(out, so_far, i);
        so_far = put_datum(out, so_far, item, names);
    }
    so_far
}

// A datum.
#[cycle(writing)]
#[tactic(auto, unfolding(crate::specs::InsideWriting::kind_written, crate::specs::Writing::written))]
fn put_datum(out: &mut Bytes, so_far: Written, datum: &Datum, names: &Names) -> Written
    requires { is_known names.now datum.now ≡ true }
    ensures { Adds out.old so_far out.new result (written names.now datum.now) }
{
    put_kind(out, so_far, &datum.kind, names)
}

// Whether the table has each name of what a datum is, without its place.
#[cycle(knowing)]
fn knows_kind(kind: &DatumKind, names: &Names) -> bool
    ensures { result ≡ kind_known names.now kind.now }
{
    match kind {
        DatumKind::Boolean(_) => true,
        DatumKind::Integer(_) => true,
        DatumKind::Char(_) => true,
        DatumKind::Text(_) => true,
        DatumKind::Symbol(name) => name.0 < names.len(),
        DatumKind::List(items) => knows_all(items.as_slice(), names),
        DatumKind::Dotted(items, tail) => {
            knows_all(items.as_slice(), names) && has_known_names(tail.get(), names)
        }
        DatumKind::Vector(items) => knows_all(items.as_slice(), names),
    }
}

// Whether it has each name of the items.
#[cycle(knowing)]
fn knows_all(items: &[Datum], names: &Names) -> bool
    ensures { result ≡ all_known (map (is_known names.now) items.now) }
{
    for item in items {
        if !has_known_names(item, names) {
            return false;
        }
    }
    true
}

/// Whether each name in the datum is a number of the table, as `write_datum` requires.
#[cycle(knowing)]
pub fn has_known_names(datum: &Datum, names: &Names) -> bool
    ensures { result ≡ is_known names.now datum.now }
{
    knows_kind(&datum.kind, names)
}

/// Appends the text of a datum (its external representation, R5RS 3.3): `#t` and `#f`, integers in decimal digits, `#\space`, `#\newline` and other characters
/// behind `#\`, strings with a backslash before each double quote and each backslash and with no other escape, symbols as
/// the table has them, lists, dotted lists and vectors with one space between their parts, and quotes as lists. It takes
/// no memory but that of the text.
///
/// Each name in the datum must be a number of the table (`has_known_names`).
///
/// # Errors
///
/// `NoMemory` where memory ran out. A front of the text was then appended.
pub fn write_datum(datum: &Datum, names: &Names, out: &mut Bytes) -> Result<(), NoMemory>
    requires { is_known names.now datum.now ≡ true }
    ensures written { OnOk result (out.new ≡ out.old ++ written names.now datum.now) }
    ensures cut { OnErr result (Cut out.old out.new (written names.now datum.now)) }
{
    put_datum(out, Ok(()), datum, names)
}
