//! A plain slow reader of small texts. It spells a text as a row of signs, and rewrites the row until no rule applies.

ghost use Rattle.std.specs.Prelude.{◌≤◌, IfSome};

use crate::readings::Reading;
use ps_base::{Place, SyntaxKind};
use std::alloc::{AllocError, Global};

// How many lists, vectors and quotes may be open.
const LEVELS: usize = 200;

// What stands in a row: tokens, data, and what is no token.
#[derive(Clone, Drop)]
enum Sign {
    Open,
    Vector,
    Quote,
    Close,
    Dot,
    // A datum as it is written. Of lists and dotted lists, `inner` is what stands between the brackets.
    Item {
        text: Vec<u8>,
        inner: Option<Vec<u8>>,
    },
    Broken(SyntaxKind),
}

// A sign, and where it stands.
#[derive(Clone, Drop)]
struct Placed {
    sign: Sign,
    place: Place,
}

// What a text begins with.
#[derive(Drop)]
enum Head {
    // Whitespace or a comment, of so many bytes.
    Blank(usize),
    // A token of so many bytes.
    Token(Sign, usize),
    // A breach, behind so many bytes.
    Breach(SyntaxKind, usize),
}

/// Reads a text.
pub fn read(alloc: Global, text: &[u8]) -> Result<Reading, AllocError> {
    let row = signs(alloc, text)?;
    if let Some((kind, place)) = first_breach(alloc, row.as_slice())? {
        return Ok(Reading::Breach(kind, place));
    }
    let whole = reduced(alloc, row.as_slice())?;
    match last_opener(whole.as_slice()) {
        Some(open) => Ok(Reading::Breach(SyntaxKind::Unclosed, open.place)),
        None => Ok(Reading::Data(joined(alloc, whole.as_slice())?)),
    }
}

// The first so many of the row.
fn front<T>(row: &[T], count: usize) -> &[T] {
    &row[..count.min(row.len())]
}

// What stands behind the first so many of the row.
fn behind<T>(row: &[T], count: usize) -> &[T] {
    &row[count.min(row.len())..]
}

// ---- the signs of a text

// The place behind the front of a text: behind its lines, and behind the bytes since the last of them.
fn place_behind(text: &[u8]) -> Place {
    let lines = text.iter().filter(|b| **b == b'\n').count();
    let bytes = text.iter().rev().take_while(|b| **b != b'\n').count();
    Place {
        file: 0,
        line: u32::try_from(lines).unwrap_or(u32::MAX).saturating_add(1),
        column: u32::try_from(bytes).unwrap_or(u32::MAX).saturating_add(1),
    }
}

// The signs of a text, up to the first that is broken.
fn signs(alloc: Global, text: &[u8]) -> Result<Vec<Placed>, AllocError> {
    let mut row = Vec::new(alloc);
    let mut passed: usize = 0;
    for _ in 0..text.len() {
        match head_of(alloc, behind(text, passed))? {
            Head::Blank(length) => passed = passed.saturating_add(length),
            Head::Token(sign, length) => {
                let place = place_behind(front(text, passed));
                row.push(Placed { sign, place })?;
                passed = passed.saturating_add(length);
            }
            Head::Breach(kind, length) => {
                let sign = Sign::Broken(kind);
                let place = place_behind(front(text, passed.saturating_add(length)));
                row.push(Placed { sign, place })?;
                return Ok(row);
            }
        }
    }
    Ok(row)
}

// What a text begins with.
fn head_of(alloc: Global, text: &[u8]) -> Result<Head, AllocError> {
    match text {
        [] => Ok(Head::Blank(0)),
        [9 | 10 | 12 | 13 | 32, ..] => Ok(Head::Blank(1)),
        [b';', ..] => Ok(Head::Blank(comment_length(text))),
        [b'(', ..] => Ok(Head::Token(Sign::Open, 1)),
        [b')', ..] => Ok(Head::Token(Sign::Close, 1)),
        [b'\'', ..] => Ok(Head::Token(Sign::Quote, 1)),
        [b'"', ..] => string(alloc, behind(text, 1)),
        [b'#', b'(', ..] => Ok(Head::Token(Sign::Vector, 2)),
        [b'#', b'\\', ..] => character(alloc, behind(text, 2)),
        _ => word(alloc, run_of(text)),
    }
}

// How many bytes stand before the end of the line.
fn comment_length(text: &[u8]) -> usize {
    text.iter().take_while(|b| **b != b'\n').count()
}

// What a text begins with whose first byte is a double quote, by the bytes behind it.
fn string(alloc: Global, text: &[u8]) -> Result<Head, AllocError> {
    let mut written = Vec::from_slice(alloc, b"\"")?;
    let mut passed: usize = 0;
    for _ in 0..text.len() {
        let rest = behind(text, passed);
        let here = passed.saturating_add(1);
        match rest {
            [] => break,
            [b'"', ..] => {
                written.push(b'"')?;
                return Ok(Head::Token(atom(written), here.saturating_add(1)));
            }
            [0, ..] => return Ok(Head::Breach(SyntaxKind::BadCharacter, here)),
            [b'\\', b'n', ..] => {
                written.push(b'\n')?;
                passed = here.saturating_add(1);
            }
            [b'\\', b'\\' | b'"', ..] => {
                written.extend_from_slice(front(rest, 2))?;
                passed = here.saturating_add(1);
            }
            [b'\\', ..] => return Ok(Head::Breach(SyntaxKind::BadEscape, here)),
            [byte, ..] => {
                written.push(*byte)?;
                passed = here;
            }
        }
    }
    Ok(Head::Breach(SyntaxKind::Unclosed, 0))
}

// What a text begins with whose first bytes are `#\`, by the bytes behind them.
fn character(alloc: Global, text: &[u8]) -> Result<Head, AllocError> {
    let name = run_of(text);
    if name.eq_ignore_ascii_case(b"space") {
        return Ok(Head::Token(atom(Vec::from_slice(alloc, b"#\\space")?), 7));
    }
    if name.eq_ignore_ascii_case(b"newline") {
        return Ok(Head::Token(atom(Vec::from_slice(alloc, b"#\\newline")?), 9));
    }
    match text {
        [code @ 32..=126, rest @ ..] if run_of(rest).is_empty() => {
            let mut written = Vec::from_slice(alloc, b"#\\")?;
            match code {
                b' ' => written.extend_from_slice(b"space")?,
                _ => written.push(*code)?,
            }
            Ok(Head::Token(atom(written), 3))
        }
        _ => Ok(Head::Breach(SyntaxKind::BadCharacter, 0)),
    }
}

// The bytes before the first delimiter.
fn run_of(text: &[u8]) -> &[u8] {
    let delimiter = text.iter().position(|b| is_delimiter(*b));
    front(text, delimiter.unwrap_or(text.len()))
}

fn is_delimiter(byte: u8) -> bool {
    match byte {
        9 | 10 | 12 | 13 | 32 | b'(' | b')' | b'"' | b';' => true,
        _ => false,
    }
}

// What a run is.
fn word(alloc: Global, run: &[u8]) -> Result<Head, AllocError> {
    let small = run.to_ascii_lowercase(alloc)?;
    match small.as_slice() {
        b"." => return Ok(Head::Token(Sign::Dot, 1)),
        b"#t" | b"#f" => return Ok(Head::Token(atom(small), 2)),
        _ => {}
    }
    if is_identifier(small.as_slice()) {
        return Ok(Head::Token(atom(small), run.len()));
    }
    if let Some((base, signed)) = numeral(small.as_slice()) {
        return match integer(base, signed) {
            Some(value) => {
                let written = format!(in alloc; "{value}")?.into_bytes();
                Ok(Head::Token(atom(written), run.len()))
            }
            None => Ok(Head::Breach(SyntaxKind::WideLiteral, 0)),
        };
    }
    if is_float(small.as_slice()) {
        return Ok(Head::Breach(SyntaxKind::FloatLiteral, 0));
    }
    Ok(Head::Breach(SyntaxKind::BadToken, 0))
}

// Whether a run in small letters is an identifier.
fn is_identifier(run: &[u8]) -> bool {
    match run {
        [] => false,
        b"+" | b"-" | b"..." => true,
        [b'-', b'>', rest @ ..] => are_subsequents(rest),
        [first, rest @ ..] => is_initial(*first) && are_subsequents(rest),
    }
}

fn are_subsequents(bytes: &[u8]) -> bool {
    bytes.iter().all(|b| is_initial(*b) || b.is_ascii_digit() || b"+-.@".contains(b))
}

fn is_initial(byte: u8) -> bool {
    byte.is_ascii_lowercase() || b"!$%&*/:<=>?^_~".contains(&byte)
}

// The base of an integer, and its sign and digits.
fn numeral(run: &[u8]) -> Option<(u32, &[u8])>
    ensures { IfSome result (λ p. (2 ≤ p.0) × (p.0 ≤ 36)) }
{
    let (base, signed) = match run {
        [b'#', b'x', rest @ ..] => (16, rest),
        [b'#', b'd', rest @ ..] => (10, rest),
        [b'#', b'o', rest @ ..] => (8, rest),
        [b'#', b'b', rest @ ..] => (2, rest),
        _ => (10, run),
    };
    let digits = front(b"0123456789abcdef", base as usize);
    if are_digits(digits, behind_sign(signed)) {
        Some((base, signed))
    } else {
        None
    }
}

// The integer with this sign and these digits, where it has at most 64 bits.
fn integer(base: u32, signed: &[u8]) -> Option<i64>
    requires { (2 ≤ base) × (base ≤ 36) }
{
    let text = str::from_utf8(signed).ok()?;
    i64::from_str_radix(text, base).ok()
}

// Whether there are bytes, and all are among these digits.
fn are_digits(digits: &[u8], bytes: &[u8]) -> bool {
    !bytes.is_empty() && bytes.iter().all(|b| digits.contains(b))
}

// The bytes without the sign that they may begin with.
fn behind_sign(bytes: &[u8]) -> &[u8] {
    match bytes {
        [b'+' | b'-', rest @ ..] => rest,
        _ => bytes,
    }
}

// Whether a run in small letters is a number with a point or an exponent, or with neither.
fn is_float(run: &[u8]) -> bool {
    let number = behind_sign(run);
    let mark = number.iter().position(|b| b"esfdl".contains(b));
    let cut = mark.unwrap_or(number.len());
    is_mantissa(front(number, cut)) && is_exponent(behind(number, cut))
}

// Digits with at most one point.
fn is_mantissa(bytes: &[u8]) -> bool {
    let points = bytes.iter().filter(|b| **b == b'.').count();
    points <= 1
        && bytes.iter().any(|b| b.is_ascii_digit())
        && bytes.iter().all(|b| *b == b'.' || b.is_ascii_digit())
}

// Nothing, or a letter and then an integer.
fn is_exponent(bytes: &[u8]) -> bool {
    match bytes {
        [] => true,
        [_, rest @ ..] => are_digits(b"0123456789", behind_sign(rest)),
    }
}

// ---- what is written of a datum

fn atom(text: Vec<u8>) -> Sign {
    Sign::Item { text, inner: None }
}

// The list or dotted list with this between its brackets.
fn bracketed(alloc: Global, inner: Vec<u8>) -> Result<Sign, AllocError> {
    let mut text = Vec::from_slice(alloc, b"(")?;
    text.extend_from_slice(inner.as_slice())?;
    text.push(b')')?;
    Ok(Sign::Item {
        text,
        inner: Some(inner),
    })
}

// The data of a row, with a space between each two.
fn joined(alloc: Global, row: &[Placed]) -> Result<Vec<u8>, AllocError> {
    let mut all = Vec::new(alloc);
    for placed in row {
        if let Sign::Item { text, .. } = &placed.sign {
            if !all.is_empty() {
                all.push(b' ')?;
            }
            all.extend_from_slice(text.as_slice())?;
        }
    }
    Ok(all)
}

// Appends what a dotted list has behind its items: a tail that has brackets is joined with it.
fn append_tail(all: &mut Vec<u8>, text: &[u8], inner: &Option<Vec<u8>>) -> Result<(), AllocError> {
    match inner {
        None => {
            all.extend_from_slice(b" . ")?;
            all.extend_from_slice(text)?;
        }
        Some(inner) => {
            if !inner.is_empty() {
                all.push(b' ')?;
                all.extend_from_slice(inner.as_slice())?;
            }
        }
    }
    Ok(())
}

// ---- rewriting

// The row to which no rule applies.
fn reduced(alloc: Global, row: &[Placed]) -> Result<Vec<Placed>, AllocError> {
    let mut done = row.to_vec(alloc)?;
    for _ in 0..row.len() {
        match rewritten(alloc, done.as_slice())? {
            Some(next) => done = next,
            None => break,
        }
    }
    Ok(done)
}

// The row with the first place rewritten where a rule applies.
fn rewritten(alloc: Global, row: &[Placed]) -> Result<Option<Vec<Placed>>, AllocError> {
    for start in 0..row.len() {
        let rest = behind(row, start);
        if let Some((item, count)) = reduct(alloc, rest)? {
            let mut next = front(row, start).to_vec(alloc)?;
            next.push(item)?;
            next.extend_from_slice(behind(rest, count))?;
            return Ok(Some(next));
        }
    }
    Ok(None)
}

// The datum that the row begins with, and of how many signs it is, where these are a sign that opens and then data.
fn reduct(alloc: Global, row: &[Placed]) -> Result<Option<(Placed, usize)>, AllocError> {
    let Some((first, rest)) = row.split_first() else {
        return Ok(None);
    };
    let found = match &first.sign {
        Sign::Quote => quoted(alloc, rest)?,
        Sign::Open => list(alloc, rest)?,
        Sign::Vector => vector(alloc, rest)?,
        _ => None,
    };
    let place = first.place;
    Ok(found.map(|(sign, count)| (Placed { sign, place }, count)))
}

// The same for a quote, by what stands behind its sign.
fn quoted(alloc: Global, rest: &[Placed]) -> Result<Option<(Sign, usize)>, AllocError> {
    if !rest.first().is_some_and(|p| is_item(&p.sign)) {
        return Ok(None);
    }
    let mut inner = Vec::from_slice(alloc, b"quote ")?;
    inner.extend_from_slice(joined(alloc, front(rest, 1))?.as_slice())?;
    Ok(Some((bracketed(alloc, inner)?, 2)))
}

// The same for a list or a dotted list.
fn list(alloc: Global, rest: &[Placed]) -> Result<Option<(Sign, usize)>, AllocError> {
    let count = item_count(rest);
    let mut inner = joined(alloc, front(rest, count))?;
    match signs_of(behind(rest, count)) {
        (Some(Sign::Close), _, _) => Ok(Some((bracketed(alloc, inner)?, count.saturating_add(2)))),
        (Some(Sign::Dot), Some(Sign::Item { text, inner: tail }), Some(Sign::Close)) => {
            if count == 0 {
                return Ok(None);
            }
            append_tail(&mut inner, text.as_slice(), tail)?;
            Ok(Some((bracketed(alloc, inner)?, count.saturating_add(4))))
        }
        _ => Ok(None),
    }
}

// The same for a vector.
fn vector(alloc: Global, rest: &[Placed]) -> Result<Option<(Sign, usize)>, AllocError> {
    let count = item_count(rest);
    match signs_of(behind(rest, count)) {
        (Some(Sign::Close), _, _) => {
            let mut text = Vec::from_slice(alloc, b"#(")?;
            text.extend_from_slice(joined(alloc, front(rest, count))?.as_slice())?;
            text.push(b')')?;
            Ok(Some((atom(text), count.saturating_add(2))))
        }
        _ => Ok(None),
    }
}

// The first three signs of a row.
fn signs_of(row: &[Placed]) -> (Option<&Sign>, Option<&Sign>, Option<&Sign>) {
    let sign_at = |index: usize| row.get(index).map(|p| &p.sign);
    (sign_at(0), sign_at(1), sign_at(2))
}

// How many data the row begins with.
fn item_count(row: &[Placed]) -> usize {
    let other = row.iter().position(|p| !is_item(&p.sign));
    other.unwrap_or(row.len())
}

// ---- beginnings and breaches

fn is_item(sign: &Sign) -> bool {
    match sign {
        Sign::Item { .. } => true,
        _ => false,
    }
}

fn is_opener(sign: &Sign) -> bool {
    match sign {
        Sign::Open | Sign::Vector | Sign::Quote => true,
        _ => false,
    }
}

fn is_dot(sign: &Sign) -> bool {
    match sign {
        Sign::Dot => true,
        _ => false,
    }
}

// How many lists, vectors and quotes a reduced row leaves open.
fn open_count(row: &[Placed]) -> usize {
    row.iter().filter(|p| is_opener(&p.sign)).count()
}

// The innermost that it leaves open.
fn last_opener(row: &[Placed]) -> Option<&Placed> {
    row.iter().rev().find(|p| is_opener(&p.sign))
}

// Whether some list of data begins with a reduced row.
fn begins_data(row: &[Placed]) -> bool {
    for (index, placed) in row.iter().enumerate() {
        let fits = match &placed.sign {
            Sign::Close | Sign::Broken(_) => false,
            Sign::Dot => dot_fits(front(row, index), behind(row, index.saturating_add(1))),
            _ => true,
        };
        if !fits {
            return false;
        }
    }
    open_count(row) <= LEVELS
}

// Whether a dot may stand between two parts of a reduced row: data stand before it, at least one, and before them an open
// list; behind it stands nothing, or one datum alone, or something is open.
fn dot_fits(before: &[Placed], after: &[Placed]) -> bool {
    let outer = before.iter().rev().find(|p| !is_item(&p.sign));
    let in_list = match outer.map(|p| &p.sign) {
        Some(Sign::Open) => true,
        _ => false,
    };
    let has_item = before.last().is_some_and(|p| is_item(&p.sign));
    let goes_on = match after {
        [] => true,
        [only] => is_item(&only.sign) || is_opener(&only.sign),
        [next, ..] => is_opener(&next.sign),
    };
    in_list && has_item && goes_on
}

// The first breach that a sign shows: with it the row's front begins no list of data.
fn first_breach(alloc: Global, row: &[Placed]) -> Result<Option<(SyntaxKind, Place)>, AllocError> {
    for (index, last) in row.iter().enumerate() {
        let with = reduced(alloc, front(row, index.saturating_add(1)))?;
        if !begins_data(with.as_slice()) {
            let before = reduced(alloc, front(row, index))?;
            return Ok(Some(breach_shown(before.as_slice(), last)));
        }
    }
    Ok(None)
}

// The breach that a sign shows behind a reduced row with which a list of data begins.
fn breach_shown(before: &[Placed], last: &Placed) -> (SyntaxKind, Place) {
    match &last.sign {
        Sign::Broken(kind) => (*kind, last.place),
        Sign::Close if is_stray(before) => (SyntaxKind::StrayClose, last.place),
        sign if is_opener(sign) && open_count(before) >= LEVELS => {
            (SyntaxKind::TooDeep, last.place)
        }
        _ => (SyntaxKind::BadDot, dot_place(before, last.place)),
    }
}

// Whether a closing bracket closes nothing: nothing is open, or a quote was just opened.
fn is_stray(before: &[Placed]) -> bool {
    match last_opener(before).map(|p| &p.sign) {
        None | Some(Sign::Quote) => true,
        _ => false,
    }
}

// The place of the dot of the innermost open list, and another where it has none.
fn dot_place(before: &[Placed], other: Place) -> Place {
    let dot = before
        .iter()
        .rev()
        .take_while(|p| !is_opener(&p.sign))
        .find(|p| is_dot(&p.sign));
    dot.map_or(other, |p| p.place)
}
