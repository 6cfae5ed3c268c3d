//! Cases, and the line of each.

use crate::agreement::{on_each, on_fronts, on_rows};
use crate::readings::{data_of, fronts, knows, listed, names_behind, places, shown};
use crate::texts::{each, form_of, joined, number_of};
use crate::trouble::Trouble;
use crate::types::{kinds_of, taken, type_of};
use crate::unifying::steps_line;
use ps_base::Names;
use ps_datum::Datum;
use std::alloc::Global;

/// The lines of all cases.
pub fn lines_of(alloc: Global, text: &[u8]) -> Result<Vec<u8>, Trouble> {
    let mut names = Names::new(alloc);
    let cases = data_of(alloc, text, 0, &mut names)?;
    let mut lines = Vec::new(alloc);
    for case in cases.as_slice() {
        let line = line_of(alloc, &names, case)?;
        put_line(alloc, &mut lines, line.as_slice())?;
    }
    Ok(lines)
}

// Appends a line, in which each byte can be seen.
fn put_line(alloc: Global, lines: &mut Vec<u8>, line: &[u8]) -> Result<(), Trouble> {
    for byte in line {
        match byte {
            32..=126 => lines.push(*byte)?,
            _ => lines.extend_from_slice(format!(in alloc; "[{byte}]")?.as_bytes())?,
        }
    }
    Ok(lines.push(b'\n')?)
}

// The line of a case, or of the trouble that it makes.
fn line_of(alloc: Global, names: &Names, case: &Datum) -> Result<Vec<u8>, Trouble> {
    match answer_of(alloc, names, case) {
        Ok(line) => Ok(line),
        Err(trouble) => Ok(format!(in alloc; "{trouble:?}")?.into_bytes()),
    }
}

fn answer_of(alloc: Global, names: &Names, case: &Datum) -> Result<Vec<u8>, Trouble> {
    match form_of(names, case)? {
        (b"type", [kinds, t]) => type_line(alloc, names, u32::MAX, b"", kinds, t),
        (b"type-cut", [failing, kinds, t]) => {
            let failing = number_of(failing)?;
            type_line(alloc, names, failing, b"<", kinds, t)
        }
        (b"unify", steps) => steps_line(alloc, names, steps),
        (b"names", texts) => listed(
            alloc,
            &names_behind(alloc, each(alloc, names, texts)?.as_slice())?,
        ),
        (b"knows", [table, text]) => knows_line(alloc, names, table, text),
        (b"agree", texts) => count_line(
            alloc,
            on_each(alloc, each(alloc, names, texts)?.as_slice())?,
        ),
        (b"agree-rows", [most, texts @ ..]) => {
            let most = number_of(most)?;
            let pieces = each(alloc, names, texts)?;
            count_line(alloc, on_rows(alloc, most, pieces.as_slice())?)
        }
        (word, texts) => text_line(alloc, word, joined(alloc, names, texts)?.as_slice(), case),
    }
}

// The line of a case of one text.
fn text_line(alloc: Global, word: &[u8], text: &[u8], case: &Datum) -> Result<Vec<u8>, Trouble> {
    match word {
        b"read" => shown(alloc, text),
        b"places" => places(alloc, text),
        b"fronts" => fronts(alloc, text),
        b"agree-fronts" => count_line(alloc, on_fronts(alloc, text)?),
        _ => Err(Trouble::Unread(case.place)),
    }
}

fn count_line(alloc: Global, count: u64) -> Result<Vec<u8>, Trouble> {
    Ok(format!(in alloc; "{count}")?.into_bytes())
}

fn knows_line(
    alloc: Global,
    names: &Names,
    table: &Datum,
    text: &Datum,
) -> Result<Vec<u8>, Trouble> {
    let table = each(alloc, names, std::slice::from_ref(table))?;
    let table = names_behind(alloc, table.as_slice())?;
    let text = joined(alloc, names, std::slice::from_ref(text))?;
    knows(alloc, &table, text.as_slice())
}

fn type_line(
    alloc: Global,
    names: &Names,
    failing: u32,
    mark: &[u8],
    kinds: &Datum,
    t: &Datum,
) -> Result<Vec<u8>, Trouble> {
    let kinds = kinds_of(alloc, kinds)?;
    let t = type_of(alloc, names, t)?;
    taken(alloc, names, failing, mark, kinds.as_slice(), &t)
}
