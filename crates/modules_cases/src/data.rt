//! What the data of a case stand for.

use crate::trouble::Trouble;
use ps_base::Names;
use ps_datum::{Datum, DatumKind};

/// The word that a datum is; none, where it is no symbol.
pub fn word<'a>(names: &'a Names, d: &Datum) -> &'a [u8] {
    match &d.kind {
        DatumKind::Symbol(name) if name.0 < names.len() => names.text(*name),
        _ => b"",
    }
}

/// The members of a list.
pub fn members(d: &Datum) -> Result<&[Datum], Trouble> {
    match &d.kind {
        DatumKind::List(parts) => Ok(parts.as_slice()),
        _ => Err(Trouble::Unread(d.place)),
    }
}

/// The first member of a list, and what is behind it.
pub fn form_of(d: &Datum) -> Result<(&Datum, &[Datum]), Trouble> {
    match members(d)? {
        [first, rest @ ..] => Ok((first, rest)),
        [] => Err(Trouble::Unread(d.place)),
    }
}

/// The bytes of a string.
pub fn text_of(d: &Datum) -> Result<&[u8], Trouble> {
    match &d.kind {
        DatumKind::Text(text) => Ok(text.as_slice()),
        _ => Err(Trouble::Unread(d.place)),
    }
}

/// A number of 64 bits.
pub fn number_of(d: &Datum) -> Result<u64, Trouble> {
    match &d.kind {
        DatumKind::Integer(i) => u64::try_from(*i).map_err(|_| Trouble::Unread(d.place)),
        _ => Err(Trouble::Unread(d.place)),
    }
}
