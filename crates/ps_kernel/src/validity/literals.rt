//! Literals.

ghost use Rattle.std.specs.Prelude.{◌≡◌, ◌↔◌, true};
ghost use Rattle.std.specs.List.{list_all};
ghost use Rattle.ps_kernel.specs.Lists.{Each};
ghost use Rattle.ps_kernel.specs.Valid.{IsLiteral};
ghost use Rattle.ps_kernel.specs.InsideWalks.{is_stored_within, is_literal};

use crate::validity::DEPTH;
use ps_datum::{Datum, DatumKind};

// The fewest members that a vector has in a literal.
const FEWEST: usize = 1;

// Whether a part of a literal has no symbol, no list and no vector without members, and is at most so deep.
#[cycle(storing)]
fn stored_within(d: &Datum, left: u32) -> bool
    ensures { result ≡ is_stored_within left d.now }
{
    if left == 0 {
        return false;
    }
    match &d.kind {
        DatumKind::Boolean(_) => true,
        DatumKind::Integer(_) => true,
        DatumKind::Char(_) => true,
        DatumKind::Text(_) => true,
        DatumKind::Symbol(_) => false,
        DatumKind::List(_) => false,
        DatumKind::Dotted(_, _) => false,
        DatumKind::Vector(items) => {
            let full = items.len() >= FEWEST;
            full && all_stored_within(items.as_slice(), left - 1)
        }
    }
}

// The same of each part.
#[cycle(storing)]
fn all_stored_within(ds: &[Datum], left: u32) -> bool
    ensures { result ≡ list_all (is_stored_within left) ds.now }
{
    for d in ds {
        if !stored_within(d, left) {
            return false;
        }
    }
    true
}

// Whether a datum is a string or a vector.
fn has_literal_kind(d: &Datum) -> bool
    ensures { result ≡ is_literal d.now }
{
    match &d.kind {
        DatumKind::Boolean(_) => false,
        DatumKind::Integer(_) => false,
        DatumKind::Char(_) => false,
        DatumKind::Text(_) => true,
        DatumKind::Symbol(_) => false,
        DatumKind::List(_) => false,
        DatumKind::Dotted(_, _) => false,
        DatumKind::Vector(_) => true,
    }
}

// Whether a datum may be a literal.
fn is_right(d: &Datum) -> bool
    ensures { (result ≡ true) ↔ IsLiteral d.now }
{
    has_literal_kind(d) && stored_within(d, DEPTH)
}

/// Whether each datum may be a literal.
pub fn all_right(ds: &[Datum]) -> bool
    ensures { (result ≡ true) ↔ Each IsLiteral ds.now }
{
    for d in ds {
        if !is_right(d) {
            return false;
        }
    }
    true
}
