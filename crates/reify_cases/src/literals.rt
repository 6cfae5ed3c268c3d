//! How many blocks the literals of a kernel have.

ghost use Rattle.std.specs.Prelude.{◌≡◌, ◌+◌, ◌<◌, length, map, IfSome, IsTrue};
ghost use Rattle.ps_meaning.specs.Literals.{laid, lay_parts, lay_all};

use ps_datum::{Datum, DatumKind};

/// True only where there are fewer than 4,294,967,296 blocks of these literals.
pub fn are_few(literals: &[Datum]) -> bool
    ensures { IsTrue result → length (lay_all literals.now).blocks < 4294967296 }
{
    match end_of_all(literals, 0) {
        Some(_) => true,
        None => false,
    }
}

// The number of the block behind those of a datum, where its own begin at a number.
#[cycle(laying)]
fn end_of(d: &Datum, start: u32) -> Option<u32>
    ensures { IfSome result (λ end. end ≡ start + length (laid d.now start).blocks) }
{
    match &d.kind {
        DatumKind::Boolean(_) => Some(start),
        DatumKind::Integer(_) => Some(start),
        DatumKind::Char(_) => Some(start),
        DatumKind::Text(_) => start.checked_add(1),
        DatumKind::Symbol(_) => Some(start),
        DatumKind::List(_) => Some(start),
        DatumKind::Dotted(_, _) => Some(start),
        DatumKind::Vector(parts) => end_of_all(parts.as_slice(), start.checked_add(1)?),
    }
}

#[cycle(laying)]
fn end_of_all(parts: &[Datum], start: u32) -> Option<u32>
    ensures { IfSome result (λ end. end ≡ start + length (lay_parts (map laid parts.now) start).blocks) }
{
    let mut end = start;
    for part in parts {
        end = end_of(part, end)?;
    }
    Some(end)
}
