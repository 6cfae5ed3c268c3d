//! Copies of data.

ghost use Rattle.std.specs.Prelude.{◌≡◌, IfOk};

use ps_base::{Boxed, Items, NoMemory};
use ps_datum::{Datum, DatumKind};
use std::alloc::Global;

/// Copies of these data.
#[cycle(copying)]
pub(crate) fn copied_data(alloc: Global, ds: &[Datum]) -> Result<Items<Datum>, NoMemory>
    ensures { IfOk result (λ copies. copies ≡ ds.now) }
{
    let mut copies = Items::new(alloc);
    for d in ds {
        copies.push(copied(alloc, d)?)?;
    }
    Ok(copies)
}

// A copy of this datum.
#[cycle(copying)]
fn copied(alloc: Global, d: &Datum) -> Result<Datum, NoMemory>
    ensures { IfOk result (λ copy. copy ≡ d.now) }
{
    let kind = match &d.kind {
        DatumKind::Boolean(b) => DatumKind::Boolean(*b),
        DatumKind::Integer(i) => DatumKind::Integer(*i),
        DatumKind::Char(code) => DatumKind::Char(*code),
        DatumKind::Text(text) => DatumKind::Text(Items::from_slice(alloc, text.as_slice())?),
        DatumKind::Symbol(name) => DatumKind::Symbol(*name),
        DatumKind::List(ds) => DatumKind::List(copied_data(alloc, ds.as_slice())?),
        DatumKind::Dotted(ds, tail) => {
            let front = copied_data(alloc, ds.as_slice())?;
            DatumKind::Dotted(front, Boxed::new(alloc, copied(alloc, tail.get())?)?)
        }
        DatumKind::Vector(ds) => DatumKind::Vector(copied_data(alloc, ds.as_slice())?),
    };
    Ok(Datum {
        place: d.place,
        kind,
    })
}
