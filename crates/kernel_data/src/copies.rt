//! Copies of data.

use ps_base::{Boxed, Items, NoMemory};
use ps_datum::{Datum, DatumKind};
use std::alloc::Global;

/// A copy of a datum.
#[cycle(copying)]
pub fn copied(alloc: Global, d: &Datum) -> Result<Datum, NoMemory> {
    let kind = match &d.kind {
        DatumKind::Boolean(b) => DatumKind::Boolean(*b),
        DatumKind::Integer(i) => DatumKind::Integer(*i),
        DatumKind::Char(code) => DatumKind::Char(*code),
        DatumKind::Text(bytes) => DatumKind::Text(Items::from_slice(alloc, bytes.as_slice())?),
        DatumKind::Symbol(name) => DatumKind::Symbol(*name),
        DatumKind::List(ds) => DatumKind::List(all_copied(alloc, ds.as_slice())?),
        DatumKind::Dotted(ds, tail) => {
            let tail = Boxed::new(alloc, copied(alloc, tail.get())?)?;
            DatumKind::Dotted(all_copied(alloc, ds.as_slice())?, tail)
        }
        DatumKind::Vector(ds) => DatumKind::Vector(all_copied(alloc, ds.as_slice())?),
    };
    Ok(Datum {
        place: d.place,
        kind,
    })
}

#[cycle(copying)]
fn all_copied(alloc: Global, ds: &[Datum]) -> Result<Items<Datum>, NoMemory> {
    let mut all = Items::new(alloc);
    for d in ds {
        all.push(copied(alloc, d)?)?;
    }
    Ok(all)
}

/// A vector that is so many levels deep.
pub fn deep_vector(alloc: Global, levels: u32, innermost: Datum) -> Result<Datum, NoMemory> {
    let place = innermost.place;
    let mut d = innermost;
    for _ in 1..levels {
        let mut items = Items::new(alloc);
        items.push(d)?;
        d = Datum {
            place,
            kind: DatumKind::Vector(items),
        };
    }
    Ok(d)
}
