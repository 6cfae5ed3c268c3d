//! The kinds of records of a program.

ghost use Rattle.std.specs.Prelude.{◌≡◌};
ghost use Rattle.ps_prims.specs.Records.{fields, maker_order};
ghost use Rattle.ps_prims.specs.Kinds.{is_there};

use ps_base::Prim;
use ps_types::{Kinds, Ty};

/// Whether the kind and the field of a primitive of records are there.
pub fn is_there(p: Prim, kinds: &Kinds) -> bool
    ensures { result ≡ is_there kinds.now p }
{
    match p {
        Prim::Maker(k) => (k as usize) < kinds.len(),
        Prim::Predicate(k) => (k as usize) < kinds.len(),
        Prim::Accessor(k, f) => (f as usize) < fields_of(kinds, k).len(),
        Prim::Modifier(k, f) => (f as usize) < fields_of(kinds, k).len(),
        _ => true,
    }
}

/// The types of the fields of a kind; none, where it is not there.
pub fn fields_of(kinds: &Kinds, k: u32) -> &[Ty]
    ensures { result.now ≡ fields kinds.now k }
{
    match kinds.get(k as usize) {
        Some(kind) => kind.fields.as_slice(),
        None => &[],
    }
}

/// The fields of a kind in the maker's order; none, where it is not there.
pub fn maker_of(kinds: &Kinds, k: u32) -> &[u32]
    ensures { result.now ≡ maker_order kinds.now k }
{
    match kinds.get(k as usize) {
        Some(kind) => kind.maker.as_slice(),
        None => &[],
    }
}
