//! The kinds of records that cases speak of.

ghost use Rattle.std.specs.Prelude.{◌≡◌, [], ◌∷◌, length, IfOk};
ghost use Rattle.ps_prims.specs.Kinds.{AreKinds};

use ps_base::{Boxed, Items, Name, Names, NoMemory};
use ps_types::{Kinds, RecordKind, Ty};
use std::alloc::Global;

/// Kind 0, `node`, has an integer, a vector of integers, a character and a record of kind 1, and its maker takes fields 2, 0, 3
/// and 1. Kind 1, `leaf`, has a unit, an address, a string and a boolean, and its maker takes fields 3, 2, 1 and 0.
#[tactic(auto, using(crate::proofs::KindsAreFilled::are_kinds))]
pub fn kinds(alloc: Global) -> Result<Kinds, NoMemory>
    ensures { IfOk result (λ kinds. AreKinds kinds) }
{
    let mut kinds = Items::new(alloc);
    kinds.push(node(alloc)?)?;
    kinds.push(leaf(alloc)?)?;
    Ok(kinds)
}

/// The names of the kinds.
pub fn names_of_kinds(alloc: Global) -> Result<Names, NoMemory> {
    let mut names = Names::new(alloc);
    let _node = names.add(b"node")?;
    let _leaf = names.add(b"leaf")?;
    Ok(names)
}

fn node(alloc: Global) -> Result<RecordKind, NoMemory>
    ensures { IfOk result (λ kind. (length kind.fields ≡ 4) × (kind.maker ≡ 2 ∷ 0 ∷ 3 ∷ 1 ∷ [])) }
{
    let mut fields = Items::new(alloc);
    fields.push(Ty::Integer)?;
    fields.push(Ty::Vector(Boxed::new(alloc, Ty::Integer)?))?;
    fields.push(Ty::Char)?;
    fields.push(Ty::Tuple(1))?;
    Ok(RecordKind {
        name: Name(0),
        fields,
        maker: Items::from_slice(alloc, &[2, 0, 3, 1])?,
    })
}

fn leaf(alloc: Global) -> Result<RecordKind, NoMemory>
    ensures { IfOk result (λ kind. (length kind.fields ≡ 4) × (kind.maker ≡ 3 ∷ 2 ∷ 1 ∷ 0 ∷ [])) }
{
    let mut fields = Items::new(alloc);
    fields.push(Ty::Unit)?;
    fields.push(Ty::Address)?;
    fields.push(Ty::Text)?;
    fields.push(Ty::Boolean)?;
    Ok(RecordKind {
        name: Name(1),
        fields,
        maker: Items::from_slice(alloc, &[3, 2, 1, 0])?,
    })
}
