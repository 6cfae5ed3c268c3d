//! Copies of types.

ghost use Rattle.std.specs.Prelude.{◌≡◌, IfOk};

use ps_base::{Boxed, Items, NoMemory};
use ps_types::Ty;
use std::alloc::Global;

/// A copy of a type.
#[cycle(copying)]
pub fn copy_of(alloc: Global, t: &Ty) -> Result<Ty, NoMemory>
    ensures { IfOk result (λ copy. copy ≡ t.now) }
{
    match t {
        Ty::Integer => Ok(Ty::Integer),
        Ty::Boolean => Ok(Ty::Boolean),
        Ty::Char => Ok(Ty::Char),
        Ty::Unit => Ok(Ty::Unit),
        Ty::Address => Ok(Ty::Address),
        Ty::Text => Ok(Ty::Text),
        Ty::Vector(item) => Ok(Ty::Vector(Boxed::new(alloc, copy_of(alloc, item.get())?)?)),
        Ty::Tuple(k) => Ok(Ty::Tuple(*k)),
        Ty::Proc(parameters, answer) => {
            let parameters = copies_of(alloc, parameters.as_slice())?;
            Ok(Ty::Proc(
                parameters,
                Boxed::new(alloc, copy_of(alloc, answer.get())?)?,
            ))
        }
        Ty::Var(x) => Ok(Ty::Var(*x)),
    }
}

// Copies of types, in order.
#[cycle(copying)]
fn copies_of(alloc: Global, types: &[Ty]) -> Result<Items<Ty>, NoMemory>
    ensures { IfOk result (λ copies. copies ≡ types.now) }
{
    let mut copies = Items::new(alloc);
    for t in types {
        copies.push(copy_of(alloc, t)?)?;
    }
    Ok(copies)
}
