//! Copies of types.

ghost use Rattle.std.specs.Prelude.{◌≡◌, IfOk};

use ps_base::{Boxed, Items, NoMemory};
use ps_types::{Ty, Tys};
use std::alloc::Global;

/// A copy of a type.
///
/// # Errors
///
/// `NoMemory` where memory ran out.
#[cycle(copying)]
pub fn copied(alloc: Global, t: &Ty) -> Result<Ty, NoMemory>
    ensures { IfOk result (λ r. r ≡ t.now) }
{
    match t {
        Ty::Integer => Ok(Ty::Integer),
        Ty::Boolean => Ok(Ty::Boolean),
        Ty::Char => Ok(Ty::Char),
        Ty::Unit => Ok(Ty::Unit),
        Ty::Address => Ok(Ty::Address),
        Ty::Text => Ok(Ty::Text),
        Ty::Vector(item) => Ok(Ty::Vector(copied_part(alloc, item.get())?)),
        Ty::Tuple(kind) => Ok(Ty::Tuple(*kind)),
        Ty::Proc(parameters, answer) => Ok(Ty::Proc(
            copied_all(alloc, parameters.as_slice())?,
            copied_part(alloc, answer.get())?,
        )),
        Ty::Var(variable) => Ok(Ty::Var(*variable)),
    }
}

#[cycle(copying)]
fn copied_part(alloc: Global, t: &Ty) -> Result<Boxed<Ty>, NoMemory>
    ensures { IfOk result (λ r. r ≡ t.now) }
{
    Ok(Boxed::new(alloc, copied(alloc, t)?)?)
}

#[cycle(copying)]
fn copied_all(alloc: Global, types: &[Ty]) -> Result<Tys, NoMemory>
    ensures { IfOk result (λ r. r ≡ types.now) }
{
    let mut all = Items::new(alloc);
    for t in types {
        all.push(copied(alloc, t)?)?;
    }
    Ok(all)
}
