//! What types mean under bindings.

ghost use Rattle.std.specs.Prelude.{◌≡◌, IfOk, map};
ghost use Rattle.ps_types.specs.Substitutions.{apply};
ghost use Rattle.ps_unify.specs.Bindings.{Solved, means};

use crate::subst::Subst;
use ps_base::{Boxed, Items, NoMemory};
use ps_types::{Ty, Tys};
use std::alloc::Global;

/// What a type means.
#[cycle(replacing)]
pub fn replaced(alloc: Global, s: &Subst, t: &Ty) -> Result<Ty, NoMemory>
    requires { Solved s.now }
    ensures { IfOk result (λ r. r ≡ apply (means s.now) t.now) }
{
    match s.head(t) {
        Ty::Integer => Ok(Ty::Integer),
        Ty::Boolean => Ok(Ty::Boolean),
        Ty::Char => Ok(Ty::Char),
        Ty::Unit => Ok(Ty::Unit),
        Ty::Address => Ok(Ty::Address),
        Ty::Text => Ok(Ty::Text),
        Ty::Vector(item) => Ok(Ty::Vector(replaced_part(alloc, s, item.get())?)),
        Ty::Tuple(kind) => Ok(Ty::Tuple(*kind)),
        Ty::Proc(parameters, answer) => Ok(Ty::Proc(
            replaced_all(alloc, s, parameters.as_slice())?,
            replaced_part(alloc, s, answer.get())?,
        )),
        Ty::Var(variable) => Ok(Ty::Var(*variable)),
    }
}

#[cycle(replacing)]
fn replaced_part(alloc: Global, s: &Subst, t: &Ty) -> Result<Boxed<Ty>, NoMemory>
    requires { Solved s.now }
    ensures { IfOk result (λ r. r ≡ apply (means s.now) t.now) }
{
    Ok(Boxed::new(alloc, replaced(alloc, s, t)?)?)
}

#[cycle(replacing)]
fn replaced_all(alloc: Global, s: &Subst, types: &[Ty]) -> Result<Tys, NoMemory>
    requires { Solved s.now }
    ensures { IfOk result (λ r. r ≡ map (apply (means s.now)) types.now) }
{
    let mut all = Items::new(alloc);
    for t in types {
        all.push(replaced(alloc, s, t)?)?;
    }
    Ok(all)
}
