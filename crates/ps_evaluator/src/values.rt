//! Values at run time and the values of locals: how they are copied, found, bound and assigned.

ghost use Rattle.std.specs.Prelude.{◌≡◌, ◌∷◌, drop, map, IfOk};
ghost use Rattle.ps_runs.specs.Locals.{found, push_all, put_in};
ghost use Rattle.ps_meaning.specs.declared.values.RunValue.TheVariants.{Plain};
ghost use Rattle.ps_meaning.specs.Values.{bound, only, pairs_of};
ghost use Rattle.ps_evaluator.specs.InsideLists.{IfSome};

use byte_store::Value;
use ps_base::{Items, NoMemory};
use ps_meaning::{Binding, Bindings, RunValue};
use std::alloc::Global;

/// Values at run time, in order.
pub type RunValues = Items<RunValue>;

/// A copy of a value.
#[cycle(copying)]
pub fn copied_value(alloc: Global, value: &RunValue) -> Result<RunValue, NoMemory>
    ensures { IfOk result (λ r. r ≡ value.now) }
{
    match value {
        RunValue::Plain(v) => Ok(RunValue::Plain(*v)),
        RunValue::Procedure(lambda, kept) => Ok(RunValue::Procedure(
            *lambda,
            copied(alloc, kept.as_slice())?,
        )),
    }
}

/// A copy of the values of locals.
#[cycle(copying)]
pub fn copied(alloc: Global, env: &[Binding]) -> Result<Bindings, NoMemory>
    ensures { IfOk result (λ r. r ≡ env.now) }
{
    let mut all = Items::new(alloc);
    for binding in env {
        let value = copied_value(alloc, &binding.value)?;
        all.push(Binding {
            local: binding.local,
            value,
        })?;
    }
    Ok(all)
}

/// A copy of the value of a local, where it has one.
pub fn found(alloc: Global, local: u32, env: &[Binding]) -> Result<Option<RunValue>, NoMemory>
    ensures { IfOk result (λ r. r ≡ found local (pairs_of env.now)) }
{
    match env {
        [] => Ok(None),
        [binding, rest @ ..] => {
            if local == binding.local {
                Ok(Some(copied_value(alloc, &binding.value)?))
            } else {
                found(alloc, local, rest)
            }
        }
    }
}

/// A local is given a value, before what is bound already.
pub fn with_bound(
    alloc: Global,
    local: u32,
    value: RunValue,
    env: Bindings,
) -> Result<Bindings, NoMemory>
    ensures is { IfOk result (λ r. r ≡ bound local value ∷ env) }
    ensures pairs { IfOk result (λ r. pairs_of r ≡ (local, value) ∷ pairs_of env) }
{
    let mut all = Items::new(alloc);
    all.push(Binding { local, value })?;
    all.append(env)?;
    Ok(all)
}

/// These locals are given these values in order, as far as there are both, so that the last stands first.
pub fn with_all_bound(
    alloc: Global,
    locals: &[u32],
    values: &[RunValue],
    env: Bindings,
) -> Result<Bindings, NoMemory>
    ensures { IfOk result (λ r. pairs_of r ≡ push_all locals.now values.now (pairs_of env)) }
{
    match locals {
        [] => Ok(env),
        [local, more @ ..] => match values {
            [] => Ok(env),
            [value, values @ ..] => {
                let value = copied_value(alloc, value)?;
                let env = with_bound(alloc, *local, value, env)?;
                with_all_bound(alloc, more, values, env)
            }
        },
    }
}

/// The same locals, of which one has another value.
pub fn with_put(
    alloc: Global,
    local: u32,
    value: RunValue,
    env: &[Binding],
) -> Result<Bindings, NoMemory>
    ensures { IfOk result (λ r. pairs_of r ≡ put_in local value (pairs_of env.now)) }
{
    match env {
        [] => Ok(Items::new(alloc)),
        [binding, rest @ ..] => {
            if local == binding.local {
                with_bound(alloc, local, value, copied(alloc, rest)?)
            } else {
                let own = copied_value(alloc, &binding.value)?;
                let rest = with_put(alloc, local, value, rest)?;
                with_bound(alloc, binding.local, own, rest)
            }
        }
    }
}

/// The locals without so many that stand first.
pub fn without(alloc: Global, count: usize, env: &[Binding]) -> Result<Bindings, NoMemory>
    ensures { IfOk result (λ r. pairs_of r ≡ drop count (pairs_of env.now)) }
{
    if count == 0 {
        return copied(alloc, env);
    }
    match env {
        [] => Ok(Items::new(alloc)),
        [_, rest @ ..] => without(alloc, count - 1, rest),
    }
}

/// The values of these locals alone.
pub fn kept_of(alloc: Global, locals: &[u32], env: &[Binding]) -> Result<Bindings, NoMemory>
    ensures { IfOk result (λ r. r ≡ only locals.now (pairs_of env.now)) }
{
    match locals {
        [] => Ok(Items::new(alloc)),
        [local, more @ ..] => {
            let rest = kept_of(alloc, more, env)?;
            match found(alloc, *local, env)? {
                None => Ok(rest),
                Some(value) => with_bound(alloc, *local, value, rest),
            }
        }
    }
}

/// The values of first order that these are, where none of them is a procedure.
pub fn plain_values(alloc: Global, values: &[RunValue]) -> Result<Option<Items<Value>>, NoMemory>
    ensures { IfOk result (λ r. IfSome r (λ plain. map Plain plain ≡ values.now)) }
{
    let mut plain = Items::new(alloc);
    for value in values {
        match value {
            RunValue::Plain(v) => plain.push(*v)?,
            RunValue::Procedure(_, _) => return Ok(None),
        }
    }
    Ok(Some(plain))
}
