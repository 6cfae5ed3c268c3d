//! Which lambdas of a group are reached from one.

ghost use Rattle.std.specs.Prelude.{◌≡◌, ◌++◌, IfOk, OnOk};
ghost use Rattle.ps_kernel.specs.declared.kernel.Kernel.{Kernel};
ghost use Rattle.ps_captured.specs.InsideKeeping.{AreReached, all_met, all_named, looked, met as met_spec, named_at};

use crate::locals::Locals;
use crate::members::Members;
use crate::named::Named;
use ps_base::{Items, NoMemory};
use ps_kernel::GroupEntry;
use std::alloc::Global;

/// Lambdas in order of their being met.
pub type Order = Items<usize>;

/// How far lambdas have been followed.
#[derive(Drop)]
pub struct Chase {
    /// The lambdas that were reached and not followed.
    pub todo: Order,
    /// The lambdas that were followed.
    pub done: Order,
    /// The locals that were met.
    pub met: Locals,
}

/// The lambdas that are reached from one within a group, where it is known what each lambda names.
pub fn reached(
    alloc: Global,
    named: &[Named],
    group: &[GroupEntry],
    lambda: usize,
) -> Result<Order, NoMemory>
    ensures { IfOk result (λ order. (k : Kernel) → named.now ≡ all_named k.lambdas → AreReached k group.now lambda order) }
{
    let members = Members::new(alloc, group)?;
    let mut chase = Chase {
        todo: Order::from_slice(alloc, &[lambda])?,
        done: Order::new(alloc),
        met: Locals::new(alloc),
    };
    while let Some(next) = chase.todo.pop() {
        chase.done.push(next)?;
        follow(&mut chase, &members, named, next)?;
    }
    Ok(chase.done)
}

// What a lambda names is met.
fn follow(
    chase: &mut Chase,
    members: &Members,
    named: &[Named],
    lambda: usize,
) -> Result<(), NoMemory>
    ensures { OnOk result (chase.new ≡ all_met (looked members.now) chase.old (named_at named.now lambda).names) }
{
    match named.get(lambda) {
        Some(one) => meet_all(chase, members, one.names.as_slice()),
        None => Ok(()),
    }
}

// Locals are met.
fn meet_all(chase: &mut Chase, members: &Members, locals: &[u32]) -> Result<(), NoMemory>
    ensures { OnOk result (chase.new ≡ all_met (looked members.now) chase.old locals.now) }
{
    for local in locals {
        meet(chase, members, *local)?;
    }
    Ok(())
}

// A local is met: its lambdas are reached, where it is met first.
fn meet(chase: &mut Chase, members: &Members, local: u32) -> Result<(), NoMemory>
    ensures { OnOk result (chase.new ≡ met_spec (looked members.now) chase.old local) }
{
    if chase.met.contains(local) {
        return Ok(());
    }
    chase.met.insert(local)?;
    add_each(&mut chase.todo, members.at(local))
}

// Numbers of lambdas behind others.
fn add_each(order: &mut Order, lambdas: &[u32]) -> Result<(), NoMemory>
    ensures { OnOk result (order.new ≡ order.old ++ lambdas.now) }
{
    for lambda in lambdas {
        order.push(*lambda as usize)?;
    }
    Ok(())
}
