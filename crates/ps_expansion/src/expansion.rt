//! What an expansion knows and has counted, and its small steps.

ghost use Rattle.ps_derived.specs.Seen.{idents};
ghost use Rattle.ps_expansion.specs.Does.{Does, form_stop, state_of};
ghost use Rattle.ps_expansion.specs.States.{bind_all};
ghost use Rattle.ps_expansion.specs.States.{finished, next_lambda, next_literal, next_local, next_locals, node, numbers_from as numbers_spec, unfinished as unfinished_spec};
ghost use Rattle.ps_expansion.specs.declared.stop.Stop.TheVariants.{NoMemory as WantOfMemory};
ghost use Rattle.ps_kernel.specs.Texts.{expr_at as expr_spec};
ghost use Rattle.std.specs.Prelude.{IfErr, IfOk, MatchResult, OnOk, length, ◌+◌, ◌<◌, ◌≡◌};

use crate::stop::Stop;
use crate::task::Task;
use ps_base::{Fault, FormKind, Items, NoMemory, Numbers, Place};
use ps_datum::Datum;
use ps_hygiene::Hygiene;
use ps_kernel::{Constant, Definitions, Expr, ExprKind, Lambda, Lambdas, Literals};
use ps_pattern::{Binding, Ident};
use ps_scope::Defined;
use ps_types::Kinds;
use std::alloc::Global;

/// What an expansion knows and has counted so far.
#[derive(Drop)]
pub struct Expansion {
    pub alloc: Global,
    pub hygiene: Hygiene,
    pub types: Defined,
    pub nodes: u64,
    pub locals: u32,
    pub lambdas: Lambdas,
    pub literals: Literals,
    pub kinds: Kinds,
    pub definitions: Definitions,
}

/// An expression of a kind at a place.
pub fn expr_at(place: Place, kind: ExprKind) -> Expr
    ensures { result ≡ expr_spec place kind }
{
    Expr { place, kind }
}

/// What is no fault: a fault of a form at a place.
pub fn refused(kind: FormKind, at: Place) -> Stop
    ensures { result ≡ form_stop kind at }
{
    Stop::Fault(Fault::Form(kind, at))
}

fn one_more(count: u32) -> Result<u32, Stop>
    ensures { MatchResult result (λ n. n ≡ count + 1) (λ e. e ≡ WantOfMemory) }
{
    if count == u32::MAX {
        Err(Stop::NoMemory)
    } else {
        Ok(count + 1)
    }
}

impl Expansion {
    /// A node of the kernel is made.
    pub fn node(&mut self, task: &Task, left: u64, at: Place) -> Result<(), Stop>
        ensures { Does result (node task.now.limits.now left at) self.old self.new }
    {
        if left == 0 {
            Err(refused(FormKind::TooDeep, at))
        } else if self.nodes < task.limits.nodes {
            self.nodes += 1;
            Ok(())
        } else {
            Err(Stop::Fault(Fault::CoreSpent(task.limits.nodes)))
        }
    }

    /// A local is numbered.
    pub fn next_local(&mut self) -> Result<u32, Stop>
        ensures { Does result (next_local) self.old self.new }
    {
        let n = self.locals;
        self.locals = one_more(n)?;
        Ok(n)
    }

    /// Locals are numbered in a row.
    pub fn next_locals(&mut self, count: usize) -> Result<Numbers, Stop>
        ensures answer { Does result (next_locals count) self.old self.new }
        ensures many { IfOk result (λ ls. length ls ≡ count) }
    {
        let first = self.locals;
        if count > (u32::MAX - first) as usize {
            return Err(Stop::NoMemory);
        }
        let all = numbers_from(self.alloc, first, count as u32)?;
        self.locals = first + count as u32;
        Ok(all)
    }

    /// A lambda is numbered.
    pub fn next_lambda(&mut self, at: Place) -> Result<u32, Stop>
        ensures { Does result (next_lambda at) self.old self.new }
    {
        let number = self.lambdas.len();
        if number >= u32::MAX as usize {
            return Err(Stop::NoMemory);
        }
        let lambda = unfinished(self.alloc, at);
        self.lambdas.push(lambda)?;
        Ok(number as u32)
    }

    /// A lambda is finished.
    pub fn finished(&mut self, number: u32, lambda: Lambda) -> Result<(), Stop>
        ensures { Does result (finished number lambda) self.old self.new }
    {
        if (number as usize) < self.lambdas.len() {
            self.lambdas.set(number as usize, lambda);
        }
        Ok(())
    }

    /// A literal is numbered.
    pub fn next_literal(&mut self, datum: Datum) -> Result<u32, Stop>
        ensures { Does result (next_literal datum) self.old self.new }
    {
        let number = self.literals.len();
        if number >= u32::MAX as usize {
            return Err(Stop::NoMemory);
        }
        self.literals.push(datum)?;
        Ok(number as u32)
    }

    /// Identifiers stand for locals, each for its own.
    pub fn bind_all(&mut self, names: &[&Ident], locals: &[u32]) -> Result<(), Stop>
        requires { length names.now ≡ length locals.now }
        ensures err { IfErr result (λ e. e ≡ WantOfMemory) }
        ensures bound { OnOk result (self.new.hygiene.here ≡ bind_all (idents names.now) locals.now self.old.hygiene.here) }
        ensures state { OnOk result (state_of self.new ≡ state_of self.old) }
    {
        for (i, x) in names.iter().enumerate() {
            self.hygiene.bind(x, Binding::Local(locals[i]))?;
        }
        Ok(())
    }
}

fn numbers_from(alloc: Global, first: u32, count: u32) -> Result<Numbers, NoMemory>
    requires { first + count < 4294967296 }
    ensures { IfOk result (λ ls. ls ≡ numbers_spec first count) }
{
    let mut all = Items::new(alloc);
    for i in 0..count {
        all.push(first + i)?;
    }
    Ok(all)
}

fn unfinished(alloc: Global, place: Place) -> Lambda
    ensures { result ≡ unfinished_spec place }
{
    Lambda {
        place,
        parameters: Items::new(alloc),
        captured: Items::new(alloc),
        body: expr_at(place, ExprKind::Constant(Constant::Unit)),
    }
}
