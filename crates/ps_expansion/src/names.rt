//! What stands for itself, names, and primitives as values.

ghost use Rattle.ps_expansion.specs.Does.{Does};
ghost use Rattle.ps_expansion.specs.Names.{is_null_address as is_null_address_spec, constant, literal, local, mentions, named, primitive_inside, primitive_value};
ghost use Rattle.ps_kernel.specs.Valid.{datum_depth, greatest};
ghost use Rattle.std.specs.Prelude.{[], map, nat_le, ◌≡◌};

use crate::expansion::{Expansion, expr_at, refused};
use crate::level::Level;
use crate::stop::Stop;
use crate::task::Task;
use ps_base::{Boxed, FormKind, Items, Numbers, Place, Prim};
use ps_datum::{Datum, DatumKind};
use ps_kernel::{Constant, Expr, ExprKind, Exprs, Lambda};
use ps_pattern::Binding;
use ps_prims::arity_of;

impl Expansion {
    pub fn constant(
        &mut self,
        task: &Task,
        level: Level,
        at: Place,
        value: Constant,
    ) -> Result<Expr, Stop>
        ensures { Does result (constant task.now.limits.now level at value) self.old self.new }
    {
        self.node(task, level.left, at)?;
        Ok(expr_at(at, ExprKind::Constant(value)))
    }

    /// A quoted string or vector.
    pub fn literal(
        &mut self,
        task: &Task,
        level: Level,
        at: Place,
        datum: Datum,
    ) -> Result<Expr, Stop>
        ensures { Does result (literal task.now.limits.now level at datum) self.old self.new }
    {
        self.node(task, level.left, at)?;
        if !is_within(task.limits.depth, &datum) {
            return Err(refused(FormKind::TooDeep, at));
        }
        let number = self.next_literal(datum)?;
        Ok(expr_at(at, ExprKind::Constant(Constant::Quoted(number))))
    }

    pub fn local(&mut self, task: &Task, level: Level, at: Place, number: u32) -> Result<Expr, Stop>
        ensures { Does result (local task.now.limits.now level at number) self.old self.new }
    {
        self.node(task, level.left, at)?;
        Ok(expr_at(at, ExprKind::Local(number)))
    }

    fn mentions(
        &mut self,
        task: &Task,
        level: Level,
        at: Place,
        locals: &[u32],
    ) -> Result<Exprs, Stop>
        ensures { Does result (mentions task.now.limits.now level at locals.now []) self.old self.new }
    {
        let mut all = Items::new(self.alloc);
        for x in locals {
            all.push(self.local(task, level, at, *x)?)?;
        }
        Ok(all)
    }

    /// The lambda of a primitive.
    pub fn primitive_inside(
        &mut self,
        task: &Task,
        level: Level,
        lambda: u32,
        at: Place,
        primitive: Prim,
    ) -> Result<(), Stop>
        ensures { Does result (primitive_inside task.now.limits.now level lambda at primitive) self.old self.new }
    {
        let count = arity_of(primitive, &self.kinds);
        let parameters = self.next_locals(count)?;
        self.node(task, level.left, at)?;
        let operands = self.mentions(task, level.down(), at, parameters.as_slice())?;
        let captured = Items::new(self.alloc);
        let body = expr_at(at, ExprKind::Primitive(primitive, operands));
        self.finished(
            lambda,
            Lambda {
                place: at,
                parameters,
                captured,
                body,
            },
        )
    }

    fn primitive_value(
        &mut self,
        task: &Task,
        level: Level,
        at: Place,
        primitive: Prim,
    ) -> Result<Expr, Stop>
        ensures { Does result (primitive_value task.now.limits.now level at primitive) self.old self.new }
    {
        if is_null_address(primitive) {
            return self.constant(task, level, at, Constant::NullAddress);
        }
        self.node(task, level.left, at)?;
        let number = self.next_lambda(at)?;
        self.primitive_inside(task, level.down(), number, at, primitive)?;
        Ok(expr_at(at, ExprKind::Lambda(number)))
    }

    /// A name in a place of use.
    pub fn named(
        &mut self,
        task: &Task,
        level: Level,
        at: Place,
        binding: Binding,
    ) -> Result<Expr, Stop>
        ensures { Does result (named task.now.limits.now level at binding) self.old self.new }
    {
        match binding {
            Binding::Local(number) => self.local(task, level, at, number),
            Binding::Global(number) => {
                self.node(task, level.left, at)?;
                Ok(expr_at(at, ExprKind::Global(number)))
            }
            Binding::Primitive(primitive) => self.primitive_value(task, level, at, primitive),
            Binding::Macro(_) => Err(refused(FormKind::BadForm, at)),
            Binding::Core(_) => Err(refused(FormKind::BadForm, at)),
            Binding::Unbound(_) => Err(refused(FormKind::Unbound, at)),
        }
    }
}

/// Whether a primitive is the null address, which is a value by itself.
pub fn is_null_address(primitive: Prim) -> bool
    ensures { result ≡ is_null_address_spec primitive }
{
    match primitive {
        Prim::NullAddress => true,
        _ => false,
    }
}

/// Whether a datum is at most so deep: an atom is 1 deep, and a vector one deeper than its deepest member.
#[cycle(depth)]
fn is_within(most: u64, datum: &Datum) -> bool
    ensures { result ≡ nat_le (datum_depth datum.now) most }
{
    if most == 0 {
        return false;
    }
    match &datum.kind {
        DatumKind::Boolean(_) => true,
        DatumKind::Integer(_) => true,
        DatumKind::Char(_) => true,
        DatumKind::Text(_) => true,
        DatumKind::Symbol(_) => true,
        DatumKind::List(items) => are_within(most - 1, items.as_slice()),
        DatumKind::Dotted(items, last) => {
            are_within(most - 1, items.as_slice()) && is_within(most - 1, last.get())
        }
        DatumKind::Vector(items) => are_within(most - 1, items.as_slice()),
    }
}

#[cycle(depth)]
fn are_within(most: u64, members: &[Datum]) -> bool
    ensures { result ≡ nat_le (greatest (map datum_depth members.now)) most }
{
    for datum in members {
        if !is_within(most, datum) {
            return false;
        }
    }
    true
}
