//! Parts of forms.

use ps_base::{Items, Numbers, Place};
use ps_derived::{Binding, Clause, Label};
use ps_kernel::Constant;
use ps_pattern::{Ident, Syntax};
use std::collections::VecDeque;

/// An operand.
#[derive(Clone, Copy, Drop)]
pub enum Operand<'a> {
    /// A form.
    Given(&'a Syntax),
    /// A mention of a local that the form at a place itself binds.
    Held(Place, u32),
}

/// Names for values that see none of them.
#[derive(Drop)]
pub struct Lets<'a> {
    /// The names.
    pub names: Items<&'a Ident>,
    /// The locals of the first of them.
    pub locals: Numbers,
    /// The values of the others.
    pub values: VecDeque<Operand<'a>>,
    /// The place of the form whose body this is.
    pub place: Place,
    /// What sees the names.
    pub body: &'a [Syntax],
}

/// A round of a loop (R5RS 4.2.4).
#[derive(Drop)]
pub struct Round<'a> {
    /// The local that is the loop.
    pub local: u32,
    /// The test that ends it.
    pub test: &'a Syntax,
    /// What it gives at its end.
    pub results: &'a [Syntax],
    /// What each round does.
    pub commands: &'a [Syntax],
    /// What the next round begins with.
    pub nexts: VecDeque<Operand<'a>>,
}

/// A part of the form at a place that has a row of its own.
#[derive(Drop)]
pub enum Piece<'a> {
    /// A mention of a local.
    Mention(Place, u32),
    /// A constant.
    Fixed(Place, Constant),
    /// The expressions of a body, of which the first is no macro use.
    Expressions(Place, &'a Syntax, &'a [Syntax]),
    /// None, which is a unit, one, or several in order.
    Sequence(Place, &'a [Syntax]),
    /// The other operands of `and`.
    Ands(Place, &'a [Syntax]),
    /// The other operands of `or`.
    Ors(Place, &'a [Syntax]),
    /// The other clauses of `cond`, and the expressions of its `else`.
    Conds(Place, &'a [Clause<'a>], Option<&'a [Syntax]>),
    /// The test of a clause with `=>`, whose value a local has, what is applied to it, and the other clauses.
    Arrow(Place, u32, &'a Syntax, &'a [Clause<'a>], Option<&'a [Syntax]>),
    /// A clause of `case`.
    Branch(Place, &'a [Label], &'a [Syntax]),
    /// A lambda: its parameters and its body.
    Lambda(Place, Items<&'a Ident>, &'a [Syntax]),
    /// The other bindings of a `let`.
    Lets(Place, Lets<'a>),
    /// The other bindings of a `let*`, and its body.
    Stars(Place, &'a [Binding<'a>], &'a [Syntax]),
    /// The values of a `letrec`, the locals of its names, and its body.
    Values(Place, &'a [Binding<'a>], Numbers, &'a [Syntax]),
    /// A round of a `do`.
    Round(Place, Round<'a>),
    /// The commands of a round, and the call of this local behind them.
    Commands(Place, &'a [Syntax], u32, VecDeque<Operand<'a>>),
    /// The call of a local.
    Again(Place, u32, VecDeque<Operand<'a>>),
}

/// A part of a form: what is expanded at one level.
#[derive(Drop)]
pub enum Part<'a> {
    /// A form.
    One(&'a Syntax),
    /// A form that is no macro use.
    Settled(&'a Syntax),
    /// A body, of the form at a place.
    Body(Place, &'a [Syntax]),
    /// A body that makes a node also where it is a single expression.
    Alone(Place, &'a [Syntax]),
    /// An operator that is not yet known, and its operands.
    Applied(Place, &'a Syntax, VecDeque<Operand<'a>>),
    /// What has a row of its own.
    Row(Piece<'a>),
}
