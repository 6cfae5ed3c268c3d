//! Nodes of the kernel whose parts are not yet expanded.

use crate::part::Part;
use ps_base::{Boxed, Items, Numbers, Place, Prim};
use ps_bodies::Member;
use ps_derived::{Label, Macro};
use ps_expansion::Level;
use ps_kernel::{CaseKind, Expr, Group};
use ps_pattern::Ident;
use std::collections::VecDeque;

/// What a form binds for its part.
#[derive(Drop)]
pub enum Scope<'a> {
    /// Nothing.
    Here,
    /// Names to locals.
    Locals(Items<&'a Ident>, Numbers),
    /// Keywords to macros, numbered in a row from this number on.
    Keywords(&'a [Macro<'a>], u32),
}

/// A part, and where it is expanded.
#[derive(Drop)]
pub struct Staged<'a> {
    /// Its level.
    pub level: Level,
    /// What is bound for it.
    pub scope: Scope<'a>,
    /// The part.
    pub part: Boxed<Part<'a>>,
}

/// The lambda of a number.
#[derive(Drop)]
pub struct Inside<'a> {
    /// Its number.
    pub number: u32,
    /// Its place.
    pub place: Place,
    /// The locals that are its parameters.
    pub parameters: Numbers,
    /// Its body.
    pub body: Staged<'a>,
}

/// A clause of `case`.
#[derive(Drop)]
pub struct Choice<'a> {
    /// Its data.
    pub labels: Items<Label>,
    /// What it gives.
    pub body: Staged<'a>,
}

/// A node of the kernel, made of parts.
#[derive(Drop)]
pub enum Node<'a> {
    /// Parts in order.
    Begin(VecDeque<Staged<'a>>),
    /// A call, in tail position or not.
    Call(bool, Staged<'a>, VecDeque<Staged<'a>>),
    /// A call that replaces its procedure.
    ProperCall(Staged<'a>, VecDeque<Staged<'a>>),
    /// A primitive and its operands.
    Primitive(Prim, VecDeque<Staged<'a>>),
    /// A primitive of two operands, over all of them from left to right.
    Sum(Prim, Staged<'a>, VecDeque<Staged<'a>>),
    /// A test and its branches.
    If(Staged<'a>, Staged<'a>, Staged<'a>),
    /// A local, its value, and what sees it.
    Let(u32, Staged<'a>, Staged<'a>),
    /// An assignment of a local.
    SetLocal(u32, Staged<'a>),
    /// An assignment of a global.
    SetGlobal(u32, Staged<'a>),
    /// A lambda.
    Lambda(Inside<'a>),
    /// A letrec: its locals and lambdas, the level of these and what they are, and what stands in it.
    Group(Group, Level, VecDeque<Member<'a>>, Staged<'a>),
    /// A letrec of one local, and what stands in it.
    Loop(u32, Inside<'a>, Staged<'a>),
    /// A `case` as a node of its own.
    Case(CaseKind, Staged<'a>, VecDeque<Choice<'a>>, Staged<'a>),
    /// A `case` as a local for its key, and an if for each clause.
    Ifs(u32, Staged<'a>, VecDeque<Choice<'a>>, Staged<'a>),
}

/// What a form or a part of it comes to before its own parts are expanded.
#[derive(Drop)]
pub enum Plan<'a> {
    /// An expression that is made.
    Done(Expr),
    /// A part that is all there is.
    Same(Staged<'a>),
    /// A node of the form at a place.
    Of(Place, Node<'a>),
}
