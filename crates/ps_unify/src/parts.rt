//! Types taken apart: their constructors and their parts.

ghost use Rattle.std.specs.Prelude.{◌≡◌, ◌↔◌, IsTrue, MatchOption};
ghost use Rattle.ps_types.specs.declared.types.Ty.TheVariants.{Var};
ghost use Rattle.ps_unify.specs.InsideShapes.{NoVariable, last_of, parameters_of, shape_of};

use ps_types::Ty;
use std::slice;

// The outermost constructor of a type.
#[derive(Clone, Copy, PartialEq, Eq)]
enum Shape {
    Integer,
    Boolean,
    Char,
    Unit,
    Address,
    Text,
    Vector,
    Tuple(u32),
    Proc,
    Var,
}

// The outermost constructor.
fn outermost(t: &Ty) -> Shape
    ensures { result ≡ shape_of t.now }
{
    match t {
        Ty::Integer => Shape::Integer,
        Ty::Boolean => Shape::Boolean,
        Ty::Char => Shape::Char,
        Ty::Unit => Shape::Unit,
        Ty::Address => Shape::Address,
        Ty::Text => Shape::Text,
        Ty::Vector(_) => Shape::Vector,
        Ty::Tuple(kind) => Shape::Tuple(*kind),
        Ty::Proc(_, _) => Shape::Proc,
        Ty::Var(_) => Shape::Var,
    }
}

/// Whether two types have the same outermost constructor.
pub fn are_alike(a: &Ty, b: &Ty) -> bool
    ensures { IsTrue result ↔ (shape_of a.now ≡ shape_of b.now) }
{
    outermost(a) == outermost(b)
}

/// The types of a procedure's parameters, and nothing of another type.
pub fn parameters(t: &Ty) -> &[Ty]
    ensures { result.now ≡ parameters_of t.now }
{
    match t {
        Ty::Proc(parameters, _) => parameters.as_slice(),
        Ty::Integer
        | Ty::Boolean
        | Ty::Char
        | Ty::Unit
        | Ty::Address
        | Ty::Text
        | Ty::Vector(_)
        | Ty::Tuple(_)
        | Ty::Var(_) => &[],
    }
}

/// The type of a vector's items or of a procedure's answer, and nothing of another type.
pub fn last(t: &Ty) -> &[Ty]
    ensures { result.now ≡ last_of t.now }
{
    match t {
        Ty::Vector(item) => slice::from_ref(item.get()),
        Ty::Proc(_, answer) => slice::from_ref(answer.get()),
        Ty::Integer
        | Ty::Boolean
        | Ty::Char
        | Ty::Unit
        | Ty::Address
        | Ty::Text
        | Ty::Tuple(_)
        | Ty::Var(_) => &[],
    }
}

/// The number of a variable.
pub fn variable(t: &Ty) -> Option<u32>
    ensures { MatchOption result (NoVariable t.now) (λ x. t.now ≡ Var x) }
{
    match t {
        Ty::Var(variable) => Some(*variable),
        Ty::Integer
        | Ty::Boolean
        | Ty::Char
        | Ty::Unit
        | Ty::Address
        | Ty::Text
        | Ty::Vector(_)
        | Ty::Tuple(_)
        | Ty::Proc(_, _) => None,
    }
}
