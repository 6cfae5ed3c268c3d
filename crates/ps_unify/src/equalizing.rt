//! The steps of unification. Each takes from a room what it has found of the size of the types, so that together they take no
//! more steps than there was room.

ghost use Rattle.std.specs.Prelude.{◌≡◌, ◌≢◌, ◌<◌};
ghost use Rattle.ps_types.specs.declared.types.Ty.TheVariants.{Var};
ghost use Rattle.ps_unify.specs.Bindings.{Free, Solved};
ghost use Rattle.ps_unify.specs.InsideBindings.{Headed};
ghost use Rattle.ps_unify.specs.InsideShapes.{NoVariable};
ghost use Rattle.ps_unify.specs.InsideSteps.{Becomes, Comes, Equal, EqualAll, weight, weights};

use crate::faults::WithinFault;
use crate::parts::{are_alike, last, parameters, variable};
use crate::searching::{Sought, search};
use crate::subst::Subst;
use ps_types::Ty;

/// Makes two types equal, and answers what is left of the room.
#[cycle(equalizing)]
pub fn equalize(s: &mut Subst, a: &Ty, b: &Ty, room: u64) -> Result<u64, WithinFault>
    requires { Solved s.old }
    ensures { Comes s.old (Equal a.now b.now) (weight a.now) 1 room s.new result }
{
    match variable(a) {
        Some(_) => match s.head_copy(a) {
            Ok(left) => equalize_headed(s, &left, b, room),
            Err(_) => Err(WithinFault::NoMemory),
        },
        None => equalize_headed(s, a, b, room),
    }
}

// The same, where the first type is no bound variable.
#[cycle(equalizing)]
fn equalize_headed(s: &mut Subst, a: &Ty, b: &Ty, room: u64) -> Result<u64, WithinFault>
    requires solved { Solved s.old }
    requires left { Headed s.old a.now }
    ensures { Comes s.old (Equal a.now b.now) (weight a.now) 1 room s.new result }
{
    match variable(b) {
        Some(_) => match s.head_copy(b) {
            Ok(right) => compare(s, a, &right, room),
            Err(_) => Err(WithinFault::NoMemory),
        },
        None => compare(s, a, b, room),
    }
}

// The same, where neither is.
#[cycle(equalizing)]
fn compare(s: &mut Subst, a: &Ty, b: &Ty, room: u64) -> Result<u64, WithinFault>
    requires solved { Solved s.old }
    requires left { Headed s.old a.now }
    requires right { Headed s.old b.now }
    ensures { Comes s.old (Equal a.now b.now) (weight a.now) 1 room s.new result }
{
    match variable(a) {
        Some(x) => match variable(b) {
            Some(y) => tie(s, x, y, room),
            None => bind_within(s, x, b, room),
        },
        None => match variable(b) {
            Some(y) => bind_within(s, y, a, room),
            None => compare_parts(s, a, b, room),
        },
    }
}

// The same, where both are variables.
fn tie(s: &mut Subst, x: u32, y: u32, room: u64) -> Result<u64, WithinFault>
    requires solved { Solved s.old }
    requires left { Free x s.old }
    requires right { Free y s.old }
    ensures { Comes s.old (Equal (Var x) (Var y)) (weight (Var x)) 1 room s.new result }
{
    if room == 0 {
        return Err(WithinFault::TooLarge);
    }
    if x == y {
        return Ok(room - 1);
    }
    if s.is_heavier(x, y) {
        s.note(y, x);
        bind_within(s, y, &Ty::Var(x), room)
    } else {
        s.note(x, y);
        bind_within(s, x, &Ty::Var(y), room)
    }
}

// The same, where neither is a variable.
#[cycle(equalizing)]
fn compare_parts(s: &mut Subst, a: &Ty, b: &Ty, room: u64) -> Result<u64, WithinFault>
    requires solved { Solved s.old }
    requires left { NoVariable a.now }
    requires right { NoVariable b.now }
    ensures { Comes s.old (Equal a.now b.now) (weight a.now) 1 room s.new result }
{
    if !are_alike(a, b) {
        return Err(WithinFault::Unequal);
    }
    if room == 0 {
        return Err(WithinFault::TooLarge);
    }
    match equalize_all(s, parameters(a), parameters(b), room - 1) {
        Ok(left) => equalize_all(s, last(a), last(b), left),
        Err(e) => Err(e),
    }
}

// Makes types equal, each to the one at its place.
#[cycle(equalizing)]
fn equalize_all(s: &mut Subst, left: &[Ty], right: &[Ty], room: u64) -> Result<u64, WithinFault>
    requires { Solved s.old }
    ensures { Comes s.old (EqualAll left.now right.now) (weights left.now) 0 room s.new result }
{
    match left.split_first() {
        Some((a, left)) => match right.split_first() {
            Some((b, right)) => match equalize(s, a, b, room) {
                Ok(room) => equalize_all(s, left, right, room),
                Err(e) => Err(e),
            },
            None => Err(WithinFault::Unequal),
        },
        None => match right.split_first() {
            Some(_) => Err(WithinFault::Unequal),
            None => Ok(room),
        },
    }
}

// Binds a variable to another type, unless it stands in it.
fn bind_within(s: &mut Subst, x: u32, t: &Ty, room: u64) -> Result<u64, WithinFault>
    requires solved { Solved s.old }
    requires free { Free x s.old }
    requires headed { Headed s.old t.now }
    requires other { t.now ≢ Var x }
    ensures { Comes s.old (Becomes x t.now) (weight t.now) 1 room s.new result }
{
    match search(s, x, t, room) {
        Sought::Found => Err(WithinFault::Unequal),
        Sought::Left(left) => match s.bind(x, t) {
            Ok(()) => Ok(left),
            Err(_) => Err(WithinFault::NoMemory),
        },
        Sought::Spent => Err(WithinFault::TooLarge),
    }
}
