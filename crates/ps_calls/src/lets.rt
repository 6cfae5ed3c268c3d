//! Lets (R5RS 4.2.2).

ghost use Rattle.ps_calls.specs.Applied.{let_body as let_body_spec, let_forms as let_forms_spec, let_stars as let_stars_spec, lets as lets_spec, lets_row as lets_row_spec, names_in as names_in_spec, next_let as next_let_spec, stars_row as stars_row_spec, values_in as values_in_spec};
ghost use Rattle.ps_derived.specs.Seen.{idents, seen_binding};
ghost use Rattle.ps_expansion.specs.Does.{Does_by, task_of};
ghost use Rattle.ps_plans.specs.Nodes.{Locals};
ghost use Rattle.ps_plans.specs.Parts.{givens};
ghost use Rattle.ps_plans.specs.Seen.{seen_lets, seen_operand, seen_operands, seen_part, seen_plan, seen_staged};
ghost use Rattle.std.specs.Prelude.{IfOk, map, ◌≡◌};

use ps_base::{Boxed, Items, Numbers, Place};
use ps_derived::Binding;
use ps_expansion::{Expansion, Level, Stop, Task};
use ps_pattern::{Ident, Syntax};
use ps_plans::{Lets, Node, Operand, Part, Piece, Plan, Scope, Staged, part_of, staged};
use std::alloc::{AllocError, Global};
use std::collections::VecDeque;

/// Names for values that see none of them, and what sees the names.
pub fn let_forms<'a>(
    state: &mut Expansion,
    task: &Task,
    level: Level,
    at: Place,
    bindings: &'a [Binding<'a>],
    body: &'a [Syntax],
) -> Result<Plan<'a>, Stop>
    ensures { Does_by seen_plan result (let_forms_spec (task_of task.now) level at (map seen_binding bindings.now) body.now) state.old state.new }
{
    let names = names_in(state.alloc, bindings)?;
    let values = values_in(state.alloc, bindings)?;
    lets(state, task, level, at, names, values, at, body)
}

/// Names for values of which each sees the names before it, and what sees all of them.
pub fn let_stars<'a>(
    state: &mut Expansion,
    task: &Task,
    level: Level,
    at: Place,
    bindings: &'a [Binding<'a>],
    body: &'a [Syntax],
) -> Result<Plan<'a>, Stop>
    ensures { Does_by seen_plan result (let_stars_spec (task_of task.now) level at (map seen_binding bindings.now) body.now) state.old state.new }
{
    if bindings.is_empty() {
        return Ok(Plan::Same(staged(state.alloc, level, Part::Alone(at, body))?));
    }
    stars_row(state, task, level, at, bindings, body)
}

/// The other bindings of a `let`: a local for the next value, or the body, in which the names stand for their locals.
pub fn lets_row<'a>(
    state: &mut Expansion,
    task: &Task,
    level: Level,
    at: Place,
    lets: Lets<'a>,
) -> Result<Plan<'a>, Stop>
    ensures { Does_by seen_plan result (lets_row_spec (task_of task.now) level at (seen_lets lets.entry)) state.old state.new }
{
    let mut lets = lets;
    match lets.values.pop_front() {
        None => Ok(Plan::Same(let_body(state.alloc, level, lets)?)),
        Some(value) => next_let(state, task, level, at, value, lets),
    }
}

/// The other bindings of a `let*`: a local for the next value, and what sees its name, or the body.
pub fn stars_row<'a>(
    state: &mut Expansion,
    task: &Task,
    level: Level,
    at: Place,
    bindings: &'a [Binding<'a>],
    body: &'a [Syntax],
) -> Result<Plan<'a>, Stop>
    ensures { Does_by seen_plan result (stars_row_spec (task_of task.now) level at (map seen_binding bindings.now) body.now) state.old state.new }
{
    match bindings {
        [] => Ok(Plan::Same(staged(state.alloc, level, Part::Body(at, body))?)),
        [first, rest @ ..] => {
            state.node(task, level.left, at)?;
            let local = state.next_local()?;
            let value = staged(state.alloc, level.down(), Part::One(first.value))?;
            let mut names = Items::new(state.alloc);
            names.push(first.name)?;
            let mut locals = Items::new(state.alloc);
            locals.push(local)?;
            let rest = Part::Row(Piece::Stars(at, rest, body));
            let rest = seeing(state.alloc, level.passed(), names, locals, rest)?;
            Ok(Plan::Of(at, Node::Let(local, value, rest)))
        }
    }
}

/// Names for values, and the body of the form at another place.
pub(crate) fn lets<'a>(
    state: &mut Expansion,
    task: &Task,
    level: Level,
    at: Place,
    names: Items<&'a Ident>,
    values: VecDeque<Operand<'a>>,
    place: Place,
    body: &'a [Syntax],
) -> Result<Plan<'a>, Stop>
    ensures { Does_by seen_plan result (lets_spec (task_of task.now) level at (idents names.entry) (seen_operands values.entry.items) place body.now) state.old state.new }
{
    let mut values = values;
    match values.pop_front() {
        None => Ok(Plan::Same(staged(state.alloc, level, Part::Alone(place, body))?)),
        Some(value) => {
            let others = Lets {
                names,
                locals: Items::new(state.alloc),
                values,
                place,
                body,
            };
            next_let(state, task, level, at, value, others)
        }
    }
}

// A local for a value, and the bindings behind it.
fn next_let<'a>(
    state: &mut Expansion,
    task: &Task,
    level: Level,
    at: Place,
    value: Operand<'a>,
    others: Lets<'a>,
) -> Result<Plan<'a>, Stop>
    ensures { Does_by seen_plan result (next_let_spec (task_of task.now) level at (seen_operand value.entry) (seen_lets others.entry)) state.old state.new }
{
    let mut others = others;
    state.node(task, level.left, at)?;
    let local = state.next_local()?;
    others.locals.push(local)?;
    let value = staged(state.alloc, level.down(), part_of(value))?;
    let rest = staged(
        state.alloc,
        level.passed(),
        Part::Row(Piece::Lets(at, others)),
    )?;
    Ok(Plan::Of(at, Node::Let(local, value, rest)))
}

// What sees the names of a `let`.
fn let_body<'a>(alloc: Global, level: Level, lets: Lets<'a>) -> Result<Staged<'a>, AllocError>
    ensures { IfOk result (λ s. seen_staged s ≡ let_body_spec level (seen_lets lets.entry)) }
{
    seeing(
        alloc,
        level,
        lets.names,
        lets.locals,
        Part::Body(lets.place, lets.body),
    )
}

// A part in which names stand for locals.
fn seeing<'a>(
    alloc: Global,
    level: Level,
    names: Items<&'a Ident>,
    locals: Numbers,
    part: Part<'a>,
) -> Result<Staged<'a>, AllocError>
    ensures { IfOk result (λ s. seen_staged s ≡ record { level = level; scope = Locals (idents names.entry) locals; part = seen_part part.entry }) }
{
    Ok(Staged {
        level,
        scope: Scope::Locals(names, locals),
        part: Boxed::new(alloc, part)?,
    })
}

fn names_in<'a>(alloc: Global, bindings: &[Binding<'a>]) -> Result<Items<&'a Ident>, AllocError>
    ensures { IfOk result (λ xs. idents xs ≡ names_in_spec (map seen_binding bindings.now)) }
{
    let mut names = Items::new(alloc);
    for binding in bindings {
        names.push(binding.name)?;
    }
    Ok(names)
}

fn values_in<'a>(
    alloc: Global,
    bindings: &[Binding<'a>],
) -> Result<VecDeque<Operand<'a>>, AllocError>
    ensures { IfOk result (λ ps. seen_operands ps.items ≡ givens (values_in_spec (map seen_binding bindings.now))) }
{
    let mut values = Vec::new(alloc);
    for binding in bindings {
        values.push(Operand::Given(binding.value))?;
    }
    Ok(VecDeque::from_vec(values))
}
