//! Lambdas (R5RS 4.1.4), and what the values of a letrec are as lambdas (R5RS 4.2.2).

ghost use Rattle.ps_binders.specs.Binders.{inside as inside_spec, lambda_inside as lambda_inside_spec, lambdas as lambdas_spec, procedure_inside as procedure_inside_spec, value_inside as value_inside_spec, written as written_spec};
ghost use Rattle.ps_bodies.specs.InsideBodies.{seen_member, seen_value};
ghost use Rattle.ps_derived.specs.Distinct.{are_distinct as distinct_spec};
ghost use Rattle.ps_derived.specs.Seen.{idents};
ghost use Rattle.ps_expansion.specs.Does.{Does_by, task_of};
ghost use Rattle.ps_plans.specs.Seen.{seen_inside, seen_plan};
ghost use Rattle.std.specs.Option.{option_map};

use crate::scoped::body_inside;
use ps_base::{Core, FormKind, Items, Place};
use ps_bodies::{Member, Value};
use ps_derived::{Parts, are_distinct};
use ps_expansion::{Expansion, Level, Stop, Task, refused};
use ps_pattern::{Ident, Syntax};
use ps_plans::{Inside, Node, Part, Plan};

/// A lambda: its parameters and its body.
///
/// # Errors
///
/// The fault of its node where none may be made, and `NoMemory` where memory or the numbers of lambdas or of locals ran out.
pub fn lambdas<'a>(
    state: &mut Expansion,
    task: &Task,
    level: Level,
    at: Place,
    parameters: Items<&'a Ident>,
    body: &'a [Syntax],
) -> Result<Plan<'a>, Stop>
    ensures { Does_by seen_plan result (lambdas_spec (task_of task.now) level at (idents parameters.entry) body.now) state.old state.new }
{
    state.node(task, level.left, at)?;
    let number = state.next_lambda(at)?;
    let inside = lambda_inside(state, level.inner(), number, at, parameters, body)?;
    Ok(Plan::Of(at, Node::Lambda(inside)))
}

/// What the lambda of a value of a letrec is. That of a primitive is finished at once.
///
/// # Errors
///
/// `BadForm` at a lambda of a wrong shape and at a procedure that has a parameter twice, the fault of the nodes of a primitive's lambda, and
/// `NoMemory` where memory or the numbers of locals ran out.
#[tactic(auto, unfolding(crate::specs::Binders::inside))]
pub fn inside<'a>(
    state: &mut Expansion,
    task: &Task,
    level: Level,
    member: &'a Member<'a>,
) -> Result<Option<Inside<'a>>, Stop>
    ensures { Does_by (option_map seen_inside) result (inside_spec (task_of task.now) level state.old.hygiene.here (seen_member member.now)) state.old state.new }
{
    value_inside(state, task, level, member.lambda, &member.value)
}

// What the lambda of a number is, whose value this is.
fn value_inside<'a>(
    state: &mut Expansion,
    task: &Task,
    level: Level,
    number: u32,
    value: &'a Value<'a>,
) -> Result<Option<Inside<'a>>, Stop>
    ensures { Does_by (option_map seen_inside) result (value_inside_spec (task_of task.now) level state.old.hygiene.here number (seen_value value.now)) state.old state.new }
{
    match value {
        Value::Written(form) => {
            let inside = written(state, task, level, number, form.form())?;
            Ok(Some(inside))
        }
        Value::Performs(at, primitive) => {
            state.primitive_inside(task, level, number, *at, *primitive)?;
            Ok(None)
        }
        Value::Procedure(at, parameters, body) => {
            let inside = procedure_inside(state, level, number, *at, parameters.as_slice(), body)?;
            Ok(Some(inside))
        }
    }
}

// A lambda as it is written.
fn written<'a>(
    state: &mut Expansion,
    task: &Task,
    level: Level,
    number: u32,
    form: &'a Syntax,
) -> Result<Inside<'a>, Stop>
    ensures { Does_by seen_inside result (written_spec (task_of task.now) level state.old.hygiene.here number form.now) state.old state.new }
{
    match state.parts(task, Core::Lambda, form)? {
        Parts::Lambda(parameters, body) => lambda_inside(
            state, level, number, form.place, parameters, body,
        ),
        _ => Err(refused(FormKind::BadForm, form.place)),
    }
}

// A procedure by its definition, whose parameters have to differ.
fn procedure_inside<'a>(
    state: &mut Expansion,
    level: Level,
    number: u32,
    at: Place,
    parameters: &[&'a Ident],
    body: &'a [Syntax],
) -> Result<Inside<'a>, Stop>
    ensures { Does_by seen_inside result (procedure_inside_spec level number at (idents parameters.now) body.now (distinct_spec (idents parameters.now))) state.old state.new }
{
    let differ = are_distinct(state.alloc, parameters)?;
    if differ {
        let names = Items::from_slice(state.alloc, parameters)?;
        lambda_inside(state, level, number, at, names, body)
    } else {
        Err(refused(FormKind::BadForm, at))
    }
}

// The parameters of the lambda of a number, and its body.
fn lambda_inside<'a>(
    state: &mut Expansion,
    level: Level,
    number: u32,
    at: Place,
    parameters: Items<&'a Ident>,
    body: &'a [Syntax],
) -> Result<Inside<'a>, Stop>
    ensures { Does_by seen_inside result (lambda_inside_spec level number at (idents parameters.entry) body.now) state.old state.new }
{
    let locals = state.next_locals(parameters.len())?;
    let inside = body_inside(
        state.alloc,
        level,
        number,
        at,
        parameters,
        locals,
        Part::Body(at, body),
    )?;
    Ok(inside)
}
