//! Letrecs (R5RS 4.2.2): their locals are numbered, then their lambdas, and then these are entered.

ghost use Rattle.ps_binders.specs.Binders.{entries as entries_spec, letrecs as letrecs_spec, values_row as values_row_spec};
ghost use Rattle.ps_bodies.specs.InsideBodies.{seen_members};
ghost use Rattle.ps_derived.specs.Seen.{seen_binding};
ghost use Rattle.ps_expansion.specs.Does.{Does_by, task_of};
ghost use Rattle.ps_plans.specs.Seen.{seen_plan};
ghost use Rattle.std.specs.Prelude.{IfOk, map, ◌≡◌};

use crate::operands::values_of;
use crate::scoped::where_named;
use ps_base::{Items, Numbers, Place};
use ps_bodies::{Member, decided_forms};
use ps_derived::{Binding, variables_of};
use ps_expansion::{Expansion, Level, Stop, Task};
use ps_kernel::{Group, GroupEntry};
use ps_pattern::Syntax;
use ps_plans::{Node, Part, Piece, Plan, staged};
use std::alloc::{AllocError, Global};
use std::collections::VecDeque;

/// A letrec: its node, and the locals of its names.
///
/// # Errors
///
/// The fault of its node where none may be made, and `NoMemory` where memory or the numbers of locals ran out.
pub fn letrecs<'a>(
    state: &mut Expansion,
    task: &Task,
    level: Level,
    at: Place,
    bindings: &'a [Binding<'a>],
    body: &'a [Syntax],
) -> Result<Plan<'a>, Stop>
    ensures { Does_by seen_plan result (letrecs_spec (task_of task.now) level at (map seen_binding bindings.now) body.now) state.old state.new }
{
    state.node(task, level.left, at)?;
    let locals = state.next_locals(bindings.len())?;
    let names = variables_of(state.alloc, bindings)?;
    let bound = Items::from_slice(state.alloc, locals.as_slice())?;
    let part = Part::Row(Piece::Values(at, bindings, locals, body));
    let rest = where_named(state.alloc, level, names, bound, part)?;
    Ok(Plan::Same(rest))
}

/// The values of a letrec, where its names are bound to these locals.
///
/// # Errors
///
/// The first fault of the values in their order, and `NoMemory` where memory or the numbers of lambdas ran out.
pub fn values_row<'a>(
    state: &mut Expansion,
    task: &Task,
    level: Level,
    at: Place,
    bindings: &'a [Binding<'a>],
    locals: Numbers,
    body: &'a [Syntax],
) -> Result<Plan<'a>, Stop>
    ensures { Does_by seen_plan result (values_row_spec (task_of task.now) level at state.old.hygiene.here (map seen_binding bindings.now) locals body.now) state.old state.new }
{
    let values = values_of(state.alloc, bindings)?;
    let members = decided_forms(state, task, values.as_slice())?;
    let group = entries(state.alloc, locals.as_slice(), members.as_slice())?;
    let rest = staged(state.alloc, level.passed(), Part::Body(at, body))?;
    let members = VecDeque::from_vec(members);
    Ok(Plan::Of(at, Node::Group(group, level.inner(), members, rest)))
}

/// The locals of a letrec, each with its lambda.
pub(crate) fn entries(
    alloc: Global,
    locals: &[u32],
    members: &[Member],
) -> Result<Group, AllocError>
    ensures { IfOk result (λ g. g ≡ entries_spec locals.now (seen_members members.now)) }
{
    let mut group = Items::new(alloc);
    for (i, member) in members.iter().enumerate() {
        if i < locals.len() {
            group.push(GroupEntry {
                local: locals[i],
                lambda: member.lambda,
            })?;
        }
    }
    Ok(group)
}
