//! Assignments (R5RS 4.1.6).

ghost use Rattle.ps_binders.specs.Binders.{sets as sets_spec, sets_global as sets_global_spec, sets_local as sets_local_spec, sets_meant as sets_meant_spec};
ghost use Rattle.ps_expansion.specs.Does.{Does_by, task_of};
ghost use Rattle.ps_plans.specs.Seen.{seen_plan};

use ps_base::{FormKind, Place};
use ps_expansion::{Expansion, Level, Stop, Task, refused};
use ps_hygiene::Meant;
use ps_pattern::{Binding, Ident, Syntax};
use ps_plans::{Node, Part, Plan, staged};

/// An assignment of a local, or of a global that the structure itself defines.
///
/// # Errors
///
/// `Unbound` at the variable where it means nothing, `BadForm` where it may not be set, the fault of its node where none may be made, and
/// `NoMemory` where memory ran out.
#[tactic(auto, unfolding(crate::specs::Binders::sets))]
pub fn sets<'a>(
    state: &mut Expansion,
    task: &Task,
    level: Level,
    at: Place,
    name_at: Place,
    name: &'a Ident,
    value: &'a Syntax,
) -> Result<Plan<'a>, Stop>
    ensures { Does_by seen_plan result (sets_spec (task_of task.now) level at name_at state.old.hygiene.here name.now value.now) state.old state.new }
{
    let meant = state.hygiene.meaning(name);
    sets_meant(state, task, level, at, name_at, value, meant)
}

// An assignment of what the variable means.
fn sets_meant<'a>(
    state: &mut Expansion,
    task: &Task,
    level: Level,
    at: Place,
    name_at: Place,
    value: &'a Syntax,
    meant: Meant,
) -> Result<Plan<'a>, Stop>
    ensures { Does_by seen_plan result (sets_meant_spec (task_of task.now) level at name_at value.now meant) state.old state.new }
{
    match meant.binding {
        Binding::Local(number) => sets_local(state, task, level, at, number, value),
        Binding::Global(number) => {
            if meant.own {
                sets_global(state, task, level, at, number, value)
            } else {
                Err(refused(FormKind::BadForm, at))
            }
        }
        Binding::Unbound(_) => Err(refused(FormKind::Unbound, name_at)),
        Binding::Macro(_) => Err(refused(FormKind::BadForm, at)),
        Binding::Core(_) => Err(refused(FormKind::BadForm, at)),
        Binding::Primitive(_) => Err(refused(FormKind::BadForm, at)),
    }
}

// An assignment of a local.
fn sets_local<'a>(
    state: &mut Expansion,
    task: &Task,
    level: Level,
    at: Place,
    local: u32,
    value: &'a Syntax,
) -> Result<Plan<'a>, Stop>
    ensures { Does_by seen_plan result (sets_local_spec (task_of task.now) level at local value.now) state.old state.new }
{
    state.node(task, level.left, at)?;
    let value = staged(state.alloc, level.down(), Part::One(value))?;
    Ok(Plan::Of(at, Node::SetLocal(local, value)))
}

// An assignment of a global.
fn sets_global<'a>(
    state: &mut Expansion,
    task: &Task,
    level: Level,
    at: Place,
    global: u32,
    value: &'a Syntax,
) -> Result<Plan<'a>, Stop>
    ensures { Does_by seen_plan result (sets_global_spec (task_of task.now) level at global value.now) state.old state.new }
{
    state.node(task, level.left, at)?;
    let value = staged(state.alloc, level.down(), Part::One(value))?;
    Ok(Plan::Of(at, Node::SetGlobal(global, value)))
}
