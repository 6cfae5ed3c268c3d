//! The nodes of the tests of a `case`.

ghost use Rattle.ps_bodies.specs.Branches.{join_counted as join_counted_spec, joined_counted as joined_counted_spec, same_counted as same_counted_spec, tests_counted as tests_counted_spec};
ghost use Rattle.ps_expansion.specs.Does.{Does};

use ps_base::Place;
use ps_derived::Label;
use ps_expansion::{Expansion, Stop, Task};

/// The nodes of the test whether the key is one of these.
///
/// # Errors
///
/// `TooDeep` at the first node for which no level is left, and `CoreSpent` where it is one more than are allowed.
pub fn tests_counted(
    state: &mut Expansion,
    task: &Task,
    left: u64,
    at: Place,
    labels: &[Label],
) -> Result<(), Stop>
    ensures { Does result (tests_counted_spec task.now.limits.now left at labels.now) state.old state.new }
{
    match labels {
        [] => state.node(task, left, at),
        [_, rest @ ..] => joined_counted(state, task, left, at, rest),
    }
}

// The nodes of a comparison and of those behind it.
fn joined_counted(
    state: &mut Expansion,
    task: &Task,
    left: u64,
    at: Place,
    rest: &[Label],
) -> Result<(), Stop>
    ensures { Does result (joined_counted_spec task.now.limits.now left at rest.now) state.old state.new }
{
    let mut left = left;
    for _label in rest {
        join_counted(state, task, left, at)?;
        left = left.saturating_sub(1);
    }
    same_counted(state, task, left, at)
}

// The nodes of a comparison that is joined with those behind it.
fn join_counted(state: &mut Expansion, task: &Task, left: u64, at: Place) -> Result<(), Stop>
    ensures { Does result (join_counted_spec task.now.limits.now left at) state.old state.new }
{
    state.node(task, left, at)?;
    same_counted(state, task, left.saturating_sub(1), at)?;
    state.node(task, left.saturating_sub(1), at)
}

// The nodes of a comparison of the key with a label.
fn same_counted(state: &mut Expansion, task: &Task, left: u64, at: Place) -> Result<(), Stop>
    ensures { Does result (same_counted_spec task.now.limits.now left at) state.old state.new }
{
    state.node(task, left, at)?;
    state.node(task, left.saturating_sub(1), at)?;
    state.node(task, left.saturating_sub(1), at)
}
