//! Variables and macros are defined.

ghost use Rattle.std.specs.Prelude.{◌≡◌, slice_get};
ghost use Rattle.std.specs.Option.{option_copied};
ghost use Rattle.ps_definitions.specs.Definitions.{defines_if, defines_once, new_macro, new_variable, structure_name as structure_name_spec};
ghost use Rattle.ps_derived.specs.Seen.{seen_defined, seen_macro};
ghost use Rattle.ps_expansion.specs.Apart.{name_of as name_spec};
ghost use Rattle.ps_expansion.specs.Does.{Does, task_of};

use ps_base::{FormKind, Name, Place};
use ps_derived::{Defined, Macro};
use ps_expansion::{Expansion, Stop, Task, refused};
use ps_kernel::Definition;
use ps_pattern::{Binding, Ident};

/// An identifier is defined in the present structure, and not a second time.
pub(crate) fn define_once(
    state: &mut Expansion,
    at: Place,
    name: &Ident,
    binding: Binding,
) -> Result<(), Stop>
    ensures { Does result (defines_once at name.now binding) state.old state.new }
{
    if state.hygiene.is_defined(name) {
        return Err(refused(FormKind::NameTwice, at));
    }
    state.hygiene.define(name, binding)?;
    Ok(())
}

/// The same of an identifier that a form may leave out.
pub(crate) fn define_if(
    state: &mut Expansion,
    at: Place,
    name: Option<&Ident>,
    binding: Binding,
) -> Result<(), Stop>
    ensures { Does result (defines_if at (option_copied name.entry) binding) state.old state.new }
{
    match name {
        Some(name) => define_once(state, at, name, binding),
        None => Ok(()),
    }
}

/// A variable is defined: its number. Variables are numbered from 0, those of all structures in a row.
pub(crate) fn define_variable(
    state: &mut Expansion,
    task: &Task,
    at: Place,
    name: &Ident,
) -> Result<u32, Stop>
    ensures { Does result (new_variable (task_of task.now) at name.now) state.old state.new }
{
    let number = state.definitions.len();
    if number >= u32::MAX as usize {
        return Err(Stop::NoMemory);
    }
    define_once(state, at, name, Binding::Global(number as u32))?;
    let structure = structure_name(state, task, name.name);
    state.definitions.push(Definition {
        structure,
        name: name.name,
        place: at,
    })?;
    Ok(number as u32)
}

// The name of the present structure.
fn structure_name(state: &Expansion, task: &Task, own: Name) -> Name
    ensures { result ≡ structure_name_spec own (slice_get task.now.linked.now.structures state.now.hygiene.world.structure) }
{
    let order = task.linked.structures.as_slice();
    match order.get(state.hygiene.structure() as usize) {
        Some(structure) => structure.name,
        None => own,
    }
}

/// A macro is defined, by its name and then by its rules: its number.
pub(crate) fn define_macro(
    state: &mut Expansion,
    task: &Task,
    at: Place,
    x: Macro<'_>,
) -> Result<u32, Stop>
    ensures { Does result (new_macro (task_of task.now) state.old.hygiene.here at (seen_macro x.entry)) state.old state.new }
{
    let number = state.next_macro()?;
    define_once(state, at, x.keyword, Binding::Macro(number))?;
    state.add_macro(task, x.rules)
}

/// The name that a definition defines.
pub(crate) fn name_of<'a>(defined: Defined<'a>) -> &'a Ident
    ensures { result.now ≡ name_spec (seen_defined defined.entry) }
{
    match defined {
        Defined::Variable(name, _) => name,
        Defined::Procedure(name, _, _) => name,
    }
}
