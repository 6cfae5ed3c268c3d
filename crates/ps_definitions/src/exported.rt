//! Exports are looked for.

ghost use Rattle.std.specs.Prelude.{◌≡◌, ◌≢◌, IfErr};
ghost use Rattle.ps_definitions.specs.Definitions.{exports as exports_spec, is_exported as is_exported_spec, is_macro as is_macro_spec, is_main as is_main_spec, is_numbered as is_numbered_spec, is_value as is_value_spec};
ghost use Rattle.ps_base.specs.Names.{number_of};
ghost use Rattle.ps_expansion.specs.Does.{Gives, state_of, task_of};
ghost use Rattle.ps_expansion.specs.declared.stop.Stop.TheVariants.{NoMemory as WantOfMemory};

use ps_base::{FormKind, Names};
use ps_expansion::{Expansion, Stop, Task, refused};
use ps_modules::Export;
use ps_pattern::Binding;

/// The names that the present structure exports are defined: each by a variable or a primitive, and one that is to be a macro by a macro. `main`
/// of the entry is defined by a variable. No memory is taken.
///
/// # Errors
///
/// `ExportUndefined` where the first that is not so is listed.
pub fn exports(state: &Expansion, task: &Task, listed: &[Export]) -> Result<(), Stop>
    ensures answer { Gives result (exports_spec (task_of task.now) listed.now (state_of state.now)) state.now.hygiene.here state.now }
    ensures certain { IfErr result (λ e. e ≢ WantOfMemory) }
{
    for export in listed {
        if !is_exported(state, task, export) {
            return Err(refused(FormKind::ExportUndefined, export.place));
        }
    }
    Ok(())
}

// Whether a name is defined as what it is exported as.
fn is_exported(state: &Expansion, task: &Task, export: &Export) -> bool
    ensures { result ≡ is_exported_spec state.now.hygiene.world (is_main_spec (task_of task.now) state.now.hygiene.world export.now) export.now }
{
    let structure = state.hygiene.structure();
    let found = state.hygiene.find_own(structure, export.name, &[]);
    if export.syntax {
        is_macro(found)
    } else {
        is_value(is_main(state, task, export), found)
    }
}

// Whether it is defined as a macro.
fn is_macro(found: Option<Binding>) -> bool
    ensures { result ≡ is_macro_spec found }
{
    match found {
        Some(Binding::Macro(_)) => true,
        Some(Binding::Local(_)) => false,
        Some(Binding::Global(_)) => false,
        Some(Binding::Core(_)) => false,
        Some(Binding::Primitive(_)) => false,
        Some(Binding::Unbound(_)) => false,
        None => false,
    }
}

// Whether it is defined as a value. `main` of the entry may be no primitive.
fn is_value(main: bool, found: Option<Binding>) -> bool
    ensures { result ≡ is_value_spec main found }
{
    match found {
        Some(Binding::Global(_)) => true,
        Some(Binding::Primitive(_)) => !main,
        Some(Binding::Local(_)) => false,
        Some(Binding::Macro(_)) => false,
        Some(Binding::Core(_)) => false,
        Some(Binding::Unbound(_)) => false,
        None => false,
    }
}

// Whether it is `main` of the entry, which stands last.
fn is_main(state: &Expansion, task: &Task, export: &Export) -> bool
    ensures { result ≡ is_main_spec (task_of task.now) state.now.hygiene.world export.now }
{
    let last = state.hygiene.structure() as usize + 1 == task.linked.structures.len();
    last && is_numbered(number(task.names, b"main"), export)
}

// The number of a text, where the table has it.
fn number(names: &Names, text: &[u8]) -> Option<u32>
    ensures { result ≡ number_of names.now text.now }
{
    match names.find(text) {
        None => None,
        Some(name) => Some(name.0),
    }
}

// Whether an exported name has this number.
fn is_numbered(number: Option<u32>, export: &Export) -> bool
    ensures { result ≡ is_numbered_spec number export.now }
{
    match number {
        None => false,
        Some(name) => name == export.name.0,
    }
}
