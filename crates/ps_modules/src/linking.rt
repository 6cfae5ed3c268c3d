//! Linking: from the forms of a text to its structures.

ghost use Rattle.std.specs.Prelude.{◌≡◌, ℕ, ◌+◌, ◌<◌, ◌≤◌, ◌^◌, ◌-◌, length, map, IfOk};
ghost use Rattle.std.specs.List.{list_any};
ghost use Rattle.ps_modules.specs.InsideWalking.{IsUser};
ghost use Rattle.ps_modules.specs.Linking.{Links, answer};
ghost use Rattle.ps_modules.specs.Texts.{is_body, is_form};
ghost use Rattle.ps_modules.specs.Playing.{Plays};
ghost use Rattle.ps_modules.specs.Walking.{linked, walk_of, user};

use crate::copies::copied_data;
use crate::forms::is_form;
use crate::text::{entry_of, text_of_forms};
use crate::types::{Export, Linked, Opened, Structure};
use crate::walking::walk;
use ps_base::{Items, Limits, Name, Names, NoMemory, Place, Refusal};
use ps_datum::Datum;
use ps_library::Library;
use std::alloc::Global;

/// The structures of a text, in the order in which they are evaluated.
///
/// Where no form begins with `define-structure` or `define-interface`, and there is a form, all forms are the body of a structure
/// `user` that opens `prescheme` and exports `main`. Otherwise each form defines a structure or an interface, and the last structure
/// is the entry: those that it reaches by `open` are linked, each behind what it opens.
///
/// `taken` is how many bytes the text had: it is within the limit of bytes of all texts, as are those of all files with it. The table
/// of names must have room for as many names as bytes are left, and for two more. Names may be added to it, also where there is a fault.
///
/// # Errors
///
/// The first fault, in this order. Over the forms from left to right, `BadClause` and `DefinedTwice`; `NoMain`; and then over the
/// structures from the entry, at each `UnknownInterface`; for each opened name `UnknownStructure`, `Circle`, and the faults of the
/// structure that it opens; `TwoOpened`; and for each file `MissingFile`, `Library`, `TooLong` with its number, and `Syntax`.
///
/// `NoMemory` where memory ran out.
pub fn link(
    alloc: Global,
    forms: &Items<Datum>,
    taken: u64,
    names: &mut Names,
    libs: &mut Vec<Box<dyn Library>>,
    limits: &Limits,
) -> Result<Linked, Refusal>
    requires taken { taken ≤ limits.now.all_bytes }
    requires room { length names.old + (limits.now.all_bytes - taken) < 2 ^ 32 - 2 }
    ensures { Links (linked names.old limits.now forms.now taken) (map (λ b. shows b) libs.old.items) (map (λ b. shows b) libs.new.items) (answer result names.new) }
{
    let ds = forms.as_slice();
    if is_body(names, ds) {
        return match user_of(alloc, ds, names) {
            Ok(program) => Ok(program),
            Err(_) => Err(Refusal::NoMemory),
        };
    }
    link_structures(alloc, ds, taken, names, libs, limits)
}

// The structures of a text of structures.
fn link_structures(
    alloc: Global,
    ds: &[Datum],
    taken: u64,
    names: &mut Names,
    libs: &mut Vec<Box<dyn Library>>,
    limits: &Limits,
) -> Result<Linked, Refusal>
    requires taken { taken ≤ limits.now.all_bytes }
    requires room { length names.old + (limits.now.all_bytes - taken) < 2 ^ 32 - 1 }
    ensures { Plays (walk_of names.old limits.now ds.now taken) (map (λ b. shows b) libs.old.items) (map (λ b. shows b) libs.new.items) (answer result names.new) }
{
    let text = match text_of_forms(alloc, names, ds) {
        Ok(text) => text,
        Err(refusal) => return Err(refusal),
    };
    let entry = match entry_of(alloc, names, &text) {
        Ok(entry) => entry,
        Err(refusal) => return Err(refusal),
    };
    match walk(alloc, &text, entry, taken, names, libs, limits) {
        Ok(structures) => Ok(Linked { structures }),
        Err(refusal) => Err(refusal),
    }
}

// The one structure of a text without structures.
fn user_of(alloc: Global, ds: &[Datum], names: &mut Names) -> Result<Linked, NoMemory>
    requires { length names.old < 2 ^ 32 - 2 }
    ensures { IfOk result (λ program. IsUser names.old ds.now program.structures names.new) }
{
    let name = names.add(b"user")?;
    let main = names.add(b"main")?;
    let structure = user(alloc, name, main, ds)?;
    let mut structures = Items::new(alloc);
    structures.push(structure)?;
    Ok(Linked { structures })
}

// The structure `user`, where it and `main` have these names.
fn user(alloc: Global, name: Name, main: Name, ds: &[Datum]) -> Result<Structure, NoMemory>
    ensures { IfOk result (λ structure. structure ≡ user name main ds.now) }
{
    let mut opens = Items::new(alloc);
    opens.push(Opened::Prescheme)?;
    let mut exports = Items::new(alloc);
    exports.push(Export {
        name: main,
        syntax: false,
        place: Place {
            file: 0,
            line: 1,
            column: 1,
        },
    })?;
    let body = copied_data(alloc, ds)?;
    Ok(Structure {
        name,
        opens,
        exports,
        body,
    })
}

// Whether the forms are the body of one structure.
fn is_body(names: &Names, ds: &[Datum]) -> bool
    ensures { result ≡ is_body names.now ds.now }
{
    match ds {
        [] => false,
        _ => !has_form(names, ds),
    }
}

// Whether one of these begins with `define-structure` or `define-interface`.
fn has_form(names: &Names, ds: &[Datum]) -> bool
    ensures { result ≡ list_any (is_form names.now) ds.now }
{
    for d in ds {
        if is_form(names, d) {
            return true;
        }
    }
    false
}
