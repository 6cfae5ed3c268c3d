//! A text of structures: what its forms define, by their names.

ghost use Rattle.std.specs.Prelude.{◌≡◌, ◌<◌, ◌≤◌, ◌+◌, ◌^◌, ◌||◌, is_some, ℕ, suc, [], length, Some, Err, OnOk, MatchResult, option_copied};
ghost use Rattle.std.specs.List.{list_any};
ghost use Rattle.ps_modules.specs.declared.shapes.Broken.TheVariants as brokens;
ghost use Rattle.ps_modules.specs.declared.shapes.Form.TheVariants as forms;
ghost use Rattle.ps_modules.specs.declared.shapes.Interface.TheVariants as interfaces;
ghost use Rattle.ps_modules.specs.BuiltIn.{built_in};
ghost use Rattle.ps_modules.specs.InsideShapes.{Says};
ghost use Rattle.ps_modules.specs.InsideTexts.{Indexed, defined, Defines, AddsForm, EntryIs, refusal_by};
ghost use Rattle.ps_modules.specs.Playing.{module_fault};
ghost use Rattle.ps_modules.specs.Shapes.{form, text_of};
ghost use Rattle.ps_modules.specs.Texts.{formed, with_form, resolved, interface_of, last_of, is_main, structure_at};

use crate::built_in::built_in;
use crate::forms::{form_of, text_of};
use crate::shapes::{Broken, Definition, Form, Interface, OpenedName, Shape};
use crate::tables::Numbers;
use crate::types::{Export, Exports};
use ps_base::{Fault, Items, ModuleKind, Name, Names, Place, Refusal};
use ps_datum::Datum;
use std::alloc::Global;

/// The structures and interfaces of a text, and their names in the same order.
#[derive(Drop)]
pub(crate) struct Text {
    pub(crate) shapes: Items<Shape>,
    pub(crate) definitions: Items<Definition>,
    pub(crate) structures: Numbers,
    pub(crate) interfaces: Numbers,
}

/// A fault of structures and interfaces.
pub(crate) fn module(kind: ModuleKind, place: Place) -> Refusal
    ensures { result ≡ module_fault (record { kind = kind; place = place }) }
{
    Refusal::Fault(Fault::Module(kind, place))
}

/// What something broken refuses.
pub(crate) fn refusal_by(kind: ModuleKind, broken: Broken) -> Refusal
    ensures { result ≡ refusal_by kind broken }
{
    match broken {
        Broken::At(place) => module(kind, place),
        Broken::NoMemory => Refusal::NoMemory,
    }
}

/// The structures and interfaces that these forms define.
///
/// # Errors
///
/// From left to right: `BadClause` at the first datum that breaks the shape of a form, and `DefinedTwice` at the name of a second
/// structure or a second interface of one name, or of a structure with the name of a built-in one.
pub(crate) fn text_of_forms(alloc: Global, names: &Names, forms: &[Datum]) -> Result<Text, Refusal>
    ensures { Defines names.now forms.now result }
{
    let mut text = Text {
        shapes: Items::new(alloc),
        definitions: Items::new(alloc),
        structures: Numbers::new(alloc),
        interfaces: Numbers::new(alloc),
    };
    for d in forms {
        add_form(alloc, names, d, &mut text)?;
    }
    Ok(text)
}

fn add_form(alloc: Global, names: &Names, d: &Datum, text: &mut Text) -> Result<(), Refusal>
    requires indexed { Indexed text.old }
    ensures { AddsForm (formed names.now (defined text.old) (form names.now d.now)) text.new result }
{
    match form_of(alloc, names, d) {
        Ok(Form::Structure(shape)) => add_structure(names, shape, text),
        Ok(Form::Interface(definition)) => add_interface(names, definition, text),
        Err(broken) => Err(refusal_by(ModuleKind::BadClause, broken)),
    }
}

fn add_structure(names: &Names, shape: Shape, text: &mut Text) -> Result<(), Refusal>
    requires indexed { Indexed text.old }
    ensures { AddsForm (with_form names.now (defined text.old) (forms.Structure shape)) text.new result }
{
    let OpenedName { name, place } = shape.name;
    if is_taken(names, text, name) {
        return Err(module(ModuleKind::DefinedTwice, place));
    }
    if text.structures.push(name.0).is_err() || text.shapes.push(shape).is_err() {
        return Err(Refusal::NoMemory);
    }
    Ok(())
}

// Whether a name is that of a structure.
fn is_taken(names: &Names, text: &Text, name: Name) -> bool
    requires indexed { Indexed text.now }
    ensures { result ≡ (is_some (built_in (text_of names.now name)) || is_some (structure_at text.now.shapes name)) }
{
    built_in(text_of(names, name)).is_some() || text.structures.place(name.0).is_some()
}

fn add_interface(names: &Names, definition: Definition, text: &mut Text) -> Result<(), Refusal>
    requires indexed { Indexed text.old }
    ensures { AddsForm (with_form names.now (defined text.old) (forms.Interface definition)) text.new result }
{
    let OpenedName { name, place } = definition.name;
    if text.interfaces.place(name.0).is_some() {
        return Err(module(ModuleKind::DefinedTwice, place));
    }
    if text.interfaces.push(name.0).is_err() || text.definitions.push(definition).is_err() {
        return Err(Refusal::NoMemory);
    }
    Ok(())
}

/// What the interface of the last structure lists, which is the entry.
///
/// # Errors
///
/// `NoMain` where there is none, or where its interface does not list `main` as a value. `UnknownInterface` where its interface
/// leads to no list.
pub(crate) fn entry_of(alloc: Global, names: &Names, text: &Text) -> Result<Exports, Refusal>
    requires indexed { Indexed text.now }
    ensures { EntryIs names.now (defined text.now) (last_of text.now.shapes) result }
{
    match text.shapes.as_slice().last() {
        Some(entry) => entry_exports(alloc, names, text, entry),
        None => Err(module(
            ModuleKind::NoMain,
            Place {
                file: 0,
                line: 1,
                column: 1,
            },
        )),
    }
}

fn entry_exports(
    alloc: Global,
    names: &Names,
    text: &Text,
    entry: &Shape,
) -> Result<Exports, Refusal>
    requires indexed { Indexed text.now }
    ensures { EntryIs names.now (defined text.now) (Some entry.now) result }
{
    match exports_of(alloc, text, &entry.interface) {
        Ok(exports) => {
            if lists_main(names, exports.as_slice()) {
                Ok(exports)
            } else {
                Err(module(ModuleKind::NoMain, entry.form))
            }
        }
        Err(broken) => Err(refusal_by(ModuleKind::UnknownInterface, broken)),
    }
}

// Whether `main` is listed as a value.
fn lists_main(names: &Names, exports: &[Export]) -> bool
    ensures { result ≡ list_any (is_main names.now) exports.now }
{
    for export in exports {
        if is_main(names, *export) {
            return true;
        }
    }
    false
}

fn is_main(names: &Names, export: Export) -> bool
    ensures { result ≡ is_main names.now export }
{
    !export.syntax && text_of(names, export.name) == b"main".as_slice()
}

/// The names that an interface lists, or those of the list to which its name leads.
///
/// # Errors
///
/// The place of the first name that is not defined, or that closes a circle of names.
pub(crate) fn exports_of(
    alloc: Global,
    text: &Text,
    interface: &Interface,
) -> Result<Exports, Broken>
    requires indexed { Indexed text.now }
    ensures { Says (resolved text.now.definitions (length text.now.definitions) [] interface.now) result }
{
    let mut seen = Numbers::new(alloc);
    let mut at = interface;
    for _step in 0..text.definitions.len() {
        match at {
            Interface::Listed(exports) => return listed(alloc, exports),
            Interface::Named(name, place) => at = followed(text, &mut seen, *name, *place)?,
        }
    }
    match at {
        Interface::Listed(exports) => listed(alloc, exports),
        Interface::Named(_, place) => Err(Broken::At(*place)),
    }
}

fn listed(alloc: Global, exports: &Exports) -> Result<Exports, Broken>
    ensures { MatchResult result (λ copy. copy ≡ exports.now) (λ e. e ≡ brokens.NoMemory) }
{
    Ok(Items::from_slice(alloc, exports.as_slice())?)
}

// The interface of a name that was not seen.
fn followed<'a>(
    text: &'a Text,
    seen: &mut Numbers,
    name: Name,
    place: Place,
) -> Result<&'a Interface, Broken>
    requires indexed { Indexed text.now }
    ensures { MatchResult result
        (λ i. (n : ℕ) → resolved text.now.definitions (suc n) seen.old (interfaces.Named name place) ≡ resolved text.now.definitions n seen.new i.now)
        (λ e. (n : ℕ) → Says (resolved text.now.definitions (suc n) seen.old (interfaces.Named name place)) (Err e)) }
{
    if seen.place(name.0).is_some() {
        return Err(Broken::At(place));
    }
    seen.push(name.0)?;
    match interface_of(text, name) {
        Some(interface) => Ok(interface),
        None => Err(Broken::At(place)),
    }
}

// The interface of a name.
fn interface_of(text: &Text, name: Name) -> Option<&Interface>
    requires indexed { Indexed text.now }
    ensures { option_copied result ≡ interface_of text.now.definitions name }
{
    let definition = text.definitions.get(text.interfaces.place(name.0)?)?;
    Some(&definition.interface)
}
