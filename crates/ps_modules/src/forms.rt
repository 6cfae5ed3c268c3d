//! Forms of structures and interfaces, from data.
//!
//! A shape is broken at its first datum that may not stand there: a list before its parts, where a list that may stand in its
//! place breaks it by itself only if a part is missing from it or it is dotted.

ghost use Rattle.std.specs.Prelude.{◌≡◌, ◌<◌, length, Ok, Err, MatchResult, IfOk, ◌++◌, codes, map};
ghost use Rattle.ps_modules.specs.Shapes.{symbol, parts_of, ended, text_of, is_syntax, open_of, file, form, form_of, structure_form, interface_form, interface, interface_list, exporting, items, item, marked, listed, export, each, clauses, clause, clause_of, behind, file_parts, fronted};
ghost use Rattle.ps_modules.specs.Texts.{is_form, is_defining};
ghost use Rattle.ps_modules.specs.InsideShapes.{Says, Adds};

use crate::copies::copied_data;
use crate::shapes::{
    Broken, Clauses, Definition, FileName, Form, Interface, OpenedName, Part, Shape,
};
use crate::types::{Export, Exports};
use ps_base::{Bytes, Items, Name, Names, NoMemory, Place};
use ps_datum::{Datum, DatumKind};
use std::alloc::{AllocError, Global};

impl From<AllocError> for Broken {
    ghost use Rattle.std.specs.Prelude.{◌≡◌};
    ghost use Rattle.ps_modules.specs.declared.shapes.Broken.TheVariants as broken;

    ghost from_gives = { λ _ r. r ≡ broken.NoMemory };

    fn from(_e: AllocError) -> Broken {
        Broken::NoMemory
    }
}

impl From<NoMemory> for Broken {
    ghost use Rattle.std.specs.Prelude.{◌≡◌};
    ghost use Rattle.ps_modules.specs.declared.shapes.Broken.TheVariants as broken;

    ghost from_gives = { λ _ r. r ≡ broken.NoMemory };

    fn from(_e: NoMemory) -> Broken {
        Broken::NoMemory
    }
}

/// A form of a text that has a structure or an interface.
pub(crate) fn form_of(alloc: Global, names: &Names, d: &Datum) -> Result<Form, Broken>
    ensures { Says (form names.now d.now) result }
{
    let front = fronted(d)?;
    form_by(alloc, names, d.place, front.0, front.1)
}

fn form_by(
    alloc: Global,
    names: &Names,
    form: Place,
    word: OpenedName,
    rest: &[Datum],
) -> Result<Form, Broken>
    ensures { Says (form_of names.now form word rest.now) result }
{
    let text = text_of(names, word.name);
    if text == b"define-structure".as_slice() {
        structure_of(alloc, names, form, rest)
    } else if text == b"define-interface".as_slice() {
        definition_of(alloc, names, form, rest)
    } else {
        Err(Broken::At(word.place))
    }
}

/// Whether a datum is a list that begins with `define-structure` or `define-interface`.
pub(crate) fn is_form(names: &Names, d: &Datum) -> bool
    ensures { result ≡ is_form names.now d.now }
{
    match &d.kind {
        DatumKind::List(ds) => match ds.as_slice() {
            [head, ..] => is_defining(names, head),
            [] => false,
        },
        _ => false,
    }
}

fn is_defining(names: &Names, head: &Datum) -> bool
    ensures { result ≡ is_defining names.now (open_of head.now) }
{
    match &head.kind {
        DatumKind::Symbol(name) => {
            let text = text_of(names, *name);
            text == b"define-structure".as_slice() || text == b"define-interface".as_slice()
        }
        _ => false,
    }
}

fn structure_of(alloc: Global, names: &Names, form: Place, rest: &[Datum]) -> Result<Form, Broken>
    ensures { Says (structure_form names.now form rest.now) result }
{
    match rest {
        [first, second, more @ ..] => {
            let name = symbol(first)?;
            let interface = interface_of(alloc, names, second)?;
            let clauses = clauses_of(alloc, names, more)?;
            Ok(Form::Structure(Shape {
                form,
                name,
                interface,
                clauses,
            }))
        }
        _ => Err(Broken::At(form)),
    }
}

fn definition_of(alloc: Global, names: &Names, form: Place, rest: &[Datum]) -> Result<Form, Broken>
    ensures { Says (interface_form names.now form rest.now) result }
{
    match rest {
        [first, second, more @ ..] => {
            let name = symbol(first)?;
            let interface = interface_of(alloc, names, second)?;
            ended(more)?;
            Ok(Form::Interface(Definition { name, interface }))
        }
        _ => Err(Broken::At(form)),
    }
}

// A name, or a list of exported names.
fn interface_of(alloc: Global, names: &Names, d: &Datum) -> Result<Interface, Broken>
    ensures { Says (interface names.now d.now) result }
{
    match &d.kind {
        DatumKind::Symbol(name) => Ok(Interface::Named(*name, d.place)),
        _ => exporting(alloc, names, d),
    }
}

fn exporting(alloc: Global, names: &Names, d: &Datum) -> Result<Interface, Broken>
    ensures { Says (exporting names.now d.now) result }
{
    let front = fronted(d)?;
    interface_list(alloc, names, front.0, front.1)
}

fn interface_list(
    alloc: Global,
    names: &Names,
    word: OpenedName,
    rest: &[Datum],
) -> Result<Interface, Broken>
    ensures { Says (interface_list names.now word rest.now) result }
{
    if text_of(names, word.name) == b"export".as_slice() {
        let exports = exports_of(alloc, names, rest)?;
        Ok(Interface::Listed(exports))
    } else {
        Err(Broken::At(word.place))
    }
}

fn exports_of(alloc: Global, names: &Names, ds: &[Datum]) -> Result<Exports, Broken>
    ensures { Says (items names.now ds.now) result }
{
    let mut exports = Items::new(alloc);
    for d in ds {
        add_item(names, d, &mut exports)?;
    }
    Ok(exports)
}

// An item is `x`, `(x kind)` or `((x ...) kind)`.
fn add_item(names: &Names, d: &Datum, exports: &mut Exports) -> Result<(), Broken>
    ensures { Adds (λ more. exports.old ++ more) (item names.now d.now) exports.new result }
{
    match &d.kind {
        DatumKind::Symbol(name) => Ok(exports.push(Export {
            name: *name,
            syntax: false,
            place: d.place,
        })?),
        _ => add_marked(names, d, exports),
    }
}

fn add_marked(names: &Names, d: &Datum, exports: &mut Exports) -> Result<(), Broken>
    ensures { Adds (λ more. exports.old ++ more) (marked names.now d.now) exports.new result }
{
    let ds = parts(d, 2)?;
    match ds {
        [front, kind, more @ ..] => {
            add_names(front, is_syntax(names, kind), exports)?;
            ended(more)
        }
        _ => Err(Broken::At(d.place)),
    }
}

// One name, or a list of names.
fn add_names(d: &Datum, syntax: bool, exports: &mut Exports) -> Result<(), Broken>
    ensures { Adds (λ more. exports.old ++ more) (listed syntax d.now) exports.new result }
{
    match &d.kind {
        DatumKind::List(ds) => add_listed(ds.as_slice(), syntax, exports),
        _ => {
            let name = symbol(d)?;
            Ok(exports.push(export(syntax, name))?)
        }
    }
}

fn export(syntax: bool, name: OpenedName) -> Export
    ensures { result ≡ export syntax name }
{
    Export {
        name: name.name,
        syntax,
        place: name.place,
    }
}

fn add_listed(ds: &[Datum], syntax: bool, exports: &mut Exports) -> Result<(), Broken>
    ensures { Adds (λ names. exports.old ++ map (export syntax) names) (each symbol ds.now) exports.new result }
{
    for d in ds {
        let name = symbol(d)?;
        exports.push(export(syntax, name))?;
    }
    Ok(())
}

// Whether a kind marks macros.
fn is_syntax(names: &Names, kind: &Datum) -> bool
    ensures { result ≡ is_syntax names.now (open_of kind.now) }
{
    match &kind.kind {
        DatumKind::Symbol(name) => text_of(names, *name) == b":syntax".as_slice(),
        _ => false,
    }
}

fn clauses_of(alloc: Global, names: &Names, ds: &[Datum]) -> Result<Clauses, Broken>
    ensures { Says (clauses names.now ds.now) result }
{
    let opens = Items::new(alloc);
    let parts = Items::new(alloc);
    let mut clauses = Clauses { opens, parts };
    for d in ds {
        add_clause(alloc, names, d, &mut clauses)?;
    }
    Ok(clauses)
}

// A clause is `(open s ...)`, `(begin form ...)` or `(files f ...)`.
fn add_clause(alloc: Global, names: &Names, d: &Datum, clauses: &mut Clauses) -> Result<(), Broken>
    ensures { Adds (behind clauses.old) (clause names.now d.now) clauses.new result }
{
    let front = fronted(d)?;
    add_parts(alloc, names, front.0, front.1, clauses)
}

fn add_parts(
    alloc: Global,
    names: &Names,
    word: OpenedName,
    rest: &[Datum],
    clauses: &mut Clauses,
) -> Result<(), Broken>
    ensures { Adds (behind clauses.old) (clause_of names.now word rest.now) clauses.new result }
{
    let text = text_of(names, word.name);
    if text == b"open".as_slice() {
        add_opened(rest, &mut clauses.opens)
    } else if text == b"begin".as_slice() {
        Ok(clauses.parts.push(Part::Forms(copied_data(alloc, rest)?))?)
    } else if text == b"files".as_slice() {
        add_files(alloc, names, rest, &mut clauses.parts)
    } else {
        Err(Broken::At(word.place))
    }
}

fn add_opened(ds: &[Datum], opens: &mut Items<OpenedName>) -> Result<(), Broken>
    ensures { Adds (λ names. opens.old ++ names) (each symbol ds.now) opens.new result }
{
    for d in ds {
        let name = symbol(d)?;
        opens.push(name)?;
    }
    Ok(())
}

fn add_files(
    alloc: Global,
    names: &Names,
    ds: &[Datum],
    parts: &mut Items<Part>,
) -> Result<(), Broken>
    ensures { Adds (λ files. parts.old ++ file_parts files) (each (file names.now) ds.now) parts.new result }
{
    for d in ds {
        let file = file_of(alloc, names, d)?;
        parts.push(Part::File(file))?;
    }
    Ok(())
}

// A file is a symbol, which gives its text followed by `.scm`, or a string, which gives itself.
fn file_of(alloc: Global, names: &Names, d: &Datum) -> Result<FileName, Broken>
    ensures { Says (file names.now d.now) result }
{
    match &d.kind {
        DatumKind::Text(text) => Ok(FileName {
            text: Items::from_slice(alloc, text.as_slice())?,
            place: d.place,
        }),
        DatumKind::Symbol(name) => Ok(FileName {
            text: named_file(alloc, text_of(names, *name))?,
            place: d.place,
        }),
        _ => Err(Broken::At(d.place)),
    }
}

fn named_file(alloc: Global, name: &[u8]) -> Result<Bytes, AllocError>
    ensures { IfOk result (λ text. text ≡ name.now ++ codes ".scm") }
{
    let mut text = Vec::from_slice(alloc, name)?;
    text.extend_from_slice(b".scm")?;
    Ok(Items::from_vec(text))
}

// The text of a name; none, where the table has no such number.
pub(crate) fn text_of(names: &Names, name: Name) -> &[u8]
    ensures { result.now ≡ text_of names.now name }
{
    if name.0 < names.len() {
        names.text(name)
    } else {
        b""
    }
}

fn symbol(d: &Datum) -> Result<OpenedName, Broken>
    ensures { Says (symbol d.now) result }
{
    match &d.kind {
        DatumKind::Symbol(name) => Ok(OpenedName {
            name: *name,
            place: d.place,
        }),
        _ => Err(Broken::At(d.place)),
    }
}

// The parts of a list that has so many at least.
fn parts(d: &Datum, least: usize) -> Result<&[Datum], Broken>
    ensures { MatchResult result (λ ds. parts_of least d.now ≡ Ok ds.now) (λ e. Says (parts_of least d.now) (Err e)) }
{
    match &d.kind {
        DatumKind::List(ds) if ds.len() >= least => Ok(ds.as_slice()),
        _ => Err(Broken::At(d.place)),
    }
}

// The word at the front of a list, and what is behind it.
fn fronted(d: &Datum) -> Result<(OpenedName, &[Datum]), Broken>
    ensures { MatchResult result (λ r. fronted d.now ≡ Ok (r.0, r.1.now)) (λ e. Says (fronted d.now) (Err e)) }
{
    let ds = parts(d, 1)?;
    match ds {
        [head, rest @ ..] => {
            let word = symbol(head)?;
            Ok((word, rest))
        }
        [] => Err(Broken::At(d.place)),
    }
}

// No part stands here.
fn ended(more: &[Datum]) -> Result<(), Broken>
    ensures { Says (ended tt more.now) result }
{
    match more {
        [] => Ok(()),
        [first, ..] => Err(Broken::At(first.place)),
    }
}
