//! Where data are no program.

ghost use Rattle.std.specs.Prelude.{◌≡◌, ℕ, suc, ◌≤◌, ◌<◌, ◌++◌, ◌∷◌, [], List, length, map, nat_eq, ◌&&◌, codes, None, Some, IfOk};
ghost use Rattle.std.specs.List.{list_any};
ghost use Rattle.std.specs.Str.{bytes_eq};
ghost use Rattle.ps_base.specs.Limits.{most_numbered};
ghost use Rattle.ps_datum.specs.Weight.{weights};
ghost use Rattle.ps_plain.specs.Forms.{Head, scope_in};
ghost use Rattle.ps_plain.specs.Faults.{flaws, or_else, parameters_names, body_names, shapes_fault, is_main, fault_of};
ghost use Rattle.ps_resolve.specs.InsideHeads.{IsAdded, IsKnown, IsDefine, HasParts, IsHeadOf, HaveHeads, Knows, head_at, head_fault, words_of, names_walk};

use crate::name_faults::{NamesInScope, body_names};
use crate::shapes::{parts, shapes_fault};
use crate::symbols::word;
use crate::words;
use ps_base::{Items, Names, NoMemory, Place};
use ps_datum::Datum;
use std::alloc::Global;

// How many parameters a procedure may have.
pub(crate) const PARAMETERS: usize = 127;

// Where a text begins.
const START: Place = Place {
    file: 0,
    line: 1,
    column: 1,
};

// The parts of a definition: its name and the place of it, its parameters, and its body.
#[derive(Drop)]
pub(crate) struct DefinitionParts<'a> {
    pub name: &'a [u8],
    pub place: Place,
    pub parameters: &'a [Datum],
    pub body: &'a [Datum],
}

// The procedures that are defined, and their numbers of parameters. The first definition of a name counts.
#[derive(Drop)]
pub(crate) struct Procedures {
    pub names: Names,
    pub arities: Items<usize>,
}

// The head and the body of a definition.
fn head_and_body<'a>(names: &Names, form: &'a Datum) -> (&'a Datum, &'a [Datum])
    requires { (flaws names.now form.now).definition_shape ≡ None }
    ensures { IsDefine names.now form.now result.0.now result.1.now }
{
    let Some(parts) = parts(form) else {
        unreachable!();
    };
    let [_, head, body @ ..] = parts else {
        unreachable!();
    };
    (head, body)
}

// The parts of a definition.
fn definition<'a>(names: &'a Names, form: &'a Datum) -> DefinitionParts<'a>
    requires { (flaws names.now form.now).definition_shape ≡ None }
    ensures { HasParts names.now form.now result }
{
    let (head, body) = head_and_body(names, form);
    let Some(parts) = parts(head) else {
        unreachable!();
    };
    let [first, parameters @ ..] = parts else {
        unreachable!();
    };
    let Some(name) = word(names, first) else {
        unreachable!();
    };
    DefinitionParts {
        name,
        place: first.place,
        parameters,
        body,
    }
}

// Adds a name, unless it is there. Whether it was added.
fn add_new(names: &mut Names, name: &[u8]) -> Result<bool, NoMemory>
    requires { length names.old < most_numbered }
    ensures { IfOk result (λ added. IsAdded names.old names.new name.now added) }
{
    let count = names.len();
    Ok(names.add(name)?.0 == count)
}

// Adds the name that a datum is. Whether it was there.
fn is_among(names: &Names, before: &mut Names, datum: &Datum) -> Result<bool, NoMemory>
    requires { length before.old < most_numbered }
    ensures { IfOk result (λ there. IsKnown before.old before.new (flaws names.now datum.now).word there) }
{
    match word(names, datum) {
        Some(word) => Ok(!add_new(before, word)?),
        None => Ok(false),
    }
}

// The first parameter that stands before, or is one too many. The others are added to an empty table.
fn parameters_fault(
    names: &Names,
    before: &mut Names,
    parameters: &[Datum],
) -> Result<Option<Place>, NoMemory>
    requires { before.old ≡ [] }
    ensures fault { IfOk result (λ at. at ≡ parameters_names 0 [] (map (flaws names.now) parameters.now)) }
    ensures added { IfOk result (λ at. at ≡ None → (ws : List (List ℕ)) → words_of names.now parameters.now ≡ Some ws → before.new ≡ ws) }
{
    for (count, parameter) in parameters.iter().enumerate() {
        if is_among(names, before, parameter)? {
            return Ok(Some(parameter.place));
        }
        if count >= PARAMETERS {
            return Ok(Some(parameter.place));
        }
    }
    Ok(None)
}

// The first name of a head that breaks a condition. The name of the procedure is added to those that are defined, and the
// parameters to an empty table.
fn head_fault(
    names: &Names,
    defined: &mut Names,
    parameters: &mut Names,
    definition: &DefinitionParts<'_>,
) -> Result<Option<Place>, NoMemory>
    requires room { length defined.old < most_numbered }
    requires empty { parameters.old ≡ [] }
    ensures fault { IfOk result (λ at. at ≡ head_fault names.now defined.old definition.now) }
    ensures defined { IfOk result (λ at. at ≡ None → defined.new ≡ defined.old ++ definition.now.name.now ∷ []) }
    ensures parameters { IfOk result (λ at. at ≡ None → (ws : List (List ℕ)) → words_of names.now definition.now.parameters.now ≡ Some ws → parameters.new ≡ ws) }
{
    if add_new(defined, definition.name)? {
        parameters_fault(names, parameters, definition.parameters)
    } else {
        Ok(Some(definition.place))
    }
}

// The first name of a definition that breaks a condition. The name of the procedure is added to those that are defined.
fn definition_fault(
    alloc: Global,
    names: &Names,
    procedures: &Procedures,
    defined: &mut Names,
    definition: &DefinitionParts<'_>,
) -> Result<Option<Place>, NoMemory>
    requires { length defined.old < most_numbered }
    ensures fault { IfOk result (λ at. (heads : List Head) (h : Head) → Knows heads procedures.now → IsHeadOf names.now h definition.now → at ≡ or_else (head_fault names.now defined.old definition.now) (body_names (scope_in heads h) (map (flaws names.now) definition.now.body.now))) }
    ensures defined { IfOk result (λ at. at ≡ None → defined.new ≡ defined.old ++ definition.now.name.now ∷ []) }
{
    let mut parameters = Names::new(alloc);
    if let Some(at) = head_fault(names, defined, &mut parameters, definition)? {
        return Ok(Some(at));
    }
    let scope = NamesInScope {
        parameters: &parameters,
        procedures: &procedures.names,
        arities: procedures.arities.as_slice(),
    };
    Ok(body_names(names, &scope, definition.body))
}

// Adds a procedure, unless there is one of its name.
fn add_procedure(
    procedures: &mut Procedures,
    names: &Names,
    definition: &DefinitionParts<'_>,
) -> Result<(), NoMemory>
    requires { length procedures.old.names < most_numbered }
    ensures knows { IfOk result (λ _. (heads : List Head) (h : Head) → Knows heads procedures.old → IsHeadOf names.now h definition.now → Knows (heads ++ h ∷ []) procedures.new) }
    ensures small { IfOk result (λ _. length procedures.new.names ≤ suc (length procedures.old.names)) }
{
    if add_new(&mut procedures.names, definition.name)? {
        procedures.arities.push(definition.parameters.len())?;
    }
    Ok(())
}

// The procedures that forms define.
fn procedures_of(alloc: Global, names: &Names, forms: &[Datum]) -> Result<Procedures, NoMemory>
    requires shape { shapes_fault names.now forms.now ≡ None }
    requires few { length forms.now < most_numbered }
    ensures knows { IfOk result (λ t. Knows (map (head_at names.now) forms.now) t) }
    ensures heads { IfOk result (λ _. HaveHeads names.now forms.now) }
{
    let mut procedures = Procedures {
        names: Names::new(alloc),
        arities: Items::new(alloc),
    };
    for form in forms {
        let definition = definition(names, form);
        add_procedure(&mut procedures, names, &definition)?;
    }
    Ok(procedures)
}

// The first name of forms that breaks a condition.
fn names_fault(
    alloc: Global,
    names: &Names,
    procedures: &Procedures,
    forms: &[Datum],
) -> Result<Option<Place>, NoMemory>
    requires shape { shapes_fault names.now forms.now ≡ None }
    requires few { length forms.now < most_numbered }
    ensures { IfOk result (λ at. (heads : List Head) → Knows heads procedures.now → at ≡ names_walk names.now heads [] forms.now) }
{
    let mut defined = Names::new(alloc);
    for form in forms {
        let definition = definition(names, form);
        if let Some(at) = definition_fault(alloc, names, procedures, &mut defined, &definition)? {
            return Ok(Some(at));
        }
    }
    Ok(None)
}

// The definition is that of `main`, without parameters.
fn is_main(definition: &DefinitionParts<'_>) -> bool
    ensures { result ≡ (bytes_eq definition.now.name.now (codes "main") && nat_eq (length definition.now.parameters.now) 0) }
{
    words::is(definition.name, b"main") && definition.parameters.is_empty()
}

// There is a definition of `main`, without parameters.
fn has_main(names: &Names, forms: &[Datum]) -> bool
    requires { shapes_fault names.now forms.now ≡ None }
    ensures { result ≡ list_any is_main (map (head_at names.now) forms.now) }
{
    for form in forms {
        let definition = definition(names, form);
        if is_main(&definition) {
            return true;
        }
    }
    false
}

// Where data are no program: the first datum that has not the shape that is expected in its place, a list before its parts;
// else the first name that breaks a condition, in order of the text; else the place where the text begins, where there is no
// `main`. Names are looked up by an index. The forms must have fewer than 4,294,967,295 tokens.
pub(crate) fn fault(
    alloc: Global,
    names: &Names,
    forms: &[Datum],
) -> Result<Option<Place>, NoMemory>
    requires { weights forms.now < most_numbered }
    ensures { IfOk result (λ at. at ≡ fault_of names.now forms.now) }
{
    if forms.is_empty() {
        return Ok(Some(START));
    }
    if let Some(at) = shapes_fault(names, forms) {
        return Ok(Some(at));
    }
    let procedures = procedures_of(alloc, names, forms)?;
    if let Some(at) = names_fault(alloc, names, &procedures, forms)? {
        return Ok(Some(at));
    }
    if has_main(names, forms) {
        Ok(None)
    } else {
        Ok(Some(START))
    }
}
