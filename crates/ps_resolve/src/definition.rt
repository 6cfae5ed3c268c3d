//! Definitions of procedures.

ghost use Rattle.std.specs.Prelude.{◌≡◌, ◌<◌, ◌++◌, ◌∷◌, [], List, ℕ, true, false, map, length, MatchOption, None, Some, IfOk, IsTrue, ◌↔◌};
ghost use Rattle.ps_base.specs.Limits.{most_numbered};
ghost use Rattle.ps_base.specs.Names.{AreDistinct, IsNew};
ghost use Rattle.ps_plain.specs.Forms.{Part, part, Head, IsHead, main_head, is_name, all_some};
ghost use Rattle.ps_resolve.specs.InsideAnswers.{IsRead, IsUnresolved};
ghost use Rattle.ps_resolve.specs.InsideValues.{scope_of};
ghost use Rattle.ps_resolve.specs.InsideDefinitions.{IsDefine, AreParameters, IsDefinition, procedure_at};

use crate::expr::expr;
use crate::faults::PARAMETERS;
use crate::program::Unresolved;
use crate::scope::Scope;
use crate::symbols::{keyword, symbol, word};
use crate::words::{is, is_name};
use ps_base::{Items, Name, Names, Place};
use ps_datum::{Datum, DatumKind};
use ps_plain::{Keyword, Procedure, Write};
use std::alloc::Global;

// A definition whose head was read: its place, the name that it defines and the text of this, the parameters, and the body.
#[derive(Drop)]
pub(crate) struct Definition<'a> {
    pub place: Place,
    pub number: Name,
    pub name: &'a [u8],
    pub parameters: Names,
    pub body: &'a [Datum],
}

// The data between the brackets of the head of a definition, and its body.
fn head<'a>(names: &Names, form: &'a Datum) -> Option<(&'a [Datum], &'a [Datum])>
    ensures { MatchOption result ((part names.now form.now).head ≡ None) (λ r. IsDefine names.now form.now r.0.now r.1.now) }
{
    let DatumKind::List(parts) = &form.kind else {
        return None;
    };
    let [first, head, body @ ..] = parts.as_slice() else {
        return None;
    };
    let Some(Keyword::Define) = keyword(names, first) else {
        return None;
    };
    let DatumKind::List(words) = &head.kind else {
        return None;
    };
    Some((words.as_slice(), body))
}

// The form is a definition of `main`, without parameters.
pub(crate) fn is_main(names: &Names, form: &Datum) -> bool
    ensures { IsTrue result ↔ ((part names.now form.now).head ≡ Some main_head) }
{
    let Some((words, _)) = head(names, form) else {
        return false;
    };
    let [name] = words else {
        return false;
    };
    match word(names, name) {
        Some(name) => is(name, b"main"),
        None => false,
    }
}

// The name that a datum is, and its text.
fn name<'a>(names: &'a Names, datum: &Datum) -> Option<(Name, &'a [u8])>
    ensures { MatchOption result ((w : List ℕ) → (part names.now datum.now).word ≡ Some w → is_name w ≡ false) (λ r. ((part names.now datum.now).symbol ≡ Some r.0) × ((part names.now datum.now).word ≡ Some r.1.now) × (is_name r.1.now ≡ true)) }
{
    let (name, text) = symbol(names, datum)?;
    if is_name(text) {
        Some((name, text))
    } else {
        None
    }
}

// Adds a name that is not there yet.
pub(crate) fn add_new(names: &mut Names, name: &[u8]) -> Result<(), Unresolved>
    requires { length names.old < most_numbered }
    ensures added { IfOk result (λ _. names.new ≡ names.old ++ name.now ∷ []) }
    ensures is_distinct { AreDistinct names.new }
    ensures refused { IsUnresolved result → IsNew names.old name.now → ⊥ }
{
    let number = names.len();
    if names.add(name)?.0 != number {
        return Err(Unresolved::NotProgram);
    }
    Ok(())
}

// The different names of the parameters.
fn parameters(alloc: Global, names: &Names, words: &[Datum]) -> Result<Names, Unresolved>
    ensures read { IfOk result (λ parameters. AreParameters names.now words.now parameters) }
    ensures unread { IsUnresolved result → (parameters : List (List ℕ)) → AreParameters names.now words.now parameters → ⊥ }
{
    let mut parameters = Names::new(alloc);
    for datum in words {
        let Some((_, name)) = name(names, datum) else {
            return Err(Unresolved::NotProgram);
        };
        if parameters.len() as usize >= PARAMETERS {
            return Err(Unresolved::NotProgram);
        }
        add_new(&mut parameters, name)?;
    }
    Ok(parameters)
}

// The definition that a form is, with its head read.
pub(crate) fn read_definition<'a>(
    alloc: Global,
    names: &'a Names,
    form: &'a Datum,
) -> Result<Definition<'a>, Unresolved>
    ensures read { IfOk result (λ x. IsDefinition names.now form.now x) }
    ensures unread { IsUnresolved result → (h : Head) → (part names.now form.now).head ≡ Some h → IsHead h → ⊥ }
{
    let Some(([first, rest @ ..], body)) = head(names, form) else {
        return Err(Unresolved::NotProgram);
    };
    let Some((number, name)) = name(names, first) else {
        return Err(Unresolved::NotProgram);
    };
    let parameters = parameters(alloc, names, rest)?;
    Ok(Definition {
        place: form.place,
        number,
        name,
        parameters,
        body,
    })
}

// The byte that a form writes.
fn write(alloc: Global, scope: &Scope<'_>, datum: &Datum) -> Result<Write, Unresolved>
    ensures { IsRead result ((part scope.now.names.now datum.now).write (scope_of scope.now)) }
{
    let DatumKind::List(parts) = &datum.kind else {
        return Err(Unresolved::NotProgram);
    };
    let [first, value] = parts.as_slice() else {
        return Err(Unresolved::NotProgram);
    };
    let Some(Keyword::WriteByte) = keyword(scope.names, first) else {
        return Err(Unresolved::NotProgram);
    };
    Ok(Write {
        place: datum.place,
        value: expr(alloc, scope, value)?,
    })
}

// The bytes that these forms write.
fn writes(alloc: Global, scope: &Scope<'_>, forms: &[Datum]) -> Result<Items<Write>, Unresolved>
    ensures { IsRead result (all_some (map (λ (p : Part). p.write (scope_of scope.now)) (map (part scope.now.names.now) forms.now))) }
{
    let mut writes = Items::new(alloc);
    for form in forms {
        writes.push(write(alloc, scope, form)?)?;
    }
    Ok(writes)
}

// The procedure with this name and body, whose definition stands at a place.
pub(crate) fn procedure(
    alloc: Global,
    scope: &Scope<'_>,
    place: Place,
    name: Name,
    body: &[Datum],
) -> Result<Procedure, Unresolved>
    ensures { IsRead result (procedure_at scope.now.names.now place (Some name) (scope_of scope.now) body.now) }
{
    let Some((last, front)) = body.split_last() else {
        return Err(Unresolved::NotProgram);
    };
    let writes = writes(alloc, scope, front)?;
    let value = expr(alloc, scope, last)?;
    Ok(Procedure {
        place,
        name,
        parameters: scope.parameters.len(),
        writes,
        value,
    })
}
