//! The resolver.

ghost use Rattle.std.specs.Prelude.{◌≡◌, ◌<◌, ◌≤◌, ◌++◌, ◌∷◌, List, length, Some, IfOk, IfErr, MatchOption};
ghost use Rattle.std.specs.List.{AllByRecursion};
ghost use Rattle.ps_base.specs.Limits.{most_numbered};
ghost use Rattle.ps_base.specs.Names.{AreDistinct};
ghost use Rattle.ps_datum.specs.declared.datum.Datum.{Datum};
ghost use Rattle.ps_datum.specs.Weight.{weights};
ghost use Rattle.ps_plain.specs.declared.program.Procedure.{Procedure};
ghost use Rattle.ps_plain.specs.declared.program.Program.{Program};
ghost use Rattle.ps_plain.specs.Forms.{IsProgram, Head, IsHead, part, main_head, heads_of, names_in, arities_in};
ghost use Rattle.ps_plain.specs.Faults.{fault_of};
ghost use Rattle.ps_plain.specs.Valid.{IsValid};
ghost use Rattle.ps_plain.specs.Size.{program_size};
ghost use Rattle.ps_resolve.specs.Refusals.{IsRefusalOf};
ghost use Rattle.ps_resolve.specs.InsideAnswers.{IsUnresolved};
ghost use Rattle.ps_resolve.specs.InsideDefinitions.{IsAround, AreDefinitions, AreProcedures, heads_in};

use crate::definition::{Definition, add_new, is_main, procedure, read_definition};
use crate::faults::fault;
use crate::scope::Scope;
use ps_base::{Fault, Items, Names, NoMemory, Refusal};
use ps_datum::Datum;
use ps_plain::{Procedure, Program, faults_tell_programs};
use std::alloc::{AllocError, Global};

// Why data were not read as a part of a program.
#[derive(Clone, Copy, Debug, PartialEq, Eq)]
pub(crate) enum Unresolved {
    // The data are none: a form is broken, or a name stands for nothing or for two things.
    NotProgram,
    // Memory ran out.
    NoMemory,
}

impl From<AllocError> for Unresolved {
    ghost use Rattle.std.specs.Prelude.{◌≡◌};
    ghost use Rattle.ps_resolve.specs.declared.program.Unresolved.TheVariants.{NoMemory as Memory};

    ghost from_gives = { λ _ unresolved. unresolved ≡ Memory };

    fn from(_e: AllocError) -> Unresolved {
        Unresolved::NoMemory
    }
}

impl From<NoMemory> for Unresolved {
    ghost use Rattle.std.specs.Prelude.{◌≡◌};
    ghost use Rattle.ps_resolve.specs.declared.program.Unresolved.TheVariants.{NoMemory as Memory};

    ghost from_gives = { λ _ unresolved. unresolved ≡ Memory };

    fn from(_e: NoMemory) -> Unresolved {
        Unresolved::NoMemory
    }
}

// The form of the first definition of `main`, between the forms before it and those after it.
fn around_main<'a>(
    names: &Names,
    forms: &'a [Datum],
) -> Option<(&'a [Datum], &'a Datum, &'a [Datum])>
    ensures { MatchOption result ((before after : List Datum) (main : Datum) → IsAround names.now forms.now before main after → ⊥) (λ r. IsAround names.now forms.now r.0.now r.1.now r.2.now) }
{
    for (at, form) in forms.iter().enumerate() {
        if is_main(names, form) {
            return Some((&forms[..at], form, &forms[at + 1..]));
        }
    }
    None
}

// Adds the definitions that forms are to those before them.
fn read_definitions<'a>(
    alloc: Global,
    names: &'a Names,
    definitions: &mut Items<Definition<'a>>,
    forms: &'a [Datum],
) -> Result<(), Unresolved>
    ensures read { IfOk result (λ _. (done : List Datum) → AreDefinitions names.now done definitions.old → AreDefinitions names.now (done ++ forms.now) definitions.new) }
    ensures unread { IsUnresolved result → (hs : List Head) → heads_of names.now forms.now ≡ Some hs → AllByRecursion IsHead hs → ⊥ }
{
    for form in forms {
        definitions.push(read_definition(alloc, names, form)?)?;
    }
    Ok(())
}

// The definitions that forms are, in order of their numbers: that of `main` is the first.
fn in_order<'a>(
    alloc: Global,
    names: &'a Names,
    before: &'a [Datum],
    main: &'a Datum,
    after: &'a [Datum],
) -> Result<Items<Definition<'a>>, Unresolved>
    ensures read { IfOk result (λ xs. AreDefinitions names.now (main.now ∷ (before.now ++ after.now)) xs) }
    ensures unread { IsUnresolved result → (hs : List Head) → heads_of names.now (main.now ∷ (before.now ++ after.now)) ≡ Some hs → AllByRecursion IsHead hs → ⊥ }
{
    let mut definitions = Items::new(alloc);
    definitions.push(read_definition(alloc, names, main)?)?;
    read_definitions(alloc, names, &mut definitions, before)?;
    read_definitions(alloc, names, &mut definitions, after)?;
    Ok(definitions)
}

// The names of procedures, which are different.
fn defined(alloc: Global, definitions: &[Definition<'_>]) -> Result<Names, Unresolved>
    requires { length definitions.now < most_numbered }
    ensures are_names { IfOk result (λ names. names ≡ names_in (heads_in definitions.now)) }
    ensures is_distinct { IfOk result (λ names. AreDistinct names) }
    ensures refused { IsUnresolved result → AreDistinct (names_in (heads_in definitions.now)) → ⊥ }
{
    let mut names = Names::new(alloc);
    for definition in definitions {
        add_new(&mut names, definition.name)?;
    }
    Ok(names)
}

// The numbers of parameters of procedures.
fn arities(alloc: Global, definitions: &[Definition<'_>]) -> Result<Items<u32>, Unresolved>
    ensures are_arities { IfOk result (λ arities. arities ≡ arities_in (heads_in definitions.now)) }
    ensures refused { IsUnresolved result → ⊥ }
{
    let mut arities = Items::new(alloc);
    for definition in definitions {
        arities.push(definition.parameters.len())?;
    }
    Ok(arities)
}

// The procedures of a program with these definitions.
fn procedures(
    alloc: Global,
    names: &Names,
    definitions: &[Definition<'_>],
) -> Result<Items<Procedure>, Unresolved>
    requires { length definitions.now < most_numbered }
    ensures read { IfOk result (λ qs. AreProcedures names.now definitions.now qs) }
    ensures unread { IsUnresolved result → (qs : List Procedure) → AreProcedures names.now definitions.now qs → ⊥ }
{
    let defined = defined(alloc, definitions)?;
    let arities = arities(alloc, definitions)?;
    let mut procedures = Items::new(alloc);
    for definition in definitions {
        let scope = Scope {
            names,
            parameters: &definition.parameters,
            procedures: &defined,
            arities: arities.as_slice(),
        };
        procedures.push(procedure(
            alloc,
            &scope,
            definition.place,
            definition.number,
            definition.body,
        )?)?;
    }
    Ok(procedures)
}

// The program that forms are.
fn program_of(alloc: Global, names: &Names, forms: &[Datum]) -> Result<Program, Unresolved>
    requires { weights forms.now < most_numbered }
    ensures resolved { IfOk result (λ p. IsProgram names.now forms.now p) }
    ensures valid { IfOk result (λ p. IsValid p) }
    ensures small { IfOk result (λ p. program_size p ≤ weights forms.now) }
    ensures unresolved { IsUnresolved result → (p : Program) → IsProgram names.now forms.now p → ⊥ }
{
    let Some((before, main, after)) = around_main(names, forms) else {
        return Err(Unresolved::NotProgram);
    };
    let definitions = in_order(alloc, names, before, main, after)?;
    let procedures = procedures(alloc, names, definitions.as_slice())?;
    Ok(Program { procedures })
}

/// The program that forms are, where `names` is the table of their names: definitions
/// `(define (f x ...) (write-byte E) ... E)`, of which one is that of `main`, without parameters. Names are looked up by an
/// index. The forms must weigh less than 4,294,967,295.
///
/// # Errors
///
/// `NotBuilt` exactly where the forms are no program, at the place of their first fault: the first datum that has not the shape
/// expected in its place, a list before its parts; else the first name that breaks a condition, in order of the text; else,
/// where there is no form or no `main`, line 1 and column 1 of file 0. `NoMemory` where memory ran out.
pub fn resolve(alloc: Global, names: &Names, forms: &[Datum]) -> Result<Program, Refusal>
    requires { weights forms.now < most_numbered }
    ensures resolved { IfOk result (λ p. IsProgram names.now forms.now p) }
    ensures valid { IfOk result (λ p. IsValid p) }
    ensures small { IfOk result (λ p. program_size p ≤ weights forms.now) }
    ensures refused { IfErr result (λ refusal. IsRefusalOf (fault_of names.now forms.now) refusal) }
{
    faults_tell_programs();
    if let Some(place) = fault(alloc, names, forms)? {
        return Err(Refusal::Fault(Fault::NotBuilt(place)));
    }
    match program_of(alloc, names, forms) {
        Ok(program) => Ok(program),
        Err(Unresolved::NoMemory) => Err(Refusal::NoMemory),
        Err(Unresolved::NotProgram) => unreachable!(),
    }
}
