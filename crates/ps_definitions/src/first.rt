//! The first pass: definitions are noted.

ghost use Rattle.std.specs.Prelude.{◌≡◌, [], ◌++◌, List, IfOk, OnOk, reverse};
ghost use Rattle.ps_definitions.specs.Definitions.{first_pass, is_noted as is_noted_spec, most_steps, note, note_one, note_parts, note_special, passing, special_of};
ghost use Rattle.ps_definitions.specs.InsideFirst.{passed, passed_by, with_kept};
ghost use Rattle.ps_definitions.specs.declared.first.Noted.{Noted};
ghost use Rattle.ps_derived.specs.Seen.{seen};
ghost use Rattle.ps_expansion.specs.Does.{Does, Does_by, task_of};
ghost use Rattle.ps_expansion.specs.States.{settled as settled_spec};
ghost use Rattle.ps_hygiene.specs.Forms.{shape};

use crate::defining::{define_macro, define_variable, name_of};
use crate::records::define_kind;
use ps_base::{Core, Items};
use ps_derived::Parts;
use ps_expansion::{Expansion, Stop, Task};
use ps_hygiene::Shape;
use ps_pattern::{Nodes, Syntax, copy_all};
use std::alloc::AllocError;

/// A form that the first pass has noted, and that is no macro use.
#[derive(Drop)]
pub enum Noted {
    /// The definition of the variable of this number.
    Variable(u32, Syntax),
    /// The record type of this number.
    Kind(u32, Syntax),
    /// An expression.
    Expression(Syntax),
}

/// What is kept of a form.
#[derive(Clone, Copy, Debug, PartialEq, Eq)]
pub(crate) enum Kept {
    /// The definition of the variable of this number.
    Variable(u32),
    /// The record type of this number.
    Kind(u32),
    /// An expression.
    Expression,
    /// Nothing.
    Nothing,
}

/// The forms of the present structure are noted, one after another: variables, macros and record types are defined, the forms of a `begin` come
/// in its place, and any other form is an expression. `forms` has the next one last. What is answered are the variables, record types and
/// expressions, in order. There are at most 18,446,744,073,709,551,615 steps, each of which notes a form or takes a `begin` apart.
///
/// # Errors
///
/// The first fault: of the transcription of a form; `BadForm` where a definition or a `begin` has another shape; `NameTwice` where the structure
/// defines an identifier a second time, at the form that does; `BadRules` where the rules of a macro are none. `NoMemory` where memory ran out,
/// or there are 4,294,967,295 variables, macros or record types, or as many fields in one.
pub fn first_pass(state: &mut Expansion, task: &Task, forms: Nodes) -> Result<Items<Noted>, Stop>
    ensures { Does result (first_pass (task_of task.now) state.old.hygiene.here most_steps (passing [] (reverse forms))) state.old state.new }
{
    note_all(state, task, forms, u64::MAX)
}

// The same, by so many steps.
fn note_all(
    state: &mut Expansion,
    task: &Task,
    forms: Nodes,
    steps: u64,
) -> Result<Items<Noted>, Stop>
    ensures { Does result (first_pass (task_of task.now) state.old.hygiene.here steps (passing [] (reverse forms))) state.old state.new }
{
    let mut stack = forms;
    let mut noted = Items::new(state.alloc);
    for step in 0..steps {
        let _ = step;
        match stack.pop() {
            None => return Ok(noted),
            Some(form) => note_one(state, task, form, &mut stack, &mut noted)?,
        }
    }
    Ok(noted)
}

// One form: its own macro uses are transcribed, and then it is noted.
fn note_one(
    state: &mut Expansion,
    task: &Task,
    form: Syntax,
    stack: &mut Nodes,
    noted: &mut Items<Noted>,
) -> Result<(), Stop>
    ensures { Does_by (passed noted.new stack.new) result (note_one (task_of task.now) state.old.hygiene.here noted.old form (reverse stack.old)) state.old state.new }
{
    let form = settled(state, task, form)?;
    let kept = note(state, task, &form, stack)?;
    keep(noted, kept, form)?;
    Ok(())
}

// A form, transcribed until it is no macro use.
fn settled(state: &mut Expansion, task: &Task, form: Syntax) -> Result<Syntax, Stop>
    ensures { Does result (settled_spec task.now.limits.now state.old.hygiene.here form) state.old state.new }
{
    match state.hygiene.settle(task.limits, &form)? {
        None => Ok(form),
        Some(made) => Ok(made),
    }
}

// A form that is no macro use: what it defines is defined.
fn note(state: &mut Expansion, task: &Task, form: &Syntax, stack: &mut Nodes) -> Result<Kept, Stop>
    ensures { (noted : List Noted) → Does_by (passed_by noted form.now stack.new) result (note (task_of task.now) state.old.hygiene.here noted form.now (reverse stack.old) (special_of (shape state.old.hygiene.world state.old.hygiene.here form.now))) state.old state.new }
{
    match special(state, form) {
        Some(core) => note_special(state, task, core, form, stack),
        None => Ok(Kept::Expression),
    }
}

fn special(state: &Expansion, form: &Syntax) -> Option<Core>
    ensures { result ≡ special_of (shape state.now.hygiene.world state.now.hygiene.here form.now) }
{
    match state.hygiene.shape(form) {
        Shape::Special(core) => Some(core),
        Shape::Boolean(_)
        | Shape::Integer(_)
        | Shape::Char(_)
        | Shape::Text(_)
        | Shape::Name(_)
        | Shape::Use(_)
        | Shape::Call(_, _)
        | Shape::Bad => None,
    }
}

fn note_special(
    state: &mut Expansion,
    task: &Task,
    core: Core,
    form: &Syntax,
    stack: &mut Nodes,
) -> Result<Kept, Stop>
    ensures { (noted : List Noted) → Does_by (passed_by noted form.now stack.new) result (note_special (task_of task.now) state.old.hygiene.here noted form.now (reverse stack.old) core (is_noted_spec core)) state.old state.new }
{
    if is_noted(core) {
        let parts = state.parts(task, core, form)?;
        note_parts(state, task, form, parts, stack)
    } else {
        Ok(Kept::Expression)
    }
}

// Whether a special form is taken apart in the first pass.
fn is_noted(core: Core) -> bool
    ensures { result ≡ is_noted_spec core }
{
    match core {
        Core::Define | Core::DefineSyntax | Core::DefineRecordType | Core::Begin => true,
        Core::Lambda
        | Core::If
        | Core::Let
        | Core::LetStar
        | Core::Letrec
        | Core::Set
        | Core::Quote
        | Core::Cond
        | Core::Case
        | Core::And
        | Core::Or
        | Core::Do
        | Core::Goto
        | Core::LetSyntax
        | Core::LetrecSyntax => false,
    }
}

// A special form by its parts: what it defines is defined, and the forms of a `begin` come next.
fn note_parts(
    state: &mut Expansion,
    task: &Task,
    form: &Syntax,
    parts: Parts<'_>,
    stack: &mut Nodes,
) -> Result<Kept, Stop>
    ensures { (noted : List Noted) → Does_by (passed_by noted form.now stack.new) result (note_parts (task_of task.now) state.old.hygiene.here noted form.now (reverse stack.old) (seen parts.entry)) state.old state.new }
{
    let at = form.place;
    match parts {
        Parts::Define(x) => Ok(Kept::Variable(define_variable(state, task, at, name_of(x))?)),
        Parts::DefineSyntax(x) => {
            define_macro(state, task, at, x)?;
            Ok(Kept::Nothing)
        }
        Parts::RecordType(x) => Ok(Kept::Kind(define_kind(state, at, &x)?)),
        Parts::Begin(forms) => {
            let inner = copy_all(state.alloc, forms)?;
            move_over(stack, inner)?;
            Ok(Kept::Nothing)
        }
        Parts::Lambda(_, _)
        | Parts::If(_, _, _)
        | Parts::Let(_, _)
        | Parts::NamedLet(_, _, _)
        | Parts::LetStar(_, _)
        | Parts::Letrec(_, _)
        | Parts::Set(_, _)
        | Parts::Quote(_)
        | Parts::Cond(_, _)
        | Parts::Case(_, _, _)
        | Parts::And(_)
        | Parts::Or(_)
        | Parts::Do(_, _, _, _)
        | Parts::Goto(_, _)
        | Parts::LetSyntax(_, _)
        | Parts::LetrecSyntax(_, _) => Ok(Kept::Expression),
    }
}

// Forms come next, the first of them first.
fn move_over(stack: &mut Nodes, forms: Nodes) -> Result<(), AllocError>
    ensures { OnOk result (reverse stack.new ≡ forms ++ reverse stack.old) }
{
    let mut left = forms;
    'forms: loop {
        match left.pop() {
            None => return Ok(()),
            Some(form) => stack.push(form)?,
        }
    }
}

fn keep(noted: &mut Items<Noted>, kept: Kept, form: Syntax) -> Result<(), AllocError>
    ensures { OnOk result (noted.new ≡ with_kept noted.old form kept) }
{
    match kept {
        Kept::Variable(number) => noted.push(Noted::Variable(number, form)),
        Kept::Kind(number) => noted.push(Noted::Kind(number, form)),
        Kept::Expression => noted.push(Noted::Expression(form)),
        Kept::Nothing => Ok(()),
    }
}
