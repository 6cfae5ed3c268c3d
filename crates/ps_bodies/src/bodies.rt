//! The heads of bodies, and the values of letrecs and of definitions.

ghost use Rattle.ps_bodies.specs.Bodies.{decided_definition as decided_definition_spec, decided_definitions as decided_definitions_spec, decided_form as decided_form_spec, decided_forms as decided_forms_spec, head_defines as head_defines_spec, heads as heads_spec, is_define as is_define_spec, named_head as named_head_spec};
ghost use Rattle.ps_bodies.specs.InsideBodies.{Binds, Heads_are, Names, held_forms, seen_members, seen_value};
ghost use Rattle.ps_expansion.specs.Does.{Does_by, state_of, task_of};
ghost use Rattle.ps_hygiene.specs.Forms.{shape};
ghost use Rattle.std.specs.Prelude.{[], map, ◌≡◌};

use crate::values::{Heads, Member, Value};
use ps_base::{Core, FormKind, Items, Place, Prim};
use ps_derived::{Defined, Parts};
use ps_expansion::{Expansion, Held, Stop, Task, refused};
use ps_hygiene::Shape;
use ps_pattern::{Binding, Ident, Syntax};

// Whether a form is a definition.
fn is_define(state: &Expansion, form: &Syntax) -> bool
    ensures { result ≡ is_define_spec (shape state.now.hygiene.world state.now.hygiene.here form.now) }
{
    match state.hygiene.shape(form) {
        Shape::Special(Core::Define) => true,
        _ => false,
    }
}

/// The head of a body. The names of its definitions are bound when it is read.
///
/// # Errors
///
/// The first fault in the order of the forms: that of a form that is transcribed into none, `BadForm` at a definition of a wrong shape, and
/// `BadForm` at the body's place where it binds a name a second time, or where no expression stands behind the definitions. `NoMemory`
/// where memory or the numbers of locals ran out.
pub fn heads<'a>(
    state: &mut Expansion,
    task: &Task,
    at: Place,
    forms: &'a [Syntax],
) -> Result<Heads<'a>, Stop>
    ensures { Heads_are forms.now result (heads_spec (task_of task.now) at forms.now state.old.hygiene.here [] [] (state_of state.old)) state.new }
{
    let mut definitions = Vec::new(state.alloc);
    let mut locals = Items::new(state.alloc);
    for (i, form) in forms.iter().enumerate() {
        let first = state.settled(task, form)?;
        if !is_define(state, first.form()) {
            return Ok(Heads {
                definitions,
                locals,
                first,
                taken: i,
            });
        }
        let local = head_defines(state, task, at, locals.len(), first.form())?;
        definitions.push(first)?;
        locals.push(local)?;
    }
    Err(refused(FormKind::BadForm, at))
}

// A definition at the head of a body binds its name: its local.
fn head_defines(
    state: &mut Expansion,
    task: &Task,
    at: Place,
    count: usize,
    form: &Syntax,
) -> Result<u32, Stop>
    ensures { Names result (head_defines_spec (task_of task.now) at count state.old.hygiene.here form.now (state_of state.old)) state.old.hygiene.here state.new }
{
    match state.parts(task, Core::Define, form)? {
        Parts::Define(Defined::Variable(name, _)) => named_head(state, at, count, name),
        Parts::Define(Defined::Procedure(name, _, _)) => named_head(state, at, count, name),
        _ => Err(refused(FormKind::BadForm, at)),
    }
}

// A name that is none of the newest is bound to a local.
fn named_head(state: &mut Expansion, at: Place, count: usize, name: &Ident) -> Result<u32, Stop>
    ensures { Binds result (named_head_spec at count state.old.hygiene.here name.now (state_of state.old)) name.now state.old.hygiene.here state.new }
{
    if state.hygiene.is_among(count, name) {
        return Err(refused(FormKind::BadForm, at));
    }
    let local = state.next_local()?;
    state.hygiene.bind(name, Binding::Local(local))?;
    Ok(local)
}

// What a form is as the value of a letrec.
fn decided_form<'a>(state: &mut Expansion, task: &Task, form: &'a Syntax) -> Result<Value<'a>, Stop>
    ensures { Does_by seen_value result (decided_form_spec (task_of task.now) state.old.hygiene.here form.now) state.old state.new }
{
    let written = state.settled(task, form)?;
    match state.hygiene.shape(written.form()) {
        Shape::Special(Core::Lambda) => Ok(Value::Written(written)),
        Shape::Name(meant) => match meant.binding {
            Binding::Primitive(Prim::NullAddress) => Err(refused(
                FormKind::LetrecValue,
                form.place,
            )),
            Binding::Primitive(primitive) => Ok(Value::Performs(written.form().place, primitive)),
            _ => Err(refused(FormKind::LetrecValue, form.place)),
        },
        _ => Err(refused(FormKind::LetrecValue, form.place)),
    }
}

// What the value of a definition is.
fn decided_definition<'a>(
    state: &mut Expansion,
    task: &Task,
    form: &'a Syntax,
) -> Result<Value<'a>, Stop>
    ensures { Does_by seen_value result (decided_definition_spec (task_of task.now) state.old.hygiene.here form.now) state.old state.new }
{
    match state.parts(task, Core::Define, form)? {
        Parts::Define(Defined::Variable(_, value)) => decided_form(state, task, value),
        Parts::Define(Defined::Procedure(_, parameters, body)) => Ok(Value::Procedure(
            form.place, parameters, body,
        )),
        _ => Err(refused(FormKind::BadForm, form.place)),
    }
}

/// The values of a letrec in order, with numbers for their lambdas.
///
/// # Errors
///
/// The first fault in their order: that of a form that is transcribed into none, and `LetrecValue` at a value that is neither a lambda nor a
/// primitive; `null-address` is a constant. `NoMemory` where memory or the numbers of lambdas ran out.
pub fn decided_forms<'a>(
    state: &mut Expansion,
    task: &Task,
    forms: &[&'a Syntax],
) -> Result<Vec<Member<'a>>, Stop>
    ensures { Does_by (λ ms. seen_members ms.items) result (decided_forms_spec (task_of task.now) state.old.hygiene.here (map (λ f. f.now) forms.now) []) state.old state.new }
{
    let mut members = Vec::new(state.alloc);
    for form in forms {
        let value = decided_form(state, task, form)?;
        let lambda = state.next_lambda(form.place)?;
        members.push(Member { lambda, value })?;
    }
    Ok(members)
}

/// The values of definitions in order, with numbers for their lambdas.
///
/// # Errors
///
/// The first fault in their order: `BadForm` at a definition of a wrong shape, and for the value of a variable what `decided_forms` answers.
/// `NoMemory` where memory or the numbers of lambdas ran out.
pub fn decided_definitions<'a>(
    state: &mut Expansion,
    task: &Task,
    forms: &'a [Held<'a>],
) -> Result<Vec<Member<'a>>, Stop>
    ensures { Does_by (λ ms. seen_members ms.items) result (decided_definitions_spec (task_of task.now) state.old.hygiene.here (held_forms forms.now) []) state.old state.new }
{
    let mut members = Vec::new(state.alloc);
    for form in forms {
        let form = form.form();
        let value = decided_definition(state, task, form)?;
        let lambda = state.next_lambda(form.place)?;
        members.push(Member { lambda, value })?;
    }
    Ok(members)
}
