//! The text of a kernel.

ghost use Rattle.std.specs.Prelude.{◌≡◌, codes};
ghost use Rattle.ps_show.specs.Answers.{IsAnswer};
ghost use Rattle.ps_show.specs.InsidePages.{Adds, HoldsText};
ghost use Rattle.ps_show.specs.ShowText.{shown, operands_text, form_lines, form_text, kernel_text};
ghost use Rattle.ps_show.specs.Shown.{Shown, Text, ◌⋄◌};
ghost use Rattle.ps_kernel.specs.declared.kernel.Form.TheVariants as forms;

use crate::kinds::put_kinds;
use crate::nodes::{Showing, put_expr, put_operands};
use crate::page::{Page, ShowFault, empty, put};
use crate::survey::{LEVELS, locals_of};
use crate::words::put_global;
use ps_base::{Bytes, Names};
use ps_kernel::{Expr, ExprKind, Form, Kernel};
use std::alloc::Global;

/// The text of a kernel as Scheme without modules and macros (R5RS 7.1): first each kind of records, then each form, on a line
/// of its own, with one space between the parts of a form. Kind K is `%rK`, a definition `main` or `%gK`, and a local `%lK`,
/// where K counts from 0 in the order in which the text binds locals. It recurs to the depth of the kernel, but not below 200
/// levels.
///
/// # Errors
///
/// `Deep` where a bracket of the text would open level 201, with the place of the node to which the first such bracket
/// belongs, and 0:1:1 where it belongs to a kind of records; `Long` where none would, and the text would have more than
/// 4,194,304 bytes; `NoMemory` where memory ran out.
pub fn show(alloc: Global, kernel: &Kernel, names: &Names) -> Result<Bytes, ShowFault>
    ensures { IsAnswer (kernel_text kernel.now names.now) result }
{
    let locals = match locals_of(alloc, kernel) {
        Ok(locals) => locals,
        Err(_) => return Err(ShowFault::NoMemory),
    };
    let showing = Showing {
        kernel,
        names,
        locals: &locals,
    };
    let mut page = empty(alloc);
    put_kinds(&mut page, kernel.kinds.as_slice());
    put_forms(&mut page, &showing, kernel.forms.as_slice());
    answer_of(page)
}

// What is answered of a page.
fn answer_of(page: Page) -> Result<Bytes, ShowFault>
    ensures { (text : Shown) → HoldsText page text → IsAnswer text result }
{
    match page.fault {
        None => Ok(page.bytes),
        Some(fault) => Err(fault),
    }
}

// Forms, each on its line.
fn put_forms(page: &mut Page, showing: &Showing<'_>, forms: &[Form])
    ensures { Adds page.old page.new (form_lines showing.now.kernel.now showing.now.names.now showing.now.locals.now forms.now) }
{
    for form in forms {
        put_form(page, showing, form);
        put(page, b"\n");
    }
}

// A form.
#[tactic(auto, unfolding(crate::specs::ShowText::form_text))]
fn put_form(page: &mut Page, showing: &Showing<'_>, form: &Form)
    ensures { Adds page.old page.new (form_text showing.now.kernel.now showing.now.names.now showing.now.locals.now form.now) }
{
    match form {
        Form::Define(global, e) => put_definition(page, showing, *global, e),
        Form::Do(e) => put_do(page, showing, e),
    }
}

// The definition of a variable.
#[tactic(auto, using(crate::proofs::PagesAreJoined::adds_then), unfolding(crate::specs::ShowText::form_text))]
fn put_definition(page: &mut Page, showing: &Showing<'_>, global: u32, e: &Expr)
    ensures { Adds page.old page.new (form_text showing.now.kernel.now showing.now.names.now showing.now.locals.now (forms.Define global e.now)) }
{
    put(page, b"(define ");
    put_global(page, showing.kernel.main, global);
    put(page, b" ");
    put_expr(page, showing, e, LEVELS - 1);
    put(page, b")");
}

// An expression at top level.
fn put_do(page: &mut Page, showing: &Showing<'_>, e: &Expr)
    ensures { Adds page.old page.new (form_text showing.now.kernel.now showing.now.names.now showing.now.locals.now (forms.Do e.now)) }
{
    match &e.kind {
        ExprKind::Begin(parts) => put_sequence(page, showing, parts.as_slice()),
        _ => put_expr(page, showing, e, LEVELS),
    }
}

// A sequence at top level, as the body of a `let`.
#[tactic(auto, using(crate::proofs::PagesAreJoined::adds_then))]
fn put_sequence(page: &mut Page, showing: &Showing<'_>, parts: &[Expr])
    ensures { Adds page.old page.new (Text (codes "(let ()") ⋄ (operands_text (shown showing.now.kernel.now showing.now.names.now showing.now.locals.now 199) parts.now ⋄ Text (codes ")"))) }
{
    put(page, b"(let ()");
    put_operands(page, showing, parts, LEVELS - 1);
    put(page, b")");
}
