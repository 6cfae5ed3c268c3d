//! Expressions.

ghost use Rattle.std.specs.Prelude.{◌≡◌, codes, slice_get};
ghost use Rattle.ps_kernel.specs.declared.expr.Expr.{Expr as ExprSpec, out-Expr};
ghost use Rattle.ps_kernel.specs.declared.expr.ExprKind.{out-ExprKind};
ghost use Rattle.ps_show.specs.InsidePages.{Adds};
ghost use Rattle.ps_show.specs.Shown.{Text, ◌⋄◌, behind, spaced};
ghost use Rattle.ps_show.specs.Words.{is_null, label_word, local_word};
ghost use Rattle.ps_show.specs.ShowText.{Whole, Quoted, Procedure, Parameters, Bindings, Binding, Group, Entry, Branch, LabelList, Else, is_unit, is_bare, is_bare_constant, place_of, operands_text, other_text, last_text, entries_text, branches_text, constant_text};
ghost use Rattle.ps_show.specs.InsideForms.{part, node, procedure, bare, bare_constant, space_before};

use crate::literals::{is_string, put_literal};
use crate::locals::Locals;
use crate::page::{BEGINNING, Page, deepen, put, put_integer};
use crate::words::{put_boolean, put_char, put_global, put_label, put_local, put_prim};
use ps_base::{Names, Place, Prim};
use ps_kernel::{CaseKind, Constant, Expr, ExprKind, GroupEntry, Kernel, Labelled};

/// What is shown: a kernel, the table of its names, and its locals in order of their binding.
#[derive(Drop)]
pub(crate) struct Showing<'a> {
    pub kernel: &'a Kernel,
    pub names: &'a Names,
    pub locals: &'a Locals,
}

/// An expression, where so many levels of brackets may be opened.
#[cycle(writing)]
pub(crate) fn put_expr(page: &mut Page, showing: &Showing<'_>, e: &Expr, levels: u32)
    ensures { Adds page.old page.new (part showing.now levels (Whole e.now)) }
{
    if is_bare(showing, &e.kind) {
        put_bare(page, showing, &e.kind);
        return;
    }
    if levels == 0 {
        deepen(page, e.place);
        return;
    }
    put(page, b"(");
    put_node(page, showing, e.place, &e.kind, levels - 1);
    put(page, b")");
}

// What stands in the brackets of an expression, and may open so many levels more.
#[cycle(writing)]
fn put_node(page: &mut Page, showing: &Showing<'_>, place: Place, kind: &ExprKind, levels: u32)
    ensures { Adds page.old page.new (node showing.now levels place kind.now) }
{
    match kind {
        ExprKind::Constant(constant) => put_constant(page, showing, place, *constant, levels),
        ExprKind::Local(_) => {}
        ExprKind::Global(_) => {}
        ExprKind::Lambda(lambda) => put_procedure(page, showing, place, *lambda, levels),
        ExprKind::If(test, yes, no) => {
            put(page, b"if ");
            put_expr(page, showing, test.get(), levels);
            put(page, b" ");
            put_expr(page, showing, yes.get(), levels);
            put_other(page, showing, no.get(), levels);
        }
        ExprKind::Let(local, value, body) => {
            put(page, b"let ");
            put_bindings(page, showing, place, *local, value.get(), levels);
            put(page, b" ");
            put_expr(page, showing, body.get(), levels);
        }
        ExprKind::Letrec(group, body) => {
            put(page, b"letrec ");
            put_group(page, showing, place, group.as_slice(), levels);
            put(page, b" ");
            put_expr(page, showing, body.get(), levels);
        }
        ExprKind::Begin(parts) => {
            put(page, b"begin");
            put_operands(page, showing, parts.as_slice(), levels);
        }
        ExprKind::SetGlobal(global, value) => {
            put(page, b"set! ");
            put_global(page, showing.kernel.main, *global);
            put(page, b" ");
            put_expr(page, showing, value.get(), levels);
        }
        ExprKind::SetLocal(local, value) => {
            put(page, b"set! ");
            put_local(page, showing.locals, *local);
            put(page, b" ");
            put_expr(page, showing, value.get(), levels);
        }
        ExprKind::Case(kind, key, branches, last) => {
            put(page, b"case ");
            put_expr(page, showing, key.get(), levels);
            put_branches(page, showing, place, *kind, branches.as_slice(), levels);
            put_last(page, showing, place, last.get(), levels);
        }
        ExprKind::Call(operator, operands) => {
            put_expr(page, showing, operator.get(), levels);
            put_operands(page, showing, operands.as_slice(), levels);
        }
        ExprKind::ProperCall(operator, operands) => {
            put(page, b"goto ");
            put_expr(page, showing, operator.get(), levels);
            put_operands(page, showing, operands.as_slice(), levels);
        }
        ExprKind::Primitive(prim, operands) => {
            put_prim(page, *prim);
            put_operands(page, showing, operands.as_slice(), levels);
        }
    }
}

// Operands or parts of a sequence, each behind a space.
#[cycle(writing)]
pub(crate) fn put_operands(page: &mut Page, showing: &Showing<'_>, es: &[Expr], levels: u32)
    ensures { Adds page.old page.new (operands_text (part showing.now levels) es.now) }
{
    for e in es {
        put(page, b" ");
        put_expr(page, showing, e, levels);
    }
}

// The last expression of an `if`, behind a space; nothing, where it is the constant unit.
#[cycle(writing)]
fn put_other(page: &mut Page, showing: &Showing<'_>, e: &Expr, levels: u32)
    ensures { Adds page.old page.new (other_text (part showing.now levels) e.now) }
{
    if is_unit(e) {
        return;
    }
    put(page, b" ");
    put_expr(page, showing, e, levels);
}

// The last expression of a `case`, behind a space; nothing, where it is the constant unit.
#[cycle(writing)]
fn put_last(page: &mut Page, showing: &Showing<'_>, place: Place, e: &Expr, levels: u32)
    ensures { Adds page.old page.new (last_text (part showing.now levels) place e.now) }
{
    if is_unit(e) {
        return;
    }
    put(page, b" ");
    if levels == 0 {
        deepen(page, place);
        return;
    }
    put(page, b"(");
    put(page, b"else ");
    put_expr(page, showing, e, levels - 1);
    put(page, b")");
}

// What a `let` binds.
#[cycle(writing)]
fn put_bindings(
    page: &mut Page,
    showing: &Showing<'_>,
    place: Place,
    local: u32,
    value: &Expr,
    levels: u32,
)
    ensures { Adds page.old page.new (part showing.now levels (Bindings place local value.now)) }
{
    if levels == 0 {
        deepen(page, place);
        return;
    }
    put(page, b"(");
    put_binding(page, showing, place, local, value, levels - 1);
    put(page, b")");
}

// Its one binding.
#[cycle(writing)]
fn put_binding(
    page: &mut Page,
    showing: &Showing<'_>,
    place: Place,
    local: u32,
    value: &Expr,
    levels: u32,
)
    ensures { Adds page.old page.new (part showing.now levels (Binding place local value.now)) }
{
    if levels == 0 {
        deepen(page, place);
        return;
    }
    put(page, b"(");
    put_local(page, showing.locals, local);
    put(page, b" ");
    put_expr(page, showing, value, levels - 1);
    put(page, b")");
}

// What a `letrec` binds.
#[cycle(writing)]
fn put_group(
    page: &mut Page,
    showing: &Showing<'_>,
    place: Place,
    group: &[GroupEntry],
    levels: u32,
)
    ensures { Adds page.old page.new (part showing.now levels (Group place group.now)) }
{
    if levels == 0 {
        deepen(page, place);
        return;
    }
    put(page, b"(");
    put_entries(page, showing, place, group, levels - 1);
    put(page, b")");
}

// Its bindings, with one space between them.
#[cycle(writing)]
fn put_entries(
    page: &mut Page,
    showing: &Showing<'_>,
    place: Place,
    group: &[GroupEntry],
    levels: u32,
)
    ensures { Adds page.old page.new (entries_text (part showing.now levels) place group.now) }
{
    for (i, entry) in group.iter().enumerate() {
        put_space(page, i);
        put_entry(page, showing, place, *entry, levels);
    }
}

// One of its bindings.
#[cycle(writing)]
fn put_entry(page: &mut Page, showing: &Showing<'_>, place: Place, entry: GroupEntry, levels: u32)
    ensures { Adds page.old page.new (part showing.now levels (Entry place entry)) }
{
    if levels == 0 {
        deepen(page, place);
        return;
    }
    put(page, b"(");
    put_local(page, showing.locals, entry.local);
    put(page, b" ");
    let at = place_of(showing.kernel, place, entry.lambda);
    put_lambda(page, showing, at, entry.lambda, levels - 1);
    put(page, b")");
}

// A lambda.
#[cycle(writing)]
fn put_lambda(page: &mut Page, showing: &Showing<'_>, place: Place, lambda: u32, levels: u32)
    ensures { Adds page.old page.new (part showing.now levels (Procedure place lambda)) }
{
    if levels == 0 {
        deepen(page, place);
        return;
    }
    put(page, b"(");
    put_procedure(page, showing, place, lambda, levels - 1);
    put(page, b")");
}

// A lambda without its brackets.
#[cycle(writing)]
fn put_procedure(page: &mut Page, showing: &Showing<'_>, place: Place, lambda: u32, levels: u32)
    ensures { Adds page.old page.new (procedure showing.now levels place lambda) }
{
    match showing.kernel.lambdas.get(lambda as usize) {
        Some(lambda) => {
            put(page, b"lambda ");
            put_parameters(page, showing, place, lambda.parameters.as_slice(), levels);
            put(page, b" ");
            put_expr(page, showing, &lambda.body, levels);
        }
        None => put(page, b"lambda"),
    }
}

// The branches of a `case`, each behind a space.
#[cycle(writing)]
fn put_branches(
    page: &mut Page,
    showing: &Showing<'_>,
    place: Place,
    kind: CaseKind,
    branches: &[Labelled],
    levels: u32,
)
    ensures { Adds page.old page.new (branches_text (part showing.now levels) place kind branches.now) }
{
    for branch in branches {
        put(page, b" ");
        put_branch(page, showing, place, kind, branch, levels);
    }
}

// One of its branches.
#[cycle(writing)]
fn put_branch(
    page: &mut Page,
    showing: &Showing<'_>,
    place: Place,
    kind: CaseKind,
    branch: &Labelled,
    levels: u32,
)
    ensures { Adds page.old page.new (part showing.now levels (Branch place kind branch.now)) }
{
    if levels == 0 {
        deepen(page, place);
        return;
    }
    put(page, b"(");
    put_label_list(
        page,
        showing,
        place,
        kind,
        branch.labels.as_slice(),
        levels - 1,
    );
    put(page, b" ");
    put_expr(page, showing, &branch.body, levels - 1);
    put(page, b")");
}

// The labels of a branch.
fn put_label_list(
    page: &mut Page,
    showing: &Showing<'_>,
    place: Place,
    kind: CaseKind,
    labels: &[i64],
    levels: u32,
)
    ensures { Adds page.old page.new (part showing.now levels (LabelList place kind labels.now)) }
{
    if levels == 0 {
        deepen(page, place);
        return;
    }
    put(page, b"(");
    put_labels(page, kind, labels);
    put(page, b")");
}

// Labels with one space between them.
fn put_labels(page: &mut Page, kind: CaseKind, labels: &[i64])
    ensures { Adds page.old page.new (spaced (label_word kind) labels.now) }
{
    for (i, label) in labels.iter().enumerate() {
        put_space(page, i);
        put_label(page, kind, label);
    }
}

// The parameters of a lambda.
fn put_parameters(
    page: &mut Page,
    showing: &Showing<'_>,
    place: Place,
    parameters: &[u32],
    levels: u32,
)
    ensures { Adds page.old page.new (part showing.now levels (Parameters place parameters.now)) }
{
    if levels == 0 {
        deepen(page, place);
        return;
    }
    put(page, b"(");
    put_locals(page, showing.locals, parameters);
    put(page, b")");
}

// Locals with one space between them.
fn put_locals(page: &mut Page, locals: &Locals, numbers: &[u32])
    ensures { Adds page.old page.new (spaced (local_word locals.now) numbers.now) }
{
    for (i, number) in numbers.iter().enumerate() {
        put_space(page, i);
        put_local(page, locals, *number);
    }
}

// The space before the member at a place: none before the first.
#[tactic(auto, using(crate::proofs::PagesAreJoined::adds_nothing))]
fn put_space(page: &mut Page, place: usize)
    ensures { Adds page.old page.new (space_before place) }
{
    if place != 0 {
        put(page, b" ");
    }
}

// The place of a lambda; that of the form around it, where it is not there.
fn place_of(kernel: &Kernel, place: Place, lambda: u32) -> Place
    ensures { result ≡ place_of place (slice_get kernel.now.lambdas lambda) }
{
    match kernel.lambdas.get(lambda as usize) {
        Some(lambda) => lambda.place,
        None => place,
    }
}

// Whether an expression is the constant unit.
fn is_unit(e: &Expr) -> bool
    ensures { result ≡ is_unit e.now }
{
    match &e.kind {
        ExprKind::Constant(Constant::Unit) => true,
        _ => false,
    }
}

// Whether an expression stands without brackets.
fn is_bare(showing: &Showing<'_>, kind: &ExprKind) -> bool
    ensures { result ≡ is_bare showing.now.kernel.now (out-ExprKind kind.now) }
{
    match kind {
        ExprKind::Constant(constant) => is_bare_constant(showing, *constant),
        ExprKind::Local(_) => true,
        ExprKind::Global(_) => true,
        ExprKind::Lambda(_) => false,
        ExprKind::If(_, _, _) => false,
        ExprKind::Let(_, _, _) => false,
        ExprKind::Letrec(_, _) => false,
        ExprKind::Begin(_) => false,
        ExprKind::SetGlobal(_, _) => false,
        ExprKind::SetLocal(_, _) => false,
        ExprKind::Case(_, _, _, _) => false,
        ExprKind::Call(_, _) => false,
        ExprKind::ProperCall(_, _) => false,
        ExprKind::Primitive(prim, _) => is_null(*prim),
    }
}

// The same of a constant.
fn is_bare_constant(showing: &Showing<'_>, constant: Constant) -> bool
    ensures { result ≡ is_bare_constant showing.now.kernel.now constant }
{
    match constant {
        Constant::Integer(_) => true,
        Constant::Boolean(_) => true,
        Constant::Char(_) => true,
        Constant::Unit => false,
        Constant::NullAddress => true,
        Constant::Quoted(number) => is_string(showing.kernel, number),
    }
}

// Whether a primitive is the null address.
fn is_null(prim: Prim) -> bool
    ensures { result ≡ is_null prim }
{
    match prim {
        Prim::NullAddress => true,
        _ => false,
    }
}

// An expression without brackets; nothing for the others.
#[tactic(auto, using(crate::proofs::PagesAreJoined::adds_nothing))]
fn put_bare(page: &mut Page, showing: &Showing<'_>, kind: &ExprKind)
    ensures { Adds page.old page.new (bare showing.now kind.now) }
{
    match kind {
        ExprKind::Constant(constant) => put_bare_constant(page, showing, *constant),
        ExprKind::Local(local) => put_local(page, showing.locals, *local),
        ExprKind::Global(global) => put_global(page, showing.kernel.main, *global),
        ExprKind::Lambda(_) => {}
        ExprKind::If(_, _, _) => {}
        ExprKind::Let(_, _, _) => {}
        ExprKind::Letrec(_, _) => {}
        ExprKind::Begin(_) => {}
        ExprKind::SetGlobal(_, _) => {}
        ExprKind::SetLocal(_, _) => {}
        ExprKind::Case(_, _, _, _) => {}
        ExprKind::Call(_, _) => {}
        ExprKind::ProperCall(_, _) => {}
        ExprKind::Primitive(_, _) => put(page, b"null-address"),
    }
}

// A constant without brackets; nothing for the constant unit.
#[tactic(auto, using(crate::proofs::PagesAreJoined::adds_nothing), unfolding(crate::specs::ShowText::bare_constant))]
fn put_bare_constant(page: &mut Page, showing: &Showing<'_>, constant: Constant)
    ensures { Adds page.old page.new (bare_constant showing.now constant) }
{
    match constant {
        Constant::Integer(integer) => put_integer(page, integer),
        Constant::Boolean(boolean) => put_boolean(page, boolean),
        Constant::Char(code) => put_char(page, code),
        Constant::Unit => {}
        Constant::NullAddress => put(page, b"null-address"),
        Constant::Quoted(number) => {
            put_literal(page, showing.kernel, showing.names, BEGINNING, 0, number);
        }
    }
}

// What stands in the brackets of a constant.
#[tactic(auto, using(crate::proofs::PagesAreJoined::adds_then), unfolding(crate::specs::ShowText::constant_text))]
fn put_constant(
    page: &mut Page,
    showing: &Showing<'_>,
    place: Place,
    constant: Constant,
    levels: u32,
)
    ensures { Adds page.old page.new (constant_text (part showing.now levels) place constant) }
{
    match constant {
        Constant::Integer(_) => put(page, b"unspecific"),
        Constant::Boolean(_) => put(page, b"unspecific"),
        Constant::Char(_) => put(page, b"unspecific"),
        Constant::Unit => put(page, b"unspecific"),
        Constant::NullAddress => put(page, b"unspecific"),
        Constant::Quoted(number) => {
            put(page, b"quote ");
            put_literal(page, showing.kernel, showing.names, place, levels, number);
        }
    }
}
