//! Special forms, a row each.

ghost use Rattle.std.specs.Prelude.{◌≡◌, IfOk, None, codes};
ghost use Rattle.std.specs.Option.{option_map};
ghost use Rattle.ps_base.specs.Names.{number_of};
ghost use Rattle.ps_derived.specs.Forms.{counts, some as some_spec};
ghost use Rattle.ps_derived.specs.Parts.{Answers, parts_of, row as row_spec, defined_in as defined_spec, defined_by as by_spec, variable_in as variable_spec, procedure_in as procedure_spec, lambda_in as lambda_spec, if_in as if_spec, let_in as let_spec, set_in as set_spec, quote_in as quote_spec, case_in as case_spec, do_in as do_spec, do_by as do_by_spec, goto_in as goto_spec};
ghost use Rattle.ps_derived.specs.Parts.{let_for, named_let_for, let_star_for, letrec_for, cond_for, let_syntax_for, letrec_syntax_for};
ghost use Rattle.ps_derived.specs.PartsOf as p;
ghost use Rattle.ps_derived.specs.Bindings.{bound_in as bound_spec, around_in as around_spec, macro_in as macro_spec};
ghost use Rattle.ps_derived.specs.Clauses.{cond_clauses as cond_spec};
ghost use Rattle.ps_derived.specs.Records.{record_in as record_spec};
ghost use Rattle.ps_derived.specs.Seen.{seen, seen_defined};

use crate::bindings::{
    Around, Bound, around_in, bound_in, different_idents, different_loop_bindings, macro_in,
};
use crate::clauses::{CaseClauses, CondClauses, case_clauses, cond_clauses};
use crate::forms::{forms_of, ident_at, idents_in, number, operands_of, some};
use crate::records::record_in;
use crate::types::{Defined, Parts};
use ps_base::{Core, Fault, FormKind, Names, NoMemory, Refusal};
use ps_pattern::{Ident, Scope, Syntax};
use std::alloc::Global;

/// The parts of a special form, by the shape of its row. They refer to the form.
///
/// `else` and `=>` are told by the base name of an identifier, and count where it is unbound at the place of use. A name twice in the
/// parameters of a `lambda` or in one list of bindings breaks the shape, also in `let*`; in the parameters of `define` it does not. A body
/// is at least one form, and is not looked into, nor are the rules of a macro, a quoted datum and the type of a field.
///
/// # Errors
///
/// `BadForm` at the form's place exactly where it has not the shape, and `NoMemory` where memory ran out.
pub fn parts<'a, S: Scope>(
    alloc: Global,
    core: Core,
    form: &'a Syntax,
    names: &Names,
    scope: &S,
) -> Result<Parts<'a>, Refusal>
    ensures { Answers seen form.now.place (parts_of (counts (S.use_of scope.now) (number_of names.now (codes "else"))) (counts (S.use_of scope.now) (number_of names.now (codes "=>"))) core form.now) result }
{
    let otherwise = number(names, b"else");
    let arrow = number(names, b"=>");
    match parts_at(alloc, core, form, otherwise, arrow, scope)? {
        None => Err(Refusal::Fault(Fault::Form(FormKind::BadForm, form.place))),
        Some(parts) => Ok(parts),
    }
}

fn parts_at<'a, S: Scope>(
    alloc: Global,
    core: Core,
    form: &'a Syntax,
    otherwise: Option<u32>,
    arrow: Option<u32>,
    scope: &S,
) -> Result<Option<Parts<'a>>, NoMemory>
    ensures { IfOk result (λ r. option_map seen r ≡ parts_of (counts (S.use_of scope.now) otherwise) (counts (S.use_of scope.now) arrow) core form.now) }
{
    match operands_of(form) {
        None => Ok(None),
        Some(forms) => row(alloc, core, forms, otherwise, arrow, scope),
    }
}

fn row<'a, S: Scope>(
    alloc: Global,
    core: Core,
    forms: &'a [Syntax],
    otherwise: Option<u32>,
    arrow: Option<u32>,
    scope: &S,
) -> Result<Option<Parts<'a>>, NoMemory>
    ensures { IfOk result (λ r. option_map seen r ≡ row_spec (counts (S.use_of scope.now) otherwise) (counts (S.use_of scope.now) arrow) core forms.now) }
{
    match core {
        Core::Define => define_row(alloc, forms),
        Core::DefineSyntax => Ok(define_syntax_row(forms)),
        Core::DefineRecordType => record_row(alloc, forms),
        Core::Lambda => lambda_row(alloc, forms),
        Core::If => Ok(if_row(forms)),
        Core::Let => let_row(alloc, forms),
        Core::LetStar => let_star_row(alloc, forms),
        Core::Letrec => letrec_row(alloc, forms),
        Core::Begin => Ok(begin_row(forms)),
        Core::Set => Ok(set_row(forms)),
        Core::Quote => Ok(quote_row(forms)),
        Core::Cond => cond_row(alloc, scope, otherwise, arrow, forms),
        Core::Case => case_row(alloc, scope, otherwise, forms),
        Core::And => Ok(Some(Parts::And(forms))),
        Core::Or => Ok(Some(Parts::Or(forms))),
        Core::Do => do_row(alloc, forms),
        Core::Goto => Ok(goto_row(forms)),
        Core::LetSyntax => let_syntax_row(alloc, forms),
        Core::LetrecSyntax => letrec_syntax_row(alloc, forms),
    }
}

fn define_row<'a>(alloc: Global, forms: &'a [Syntax]) -> Result<Option<Parts<'a>>, NoMemory>
    ensures { IfOk result (λ r. option_map seen r ≡ option_map p.Define (defined_spec forms.now)) }
{
    match defined_in(alloc, forms)? {
        None => Ok(None),
        Some(defined) => Ok(Some(Parts::Define(defined))),
    }
}

fn defined_in<'a>(alloc: Global, forms: &'a [Syntax]) -> Result<Option<Defined<'a>>, NoMemory>
    ensures { IfOk result (λ r. option_map seen_defined r ≡ defined_spec forms.now) }
{
    match forms {
        [] => Ok(None),
        [head, rest @ ..] => match ident_at(head) {
            Some(name) => Ok(variable_in(name, rest)),
            None => procedure_at(alloc, head, rest),
        },
    }
}

fn variable_in<'a>(name: &'a Ident, forms: &'a [Syntax]) -> Option<Defined<'a>>
    ensures { option_map seen_defined result ≡ variable_spec name.now forms.now }
{
    match forms {
        [value] => Some(Defined::Variable(name, value)),
        _ => None,
    }
}

fn procedure_at<'a>(
    alloc: Global,
    head: &'a Syntax,
    rest: &'a [Syntax],
) -> Result<Option<Defined<'a>>, NoMemory>
    ensures { IfOk result (λ r. option_map seen_defined r ≡ by_spec None head.now rest.now) }
{
    let Some(body) = some(rest) else {
        return Ok(None);
    };
    match forms_of(head) {
        None => Ok(None),
        Some(forms) => procedure_in(alloc, body, forms),
    }
}

fn procedure_in<'a>(
    alloc: Global,
    body: &'a [Syntax],
    forms: &'a [Syntax],
) -> Result<Option<Defined<'a>>, NoMemory>
    ensures { IfOk result (λ r. option_map seen_defined r ≡ procedure_spec body.now forms.now) }
{
    let [name, parameters @ ..] = forms else {
        return Ok(None);
    };
    let Some(name) = ident_at(name) else {
        return Ok(None);
    };
    match idents_in(alloc, parameters)? {
        None => Ok(None),
        Some(parameters) => Ok(Some(Defined::Procedure(name, parameters, body))),
    }
}

fn define_syntax_row(forms: &[Syntax]) -> Option<Parts<'_>>
    ensures { option_map seen result ≡ option_map p.DefineSyntax (macro_spec forms.now) }
{
    match macro_in(forms) {
        None => None,
        Some(rules) => Some(Parts::DefineSyntax(rules)),
    }
}

fn record_row<'a>(alloc: Global, forms: &'a [Syntax]) -> Result<Option<Parts<'a>>, NoMemory>
    ensures { IfOk result (λ r. option_map seen r ≡ option_map p.RecordType (record_spec forms.now)) }
{
    match record_in(alloc, forms)? {
        None => Ok(None),
        Some(record_type) => Ok(Some(Parts::RecordType(record_type))),
    }
}

fn lambda_row<'a>(alloc: Global, forms: &'a [Syntax]) -> Result<Option<Parts<'a>>, NoMemory>
    ensures { IfOk result (λ r. option_map seen r ≡ lambda_spec forms.now) }
{
    let [parameters, body @ ..] = forms else {
        return Ok(None);
    };
    let Some(body) = some(body) else {
        return Ok(None);
    };
    match different_idents(alloc, parameters)? {
        None => Ok(None),
        Some(parameters) => Ok(Some(Parts::Lambda(parameters, body))),
    }
}

fn if_row(forms: &[Syntax]) -> Option<Parts<'_>>
    ensures { option_map seen result ≡ if_spec forms.now }
{
    match forms {
        [test, consequent] => Some(Parts::If(test, consequent, None)),
        [test, consequent, alternative] => Some(Parts::If(test, consequent, Some(alternative))),
        _ => None,
    }
}

fn let_row<'a>(alloc: Global, forms: &'a [Syntax]) -> Result<Option<Parts<'a>>, NoMemory>
    ensures { IfOk result (λ r. option_map seen r ≡ let_spec forms.now) }
{
    match forms {
        [] => Ok(None),
        [first, rest @ ..] => match ident_at(first) {
            Some(name) => named_let_row(alloc, name, rest),
            None => plain_let_row(alloc, forms),
        },
    }
}

fn named_let_row<'a>(
    alloc: Global,
    name: &'a Ident,
    forms: &'a [Syntax],
) -> Result<Option<Parts<'a>>, NoMemory>
    ensures { IfOk result (λ r. option_map seen r ≡ option_map (named_let_for name.now) (bound_spec forms.now)) }
{
    match bound_in(alloc, forms)? {
        None => Ok(None),
        Some(Bound { bindings, body }) => Ok(Some(Parts::NamedLet(name, bindings, body))),
    }
}

fn plain_let_row<'a>(alloc: Global, forms: &'a [Syntax]) -> Result<Option<Parts<'a>>, NoMemory>
    ensures { IfOk result (λ r. option_map seen r ≡ option_map let_for (bound_spec forms.now)) }
{
    match bound_in(alloc, forms)? {
        None => Ok(None),
        Some(Bound { bindings, body }) => Ok(Some(Parts::Let(bindings, body))),
    }
}

fn let_star_row<'a>(alloc: Global, forms: &'a [Syntax]) -> Result<Option<Parts<'a>>, NoMemory>
    ensures { IfOk result (λ r. option_map seen r ≡ option_map let_star_for (bound_spec forms.now)) }
{
    match bound_in(alloc, forms)? {
        None => Ok(None),
        Some(Bound { bindings, body }) => Ok(Some(Parts::LetStar(bindings, body))),
    }
}

fn letrec_row<'a>(alloc: Global, forms: &'a [Syntax]) -> Result<Option<Parts<'a>>, NoMemory>
    ensures { IfOk result (λ r. option_map seen r ≡ option_map letrec_for (bound_spec forms.now)) }
{
    match bound_in(alloc, forms)? {
        None => Ok(None),
        Some(Bound { bindings, body }) => Ok(Some(Parts::Letrec(bindings, body))),
    }
}

fn begin_row(forms: &[Syntax]) -> Option<Parts<'_>>
    ensures { option_map seen result ≡ option_map p.Begin (some_spec forms.now) }
{
    match some(forms) {
        None => None,
        Some(forms) => Some(Parts::Begin(forms)),
    }
}

fn set_row(forms: &[Syntax]) -> Option<Parts<'_>>
    ensures { option_map seen result ≡ set_spec forms.now }
{
    match forms {
        [name, value] => {
            let name = ident_at(name)?;
            Some(Parts::Set(name, value))
        }
        _ => None,
    }
}

fn quote_row(forms: &[Syntax]) -> Option<Parts<'_>>
    ensures { option_map seen result ≡ quote_spec forms.now }
{
    match forms {
        [datum] => Some(Parts::Quote(datum)),
        _ => None,
    }
}

fn cond_row<'a, S: Scope>(
    alloc: Global,
    scope: &S,
    otherwise: Option<u32>,
    arrow: Option<u32>,
    forms: &'a [Syntax],
) -> Result<Option<Parts<'a>>, NoMemory>
    ensures { IfOk result (λ r. option_map seen r ≡ option_map cond_for (cond_spec (counts (S.use_of scope.now) otherwise) (counts (S.use_of scope.now) arrow) forms.now)) }
{
    match cond_clauses(alloc, scope, otherwise, arrow, forms)? {
        None => Ok(None),
        Some(CondClauses { clauses, last }) => Ok(Some(Parts::Cond(clauses, last))),
    }
}

fn case_row<'a, S: Scope>(
    alloc: Global,
    scope: &S,
    otherwise: Option<u32>,
    forms: &'a [Syntax],
) -> Result<Option<Parts<'a>>, NoMemory>
    ensures { IfOk result (λ r. option_map seen r ≡ case_spec (counts (S.use_of scope.now) otherwise) forms.now) }
{
    let [key, clauses @ ..] = forms else {
        return Ok(None);
    };
    match case_clauses(alloc, scope, otherwise, clauses)? {
        None => Ok(None),
        Some(CaseClauses { clauses, last }) => Ok(Some(Parts::Case(key, clauses, last))),
    }
}

fn do_row<'a>(alloc: Global, forms: &'a [Syntax]) -> Result<Option<Parts<'a>>, NoMemory>
    ensures { IfOk result (λ r. option_map seen r ≡ do_spec forms.now) }
{
    let [bindings, end, commands @ ..] = forms else {
        return Ok(None);
    };
    match forms_of(end) {
        None => Ok(None),
        Some(end) => do_by(alloc, bindings, commands, end),
    }
}

// A loop with this end, `(t e ...)`.
fn do_by<'a>(
    alloc: Global,
    bindings: &'a Syntax,
    commands: &'a [Syntax],
    end: &'a [Syntax],
) -> Result<Option<Parts<'a>>, NoMemory>
    ensures { IfOk result (λ r. option_map seen r ≡ do_by_spec bindings.now commands.now end.now) }
{
    let [test, results @ ..] = end else {
        return Ok(None);
    };
    match different_loop_bindings(alloc, bindings)? {
        None => Ok(None),
        Some(bindings) => Ok(Some(Parts::Do(bindings, test, results, commands))),
    }
}

fn goto_row(forms: &[Syntax]) -> Option<Parts<'_>>
    ensures { option_map seen result ≡ goto_spec forms.now }
{
    match forms {
        [] => None,
        [procedure, operands @ ..] => Some(Parts::Goto(procedure, operands)),
    }
}

fn let_syntax_row<'a>(alloc: Global, forms: &'a [Syntax]) -> Result<Option<Parts<'a>>, NoMemory>
    ensures { IfOk result (λ r. option_map seen r ≡ option_map let_syntax_for (around_spec forms.now)) }
{
    match around_in(alloc, forms)? {
        None => Ok(None),
        Some(Around { macros, body }) => Ok(Some(Parts::LetSyntax(macros, body))),
    }
}

fn letrec_syntax_row<'a>(alloc: Global, forms: &'a [Syntax]) -> Result<Option<Parts<'a>>, NoMemory>
    ensures { IfOk result (λ r. option_map seen r ≡ option_map letrec_syntax_for (around_spec forms.now)) }
{
    match around_in(alloc, forms)? {
        None => Ok(None),
        Some(Around { macros, body }) => Ok(Some(Parts::LetrecSyntax(macros, body))),
    }
}
