//! Clauses of `cond` and `case`.

ghost use Rattle.std.specs.Prelude.{◌≡◌, IfOk, map};
ghost use Rattle.std.specs.Option.{option_map, option_copied};
ghost use Rattle.ps_derived.specs.Forms.{counts};
ghost use Rattle.ps_derived.specs.Clauses.{begins_with as begins_spec, is_word as word_spec, clause_in as clause_in_spec, clause_with as clause_with_spec, arrow_in as arrow_spec, else_body, clause_at as clause_spec, cond_clauses as cond_spec, case_clauses as case_spec, label_at as label_spec, labels_in as labels_spec, case_clause_at as case_clause_spec, case_clause_in as case_in_spec};
ghost use Rattle.ps_derived.specs.Seen.{seen_clause, seen_case_clause};
ghost use Rattle.ps_derived.specs.InsideClauses.{seen_cond, seen_case};
ghost use Rattle.ps_pattern.specs.Compiling.{ident_at as ident_spec};

use crate::forms::{counts, forms_of, ident_at, operands_of, some};
use crate::types::{CaseClause, Clause, Label};
use ps_base::{Items, NoMemory};
use ps_pattern::{Scope, Syntax, SyntaxNode};
use std::alloc::Global;

/// The clauses of `cond`, and the expressions of its `else` clause.
#[derive(Drop)]
pub struct CondClauses<'a> {
    pub clauses: Items<Clause<'a>>,
    pub last: Option<&'a [Syntax]>,
}

/// The clauses of `case`, and the expressions of its `else` clause.
#[derive(Drop)]
pub struct CaseClauses<'a> {
    pub clauses: Items<CaseClause<'a>>,
    pub last: Option<&'a [Syntax]>,
}

/// The clauses that forms are, where `else` and `=>` have these numbers.
pub fn cond_clauses<'a, S: Scope>(
    alloc: Global,
    scope: &S,
    otherwise: Option<u32>,
    arrow: Option<u32>,
    forms: &'a [Syntax],
) -> Result<Option<CondClauses<'a>>, NoMemory>
    ensures { IfOk result (λ r. option_map seen_cond r ≡ cond_spec (counts (S.use_of scope.now) otherwise) (counts (S.use_of scope.now) arrow) forms.now) }
{
    let mut clauses = Items::new(alloc);
    for (i, form) in forms.iter().enumerate() {
        if begins_with(scope, otherwise, form) {
            return match else_last(form, &forms[i + 1..]) {
                None => Ok(None),
                Some(body) => Ok(Some(CondClauses {
                    clauses,
                    last: Some(body),
                })),
            };
        }
        match clause_at(scope, arrow, form) {
            None => return Ok(None),
            Some(clause) => clauses.push(clause)?,
        }
    }
    Ok(Some(CondClauses {
        clauses,
        last: None,
    }))
}

/// The clauses that forms are, where `else` has this number.
pub fn case_clauses<'a, S: Scope>(
    alloc: Global,
    scope: &S,
    otherwise: Option<u32>,
    forms: &'a [Syntax],
) -> Result<Option<CaseClauses<'a>>, NoMemory>
    ensures { IfOk result (λ r. option_map seen_case r ≡ case_spec (counts (S.use_of scope.now) otherwise) forms.now) }
{
    let mut clauses = Items::new(alloc);
    for (i, form) in forms.iter().enumerate() {
        if begins_with(scope, otherwise, form) {
            return match else_last(form, &forms[i + 1..]) {
                None => Ok(None),
                Some(body) => Ok(Some(CaseClauses {
                    clauses,
                    last: Some(body),
                })),
            };
        }
        match case_clause_at(alloc, form)? {
            None => return Ok(None),
            Some(clause) => clauses.push(clause)?,
        }
    }
    Ok(Some(CaseClauses {
        clauses,
        last: None,
    }))
}

// Whether a form is a word that counts.
fn is_word<S: Scope>(scope: &S, word: Option<u32>, form: &Syntax) -> bool
    ensures { result ≡ word_spec (counts (S.use_of scope.now) word) (ident_spec form.now) }
{
    match ident_at(form) {
        None => false,
        Some(id) => counts(scope, word, id),
    }
}

// Whether a form is a list that begins with a word that counts.
fn begins_with<S: Scope>(scope: &S, word: Option<u32>, form: &Syntax) -> bool
    ensures { result ≡ begins_spec (counts (S.use_of scope.now) word) form.now }
{
    match forms_of(form) {
        None => false,
        Some(forms) => match forms {
            [] => false,
            [head, ..] => is_word(scope, word, head),
        },
    }
}

// The expressions of an `else` clause with these forms behind it.
fn else_last<'a>(form: &'a Syntax, behind: &[Syntax]) -> Option<&'a [Syntax]>
    ensures { option_copied result ≡ else_body form.now behind.now }
{
    match behind {
        [] => some(operands_of(form)?),
        [_, ..] => None,
    }
}

// A clause behind whose test these forms stand.
fn clause_with<'a, S: Scope>(
    scope: &S,
    arrow: Option<u32>,
    test: &'a Syntax,
    body: &'a [Syntax],
) -> Option<Clause<'a>>
    ensures { option_map seen_clause result ≡ clause_with_spec (counts (S.use_of scope.now) arrow) test.now body.now }
{
    match body {
        [] => Some(Clause::Alone(test)),
        [first, rest @ ..] => {
            if is_word(scope, arrow, first) {
                arrow_in(test, rest)
            } else {
                Some(Clause::Then(test, body))
            }
        }
    }
}

fn arrow_in<'a>(test: &'a Syntax, rest: &'a [Syntax]) -> Option<Clause<'a>>
    ensures { option_map seen_clause result ≡ arrow_spec test.now rest.now }
{
    match rest {
        [receiver] => Some(Clause::Arrow(test, receiver)),
        _ => None,
    }
}

fn clause_in<'a, S: Scope>(scope: &S, arrow: Option<u32>, forms: &'a [Syntax]) -> Option<Clause<'a>>
    ensures { option_map seen_clause result ≡ clause_in_spec (counts (S.use_of scope.now) arrow) forms.now }
{
    match forms {
        [] => None,
        [test, body @ ..] => clause_with(scope, arrow, test, body),
    }
}

fn clause_at<'a, S: Scope>(scope: &S, arrow: Option<u32>, form: &'a Syntax) -> Option<Clause<'a>>
    ensures { option_map seen_clause result ≡ clause_spec (counts (S.use_of scope.now) arrow) form.now }
{
    clause_in(scope, arrow, forms_of(form)?)
}

fn label_at(form: &Syntax) -> Option<Label>
    ensures { result ≡ label_spec form.now }
{
    match &form.node {
        SyntaxNode::Integer(x) => Some(Label::Integer(*x)),
        SyntaxNode::Char(x) => Some(Label::Char(*x)),
        SyntaxNode::Boolean(x) => Some(Label::Boolean(*x)),
        SyntaxNode::Text(_)
        | SyntaxNode::Ident(_)
        | SyntaxNode::List(_)
        | SyntaxNode::Dotted(_, _)
        | SyntaxNode::Vector(_) => None,
    }
}

fn labels_in(alloc: Global, forms: &[Syntax]) -> Result<Option<Items<Label>>, NoMemory>
    ensures { IfOk result (λ r. r ≡ labels_spec forms.now) }
{
    let mut labels = Items::new(alloc);
    for form in forms {
        match label_at(form) {
            None => return Ok(None),
            Some(label) => labels.push(label)?,
        }
    }
    Ok(Some(labels))
}

fn case_clause_in<'a>(
    alloc: Global,
    forms: &'a [Syntax],
) -> Result<Option<CaseClause<'a>>, NoMemory>
    ensures { IfOk result (λ r. option_map seen_case_clause r ≡ case_in_spec forms.now) }
{
    let [data, body @ ..] = forms else {
        return Ok(None);
    };
    let Some(body) = some(body) else {
        return Ok(None);
    };
    let Some(data) = forms_of(data) else {
        return Ok(None);
    };
    match labels_in(alloc, data)? {
        None => Ok(None),
        Some(labels) => Ok(Some(CaseClause { labels, body })),
    }
}

fn case_clause_at<'a>(alloc: Global, form: &'a Syntax) -> Result<Option<CaseClause<'a>>, NoMemory>
    ensures { IfOk result (λ r. option_map seen_case_clause r ≡ case_clause_spec form.now) }
{
    match forms_of(form) {
        None => Ok(None),
        Some(forms) => case_clause_in(alloc, forms),
    }
}
