//! The lines of parts.

use crate::trouble::Trouble;
use ps_base::{Bytes, Names};
use ps_datum::{has_known_names, write_datum};
use ps_derived::{
    Binding, CaseClause, Clause, Defined, Field, Label, LoopBinding, Macro, Parts, Quoted,
    RecordType, TypeForm,
};
use ps_pattern::{Ident, Syntax, datum_of};
use std::alloc::Global;

/// Appends the parts of a special form.
pub fn put_parts(
    alloc: Global,
    names: &Names,
    parts: &Parts<'_>,
    page: &mut Bytes,
) -> Result<(), Trouble> {
    match parts {
        Parts::Define(defined) => put_defined(alloc, names, defined, page),
        Parts::DefineSyntax(rules) => put_macros(alloc, names, b"macro", &[*rules], page),
        Parts::RecordType(record_type) => put_record(alloc, names, record_type, page),
        Parts::Lambda(ids, body) => {
            put(b"lambda", page)?;
            put_idents(names, ids.as_slice(), page)?;
            put_forms(alloc, names, body, page)
        }
        Parts::If(test, consequent, alternative) => {
            put(b"if", page)?;
            put_form(alloc, names, test, page)?;
            put_form(alloc, names, consequent, page)?;
            put_optional(alloc, names, *alternative, page)
        }
        Parts::Let(bindings, body) => put_let(
            alloc,
            names,
            b"let",
            bindings.as_slice(),
            body,
            page,
        ),
        Parts::NamedLet(name, bindings, body) => {
            put(b"named", page)?;
            put_ident(names, name, page)?;
            put_let(alloc, names, b"", bindings.as_slice(), body, page)
        }
        Parts::LetStar(bindings, body) => {
            put_let(alloc, names, b"let*", bindings.as_slice(), body, page)
        }
        Parts::Letrec(bindings, body) => {
            put_let(alloc, names, b"letrec", bindings.as_slice(), body, page)
        }
        _ => put_more(alloc, names, parts, page),
    }
}

// Appends the parts of the other special forms.
fn put_more(
    alloc: Global,
    names: &Names,
    parts: &Parts<'_>,
    page: &mut Bytes,
) -> Result<(), Trouble> {
    match parts {
        Parts::Begin(body) => put_row(alloc, names, b"begin", &[], body, page),
        Parts::Set(name, value) => {
            put(b"set!", page)?;
            put_ident(names, name, page)?;
            put_form(alloc, names, value, page)
        }
        Parts::Quote(datum) => put_row(alloc, names, b"quote", &[*datum], &[], page),
        Parts::Cond(clauses, last) => {
            put(b"cond", page)?;
            put_clauses(alloc, names, clauses.as_slice(), page)?;
            put_last(alloc, names, *last, page)
        }
        Parts::Case(key, clauses, last) => {
            put(b"case", page)?;
            put_form(alloc, names, key, page)?;
            put_case_clauses(alloc, names, clauses.as_slice(), page)?;
            put_last(alloc, names, *last, page)
        }
        Parts::And(forms) => put_row(alloc, names, b"and", &[], forms, page),
        Parts::Or(forms) => put_row(alloc, names, b"or", &[], forms, page),
        Parts::Do(bindings, test, results, commands) => {
            put(b"do", page)?;
            put_loop_bindings(alloc, names, bindings.as_slice(), page)?;
            put_form(alloc, names, test, page)?;
            put_forms(alloc, names, results, page)?;
            put_forms(alloc, names, commands, page)
        }
        Parts::Goto(procedure, operands) => {
            put_row(alloc, names, b"goto", &[*procedure], operands, page)
        }
        Parts::LetSyntax(macros, body) => {
            put_macros(alloc, names, b"let-syntax", macros.as_slice(), page)?;
            put_forms(alloc, names, body, page)
        }
        Parts::LetrecSyntax(macros, body) => {
            put_macros(alloc, names, b"letrec-syntax", macros.as_slice(), page)?;
            put_forms(alloc, names, body, page)
        }
        _ => Ok(()),
    }
}

/// Appends bytes.
pub fn put(bytes: &[u8], page: &mut Bytes) -> Result<(), Trouble> {
    for byte in bytes {
        page.push(*byte)?;
    }
    Ok(())
}

// Appends a form behind a space.
fn put_form(alloc: Global, names: &Names, form: &Syntax, page: &mut Bytes) -> Result<(), Trouble> {
    put(b" ", page)?;
    let datum = datum_of(alloc, form)?;
    if has_known_names(&datum, names) {
        write_datum(&datum, names, page)?;
    }
    Ok(())
}

// Appends forms in brackets.
fn put_forms(
    alloc: Global,
    names: &Names,
    forms: &[Syntax],
    page: &mut Bytes,
) -> Result<(), Trouble> {
    put(b" [", page)?;
    for form in forms {
        put_form(alloc, names, form, page)?;
    }
    put(b" ]", page)
}

// Appends a word, forms, and forms in brackets.
fn put_row(
    alloc: Global,
    names: &Names,
    word: &[u8],
    first: &[&Syntax],
    rest: &[Syntax],
    page: &mut Bytes,
) -> Result<(), Trouble> {
    put(word, page)?;
    for form in first {
        put_form(alloc, names, form, page)?;
    }
    put_forms(alloc, names, rest, page)
}

fn put_optional(
    alloc: Global,
    names: &Names,
    form: Option<&Syntax>,
    page: &mut Bytes,
) -> Result<(), Trouble> {
    match form {
        None => put(b" -", page),
        Some(form) => put_form(alloc, names, form, page),
    }
}

fn put_last(
    alloc: Global,
    names: &Names,
    last: Option<&[Syntax]>,
    page: &mut Bytes,
) -> Result<(), Trouble> {
    match last {
        None => put(b" -", page),
        Some(forms) => put_forms(alloc, names, forms, page),
    }
}

// Appends an identifier behind a space.
fn put_ident(names: &Names, id: &Ident, page: &mut Bytes) -> Result<(), Trouble> {
    put(b" ", page)?;
    if id.name.0 < names.len() {
        put(names.text(id.name), page)?;
    }
    Ok(())
}

fn put_idents(names: &Names, ids: &[&Ident], page: &mut Bytes) -> Result<(), Trouble> {
    put(b" [", page)?;
    for id in ids {
        put_ident(names, id, page)?;
    }
    put(b" ]", page)
}

fn put_defined(
    alloc: Global,
    names: &Names,
    defined: &Defined<'_>,
    page: &mut Bytes,
) -> Result<(), Trouble> {
    match defined {
        Defined::Variable(name, value) => {
            put(b"variable", page)?;
            put_ident(names, name, page)?;
            put_form(alloc, names, value, page)
        }
        Defined::Procedure(name, parameters, body) => {
            put(b"procedure", page)?;
            put_ident(names, name, page)?;
            put_idents(names, parameters.as_slice(), page)?;
            put_forms(alloc, names, body, page)
        }
    }
}

fn put_let(
    alloc: Global,
    names: &Names,
    word: &[u8],
    bindings: &[Binding<'_>],
    body: &[Syntax],
    page: &mut Bytes,
) -> Result<(), Trouble> {
    put(word, page)?;
    for binding in bindings {
        put_ident(names, binding.name, page)?;
        put_form(alloc, names, binding.value, page)?;
    }
    put_forms(alloc, names, body, page)
}

fn put_loop_bindings(
    alloc: Global,
    names: &Names,
    bindings: &[LoopBinding<'_>],
    page: &mut Bytes,
) -> Result<(), Trouble> {
    for binding in bindings {
        put_ident(names, binding.name, page)?;
        put_form(alloc, names, binding.first, page)?;
        put_optional(alloc, names, binding.step, page)?;
    }
    Ok(())
}

fn put_macros(
    alloc: Global,
    names: &Names,
    word: &[u8],
    macros: &[Macro<'_>],
    page: &mut Bytes,
) -> Result<(), Trouble> {
    put(word, page)?;
    for rules in macros {
        put_ident(names, rules.keyword, page)?;
        put_form(alloc, names, rules.rules, page)?;
    }
    Ok(())
}

fn put_clauses(
    alloc: Global,
    names: &Names,
    clauses: &[Clause<'_>],
    page: &mut Bytes,
) -> Result<(), Trouble> {
    for clause in clauses {
        match clause {
            Clause::Alone(test) => put_row(alloc, names, b" alone", &[*test], &[], page)?,
            Clause::Arrow(test, receiver) => {
                put_row(alloc, names, b" arrow", &[*test, *receiver], &[], page)?
            }
            Clause::Then(test, body) => put_row(alloc, names, b" then", &[*test], body, page)?,
        }
    }
    Ok(())
}

fn put_case_clauses(
    alloc: Global,
    names: &Names,
    clauses: &[CaseClause<'_>],
    page: &mut Bytes,
) -> Result<(), Trouble> {
    for clause in clauses {
        put_labels(alloc, clause.labels.as_slice(), page)?;
        put_forms(alloc, names, clause.body, page)?;
    }
    Ok(())
}

fn put_labels(alloc: Global, labels: &[Label], page: &mut Bytes) -> Result<(), Trouble> {
    for label in labels {
        put(format!(in alloc; " {label:?}")?.as_bytes(), page)?;
    }
    Ok(())
}

fn put_record(
    alloc: Global,
    names: &Names,
    record_type: &RecordType<'_>,
    page: &mut Bytes,
) -> Result<(), Trouble> {
    put(b"record", page)?;
    put_idents(
        names,
        &[record_type.name, record_type.kind, record_type.maker],
        page,
    )?;
    for index in record_type.operands.as_slice() {
        put(format!(in alloc; " {index}")?.as_bytes(), page)?;
    }
    match record_type.predicate {
        None => put(b" -", page)?,
        Some(id) => put_ident(names, id, page)?,
    }
    put_fields(alloc, names, record_type.fields.as_slice(), page)
}

fn put_fields(
    alloc: Global,
    names: &Names,
    fields: &[Field<'_>],
    page: &mut Bytes,
) -> Result<(), Trouble> {
    for field in fields {
        put_idents(names, &[field.name, field.accessor], page)?;
        put_form(alloc, names, field.kind, page)?;
        match field.modifier {
            None => put(b" -", page)?,
            Some(id) => put_ident(names, id, page)?,
        }
    }
    Ok(())
}

/// Appends a constant.
pub fn put_quoted(
    alloc: Global,
    names: &Names,
    quoted: &Quoted<'_>,
    page: &mut Bytes,
) -> Result<(), Trouble> {
    match quoted {
        Quoted::Integer(x) => put(format!(in alloc; "integer {x}")?.as_bytes(), page),
        Quoted::Boolean(x) => put(format!(in alloc; "boolean {x}")?.as_bytes(), page),
        Quoted::Char(x) => put(format!(in alloc; "char {x}")?.as_bytes(), page),
        Quoted::Block(form) => {
            put(b"block", page)?;
            put_form(alloc, names, form, page)
        }
    }
}

/// Appends the type of a field.
pub fn put_type(names: &Names, form: &TypeForm, page: &mut Bytes) -> Result<(), Trouble> {
    match form {
        TypeForm::Integer => put(b"integer", page),
        TypeForm::Boolean => put(b"boolean", page),
        TypeForm::Char => put(b"char", page),
        TypeForm::Unit => put(b"unit", page),
        TypeForm::Address => put(b"address", page),
        TypeForm::Text => put(b"string", page),
        TypeForm::Vector(element) => {
            put(b"vector of ", page)?;
            put_type(names, element.get(), page)
        }
        TypeForm::Record(id) => {
            put(b"record", page)?;
            put_ident(names, id, page)
        }
    }
}
