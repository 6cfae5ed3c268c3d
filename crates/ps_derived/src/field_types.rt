//! The types of the fields of records.

ghost use Rattle.std.specs.Prelude.{◌≡◌, IfOk};
ghost use Rattle.std.specs.Option.{option_map};
ghost use Rattle.ps_pattern.specs.Compiling.{ident_at as ident_spec};
ghost use Rattle.ps_derived.specs.Parts.{Answers};
ghost use Rattle.ps_derived.specs.declared.types.TypeForm.TheVariants as t;
ghost use Rattle.ps_derived.specs.FieldTypes.{type_words as words_spec, named_type as named_spec, type_of as type_spec, is_vector as vector_spec};

use crate::forms::{ident_at, is_named, number};
use crate::types::{TypeForm, TypeWords};
use ps_base::{Boxed, Fault, FormKind, Names, NoMemory, Place, Refusal};
use ps_pattern::{Ident, Syntax, SyntaxNode, copy_ident};
use std::alloc::Global;

/// The type that the form of a record's field stands for: one of the names `integer`, `boolean`, `char`, `unit`, `address` and `string`,
/// told by base name, `(vector t)`, or any other identifier, as the name of a record type.
///
/// # Errors
///
/// `BadForm` at the given place, that of the record type's form, exactly where the form is none of these; `NoMemory` where memory ran
/// out.
pub fn type_of(
    alloc: Global,
    form: &Syntax,
    names: &Names,
    place: Place,
) -> Result<TypeForm, Refusal>
    ensures { Answers (λ t. t) place (type_spec (words_spec names.now) form.now) result }
{
    let words = type_words(names);
    match type_at(alloc, &words, form)? {
        None => Err(Refusal::Fault(Fault::Form(FormKind::BadForm, place))),
        Some(form) => Ok(form),
    }
}

fn type_words(names: &Names) -> TypeWords
    ensures { result ≡ words_spec names.now }
{
    TypeWords {
        integer: number(names, b"integer"),
        boolean: number(names, b"boolean"),
        character: number(names, b"char"),
        unit: number(names, b"unit"),
        address: number(names, b"address"),
        text: number(names, b"string"),
        vector: number(names, b"vector"),
    }
}

fn named_type(alloc: Global, words: &TypeWords, id: &Ident) -> Result<TypeForm, NoMemory>
    ensures { IfOk result (λ r. r ≡ named_spec words.now id.now) }
{
    if is_named(words.integer, id) {
        Ok(TypeForm::Integer)
    } else if is_named(words.boolean, id) {
        Ok(TypeForm::Boolean)
    } else if is_named(words.character, id) {
        Ok(TypeForm::Char)
    } else if is_named(words.unit, id) {
        Ok(TypeForm::Unit)
    } else if is_named(words.address, id) {
        Ok(TypeForm::Address)
    } else if is_named(words.text, id) {
        Ok(TypeForm::Text)
    } else {
        Ok(TypeForm::Record(copy_ident(alloc, id)?))
    }
}

fn is_vector(words: &TypeWords, form: &Syntax) -> bool
    ensures { result ≡ vector_spec words.now (ident_spec form.now) }
{
    match ident_at(form) {
        None => false,
        Some(id) => is_named(words.vector, id),
    }
}

#[cycle(typing)]
#[tactic(auto, unfolding(crate::specs::FieldTypes::type_of, crate::specs::FieldTypes::type_view))]
fn type_at(alloc: Global, words: &TypeWords, form: &Syntax) -> Result<Option<TypeForm>, NoMemory>
    ensures { IfOk result (λ r. r ≡ type_spec words.now form.now) }
{
    match &form.node {
        SyntaxNode::Ident(id) => Ok(Some(named_type(alloc, words, id)?)),
        SyntaxNode::List(forms) => match forms.as_slice() {
            [head, element] => {
                if is_vector(words, head) {
                    vector_of(alloc, type_at(alloc, words, element)?)
                } else {
                    Ok(None)
                }
            }
            _ => Ok(None),
        },
        SyntaxNode::Boolean(_)
        | SyntaxNode::Integer(_)
        | SyntaxNode::Char(_)
        | SyntaxNode::Text(_)
        | SyntaxNode::Dotted(_, _)
        | SyntaxNode::Vector(_) => Ok(None),
    }
}

fn vector_of(alloc: Global, element: Option<TypeForm>) -> Result<Option<TypeForm>, NoMemory>
    ensures { IfOk result (λ r. r ≡ option_map t.Vector element) }
{
    match element {
        None => Ok(None),
        Some(element) => Ok(Some(TypeForm::Vector(Boxed::new(alloc, element)?))),
    }
}
