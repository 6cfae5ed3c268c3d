//! What forms are made of.

ghost use Rattle.std.specs.Prelude.{◌≡◌, IfOk, map};
ghost use Rattle.std.specs.Option.{option_map, option_copied};
ghost use Rattle.ps_base.specs.Names.{number_of};
ghost use Rattle.ps_pattern.specs.Identifiers.{is_named as named_spec};
ghost use Rattle.ps_pattern.specs.Compiling.{ident_at as ident_spec};
ghost use Rattle.ps_derived.specs.Forms.{forms_of as forms_spec, idents_in as idents_spec, some as some_spec, operands_of as operands_spec, counts as counts_spec, is_unbound as unbound_spec};
ghost use Rattle.ps_derived.specs.Seen.{idents};

use ps_base::{Items, Names, NoMemory};
use ps_pattern::{Binding, Ident, Scope, Syntax, SyntaxNode};
use std::alloc::Global;

/// The forms of a list.
pub fn forms_of(form: &Syntax) -> Option<&[Syntax]>
    ensures { option_copied result ≡ forms_spec form.now }
{
    match &form.node {
        SyntaxNode::List(forms) => Some(forms.as_slice()),
        SyntaxNode::Ident(_)
        | SyntaxNode::Boolean(_)
        | SyntaxNode::Integer(_)
        | SyntaxNode::Char(_)
        | SyntaxNode::Text(_)
        | SyntaxNode::Dotted(_, _)
        | SyntaxNode::Vector(_) => None,
    }
}

/// The identifier that a form is.
pub fn ident_at(form: &Syntax) -> Option<&Ident>
    ensures { option_copied result ≡ ident_spec form.now }
{
    match &form.node {
        SyntaxNode::Ident(id) => Some(id),
        SyntaxNode::List(_)
        | SyntaxNode::Boolean(_)
        | SyntaxNode::Integer(_)
        | SyntaxNode::Char(_)
        | SyntaxNode::Text(_)
        | SyntaxNode::Dotted(_, _)
        | SyntaxNode::Vector(_) => None,
    }
}

/// The forms behind the name of a special form.
pub fn operands_of(form: &Syntax) -> Option<&[Syntax]>
    ensures { option_copied result ≡ operands_spec form.now }
{
    match forms_of(form)? {
        [] => None,
        [_, rest @ ..] => Some(rest),
    }
}

/// The forms, where there is at least one.
pub fn some(forms: &[Syntax]) -> Option<&[Syntax]>
    ensures { option_copied result ≡ some_spec forms.now }
{
    match forms {
        [] => None,
        [_, ..] => Some(forms),
    }
}

/// The identifiers that forms are.
pub fn idents_in<'a>(
    alloc: Global,
    forms: &'a [Syntax],
) -> Result<Option<Items<&'a Ident>>, NoMemory>
    ensures { IfOk result (λ r. option_map idents r ≡ idents_spec forms.now) }
{
    let mut ids = Items::new(alloc);
    for form in forms {
        match ident_at(form) {
            None => return Ok(None),
            Some(id) => ids.push(id)?,
        }
    }
    Ok(Some(ids))
}

/// The number of a text, where the table has it.
pub fn number(names: &Names, text: &[u8]) -> Option<u32>
    ensures { result ≡ number_of names.now text.now }
{
    match names.find(text) {
        None => None,
        Some(name) => Some(name.0),
    }
}

/// Whether an identifier has the base name of this number.
pub fn is_named(word: Option<u32>, id: &Ident) -> bool
    ensures { result ≡ named_spec word id.now }
{
    match word {
        None => false,
        Some(name) => name == id.name.0,
    }
}

fn is_unbound(binding: Binding) -> bool
    ensures { result ≡ unbound_spec binding }
{
    match binding {
        Binding::Unbound(_) => true,
        Binding::Local(_)
        | Binding::Global(_)
        | Binding::Macro(_)
        | Binding::Core(_)
        | Binding::Primitive(_) => false,
    }
}

/// Whether an identifier has this base name and is unbound.
pub fn counts<S: Scope>(scope: &S, word: Option<u32>, id: &Ident) -> bool
    ensures { result ≡ counts_spec (S.use_of scope.now) word id.now }
{
    is_named(word, id) && is_unbound(scope.at_use(id))
}
