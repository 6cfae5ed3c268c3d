//! What identifiers are told by.

ghost use Rattle.std.specs.Prelude.{◌≡◌, map, drop};
ghost use Rattle.ps_pattern.specs.Identifiers.{is_named as named_spec, dots_at, is_only, starts};

use crate::syntax::{Ident, Syntax, SyntaxNode};

/// Whether an identifier has this base name.
pub fn is_named(name: Option<u32>, id: &Ident) -> bool
    ensures { result ≡ named_spec name id.now }
{
    match name {
        None => false,
        Some(name) => name == id.name.0,
    }
}

/// Whether a form is `...`.
pub fn is_dots(dots: Option<u32>, form: &Syntax) -> bool
    ensures { result ≡ dots_at dots form.now }
{
    match &form.node {
        SyntaxNode::Ident(id) => is_named(dots, id),
        SyntaxNode::Boolean(_)
        | SyntaxNode::Integer(_)
        | SyntaxNode::Char(_)
        | SyntaxNode::Text(_)
        | SyntaxNode::List(_)
        | SyntaxNode::Dotted(_, _)
        | SyntaxNode::Vector(_) => false,
    }
}

/// Whether forms are `...` alone.
pub fn is_only_dots(dots: Option<u32>, forms: &[Syntax]) -> bool
    ensures { result ≡ is_only (map (dots_at dots) forms.now) }
{
    match forms {
        [] => false,
        [form, rest @ ..] => match rest {
            [] => is_dots(dots, form),
            [_, ..] => false,
        },
    }
}

/// Whether forms begin with `...`.
pub fn begins_in_dots(dots: Option<u32>, forms: &[Syntax]) -> bool
    ensures { result ≡ starts (map (dots_at dots) forms.now) }
{
    match forms {
        [] => false,
        [form, ..] => is_dots(dots, form),
    }
}

#[tactic(auto, using(crate::proofs::Rests::drop_all))]
pub fn after(forms: &[Syntax], n: usize) -> &[Syntax]
    ensures { result.now ≡ drop n forms.now }
{
    if n < forms.len() {
        &forms[n..]
    } else {
        &forms[forms.len()..]
    }
}
