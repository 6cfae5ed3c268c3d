//! Lists of identifiers.

ghost use Rattle.std.specs.Prelude.{◌≡◌, IfOk, MatchOption, Some, None};
ghost use Rattle.ps_pattern.specs.declared.syntax.SyntaxNode.{out-SyntaxNode};
ghost use Rattle.ps_pattern.specs.Compiling.{idents_of, list_parts as parts_spec, ident_at as ident_spec, literals_at};

use crate::keys::{Keys, keys_of};
use crate::syntax::{Ident, Syntax, SyntaxNode, copy_ident};
use ps_base::Items;
use std::alloc::{AllocError, Global};

pub fn list_parts(f: &Syntax) -> Option<&[Syntax]>
    ensures { MatchOption result (parts_spec (out-SyntaxNode f.now.node) ≡ None) (λ fs. parts_spec (out-SyntaxNode f.now.node) ≡ Some fs.now) }
{
    match &f.node {
        SyntaxNode::List(fs) => Some(fs.as_slice()),
        SyntaxNode::Ident(_)
        | SyntaxNode::Boolean(_)
        | SyntaxNode::Integer(_)
        | SyntaxNode::Char(_)
        | SyntaxNode::Text(_)
        | SyntaxNode::Dotted(_, _)
        | SyntaxNode::Vector(_) => None,
    }
}

pub fn ident_at(f: &Syntax) -> Option<&Ident>
    ensures { MatchOption result (ident_spec f.now ≡ None) (λ id. ident_spec f.now ≡ Some id.now) }
{
    match &f.node {
        SyntaxNode::Ident(id) => Some(id),
        SyntaxNode::List(_)
        | SyntaxNode::Boolean(_)
        | SyntaxNode::Integer(_)
        | SyntaxNode::Char(_)
        | SyntaxNode::Text(_)
        | SyntaxNode::Dotted(_, _)
        | SyntaxNode::Vector(_) => None,
    }
}

fn idents(alloc: Global, forms: &[Syntax]) -> Result<Option<Items<Ident>>, AllocError>
    ensures { IfOk result (λ r. r ≡ idents_of forms.now) }
{
    let mut ids = Items::new(alloc);
    for form in forms {
        match ident_at(form) {
            None => return Ok(None),
            Some(id) => ids.push(copy_ident(alloc, id)?)?,
        }
    }
    Ok(Some(ids))
}

/// The literals that a form lists.
pub fn literals_of(alloc: Global, form: &Syntax) -> Result<Option<Keys>, AllocError>
    ensures { IfOk result (λ r. r ≡ literals_at form.now) }
{
    match list_parts(form) {
        None => Ok(None),
        Some(forms) => match idents(alloc, forms)? {
            None => Ok(None),
            Some(ids) => Ok(Some(keys_of(alloc, ids.as_slice())?)),
        },
    }
}
