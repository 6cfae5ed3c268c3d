//! Quoted data.

ghost use Rattle.std.specs.Prelude.{◌≡◌, map};
ghost use Rattle.std.specs.Option.{option_map};
ghost use Rattle.ps_derived.specs.Parts.{Answers};
ghost use Rattle.ps_derived.specs.Quotation.{quoted as quoted_spec, is_constant as constant_spec, node_constant as node_spec, some_constant as some_spec, all_constant as all_spec, block as block_spec};
ghost use Rattle.ps_derived.specs.Seen.{seen_quoted};

use crate::types::Quoted;
use ps_base::{Fault, FormKind, Place, Refusal};
use ps_pattern::{Syntax, SyntaxNode};

/// The constant that a quoted datum is (R5RS 4.1.2, in this project's profile): an integer, a boolean, a character, or a block, which is
/// a string or a vector of at least one such datum or vector.
///
/// # Errors
///
/// `BadForm` at the given place, that of the quotation, exactly where the datum is or holds an identifier, a list, a dotted list or an
/// empty vector.
pub fn quoted(form: &Syntax, place: Place) -> Result<Quoted<'_>, Refusal>
    ensures { Answers seen_quoted place (quoted_spec form.now) result }
{
    match quoted_at(form) {
        None => Err(Refusal::Fault(Fault::Form(FormKind::BadForm, place))),
        Some(quoted) => Ok(quoted),
    }
}

fn quoted_at(form: &Syntax) -> Option<Quoted<'_>>
    ensures { option_map seen_quoted result ≡ quoted_spec form.now }
{
    match &form.node {
        SyntaxNode::Integer(x) => Some(Quoted::Integer(*x)),
        SyntaxNode::Boolean(x) => Some(Quoted::Boolean(*x)),
        SyntaxNode::Char(x) => Some(Quoted::Char(*x)),
        SyntaxNode::Text(_) | SyntaxNode::Vector(_) => block(form),
        SyntaxNode::Ident(_) | SyntaxNode::List(_) | SyntaxNode::Dotted(_, _) => None,
    }
}

fn block(form: &Syntax) -> Option<Quoted<'_>>
    ensures { option_map seen_quoted result ≡ block_spec form.now }
{
    if is_constant(form) {
        Some(Quoted::Block(form))
    } else {
        None
    }
}

#[cycle(quoting)]
#[tactic(auto, unfolding(crate::specs::Quotation::is_constant, crate::specs::Quotation::node_constant))]
fn is_constant(form: &Syntax) -> bool
    ensures { result ≡ constant_spec form.now }
{
    is_constant_node(&form.node)
}

#[cycle(quoting)]
#[tactic(auto, unfolding(crate::specs::Quotation::is_constant, crate::specs::Quotation::node_constant))]
fn is_constant_node(node: &SyntaxNode) -> bool
    ensures { result ≡ node_spec node.now }
{
    match node {
        SyntaxNode::Integer(_)
        | SyntaxNode::Boolean(_)
        | SyntaxNode::Char(_)
        | SyntaxNode::Text(_) => true,
        SyntaxNode::Vector(parts) => are_some_constant(parts.as_slice()),
        SyntaxNode::Ident(_) | SyntaxNode::List(_) | SyntaxNode::Dotted(_, _) => false,
    }
}

#[cycle(quoting)]
fn are_some_constant(forms: &[Syntax]) -> bool
    ensures { result ≡ some_spec (map constant_spec forms.now) }
{
    !forms.is_empty() && are_constant(forms)
}

#[cycle(quoting)]
fn are_constant(forms: &[Syntax]) -> bool
    ensures { result ≡ all_spec (map constant_spec forms.now) }
{
    for form in forms {
        if !is_constant(form) {
            return false;
        }
    }
    true
}
