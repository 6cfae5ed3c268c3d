//! How large and how deep forms are.

ghost use Rattle.std.specs.Prelude.{◌≡◌, nat_le, nat_lt, map};
ghost use Rattle.ps_pattern.specs.Filling.{size, sizes, taken};
ghost use Rattle.ps_hygiene.specs.Transcriptions.{nesting, deepest};

use ps_pattern::{Syntax, SyntaxNode};

// Takes a number from what is left, where there is as much.
fn take(left: Option<u64>, count: u64) -> Option<u64>
    ensures { result ≡ taken left count }
{
    match left {
        None => None,
        Some(left) => left.checked_sub(count),
    }
}

/// Takes the size of a form from what is left, where there is as much.
#[cycle(weigh)]
pub(crate) fn weigh(left: Option<u64>, form: &Syntax) -> Option<u64>
    ensures { result ≡ taken left (size form.now) }
{
    match &form.node {
        SyntaxNode::Boolean(_)
        | SyntaxNode::Integer(_)
        | SyntaxNode::Char(_)
        | SyntaxNode::Text(_)
        | SyntaxNode::Ident(_) => take(left, 1),
        SyntaxNode::List(parts) => weigh_all(take(left, 1), parts.as_slice()),
        SyntaxNode::Vector(parts) => weigh_all(take(left, 1), parts.as_slice()),
        SyntaxNode::Dotted(parts, last) => {
            weigh(weigh_all(take(left, 1), parts.as_slice()), last.get())
        }
    }
}

#[cycle(weigh)]
fn weigh_all(left: Option<u64>, forms: &[Syntax]) -> Option<u64>
    ensures { result ≡ taken left (sizes forms.now) }
{
    let mut left = left;
    for form in forms {
        match left {
            None => return None,
            Some(_) => {
                left = weigh(left, form);
            }
        }
    }
    left
}

/// Whether a form nests no deeper than so many levels. It is not looked at below these.
#[cycle(nests)]
#[tactic(auto, unfolding(crate::specs::Transcriptions::nesting))]
pub(crate) fn nests_within(levels: u64, form: &Syntax) -> bool
    ensures { result ≡ nat_le (nesting form.now) levels }
{
    match &form.node {
        SyntaxNode::Boolean(_)
        | SyntaxNode::Integer(_)
        | SyntaxNode::Char(_)
        | SyntaxNode::Text(_)
        | SyntaxNode::Ident(_) => true,
        SyntaxNode::List(parts) => all_nest_below(levels, parts.as_slice()),
        SyntaxNode::Vector(parts) => all_nest_below(levels, parts.as_slice()),
        SyntaxNode::Dotted(parts, last) => {
            all_nest_below(levels, parts.as_slice()) && nests_below(levels, last.get())
        }
    }
}

#[cycle(nests)]
fn nests_below(levels: u64, form: &Syntax) -> bool
    ensures { result ≡ nat_lt (nesting form.now) levels }
{
    levels > 0 && nests_within(levels - 1, form)
}

// Whether a list of these forms nests no deeper than so many levels.
#[cycle(nests)]
fn all_nest_below(levels: u64, forms: &[Syntax]) -> bool
    ensures { result ≡ nat_lt (deepest (map nesting forms.now)) levels }
{
    for form in forms {
        if !nests_below(levels, form) {
            return false;
        }
    }
    levels > 0
}
