//! From data to forms, and back.

ghost use Rattle.std.specs.Prelude.{◌≡◌, map, IfOk};
ghost use Rattle.ps_pattern.specs.Conversions.{form_of, node_of as node_spec, data_of, kind_of as kind_spec};

use crate::syntax::{Ident, Nodes, Syntax, SyntaxNode};
use ps_base::{Boxed, Items, NoMemory};
use ps_datum::{Datum, DatumKind};
use std::alloc::Global;

/// The form of a datum, whose identifiers nothing has inserted.
///
/// # Errors
///
/// `NoMemory` where memory ran out.
#[cycle(to_forms)]
#[tactic(auto, unfolding(crate::specs::Conversions::form_of, crate::specs::Conversions::node_of))]
pub fn syntax_of(alloc: Global, datum: &Datum) -> Result<Syntax, NoMemory>
    ensures { IfOk result (λ r. r ≡ form_of datum.now) }
{
    Ok(Syntax {
        place: datum.place,
        node: node_of(alloc, &datum.kind)?,
    })
}

#[cycle(to_forms)]
#[tactic(auto, unfolding(crate::specs::Conversions::form_of, crate::specs::Conversions::node_of))]
fn node_of(alloc: Global, kind: &DatumKind) -> Result<SyntaxNode, NoMemory>
    ensures { IfOk result (λ r. r ≡ node_spec kind.now) }
{
    match kind {
        DatumKind::Boolean(x) => Ok(SyntaxNode::Boolean(*x)),
        DatumKind::Integer(x) => Ok(SyntaxNode::Integer(*x)),
        DatumKind::Char(x) => Ok(SyntaxNode::Char(*x)),
        DatumKind::Text(x) => Ok(SyntaxNode::Text(Items::from_slice(alloc, x.as_slice())?)),
        DatumKind::Symbol(name) => Ok(SyntaxNode::Ident(Ident {
            name: *name,
            stamps: Items::new(alloc),
        })),
        DatumKind::List(items) => Ok(SyntaxNode::List(all_of(alloc, items.as_slice())?)),
        DatumKind::Dotted(items, last) => {
            let forms = all_of(alloc, items.as_slice())?;
            let last = Boxed::new(alloc, syntax_of(alloc, last.get())?)?;
            Ok(SyntaxNode::Dotted(forms, last))
        }
        DatumKind::Vector(items) => Ok(SyntaxNode::Vector(all_of(alloc, items.as_slice())?)),
    }
}

#[cycle(to_forms)]
fn all_of(alloc: Global, items: &[Datum]) -> Result<Nodes, NoMemory>
    ensures { IfOk result (λ r. r ≡ map form_of items.now) }
{
    let mut forms = Items::new(alloc);
    for datum in items {
        forms.push(syntax_of(alloc, datum)?)?;
    }
    Ok(forms)
}

/// The datum of a form, whose names are the base names of its identifiers.
///
/// # Errors
///
/// `NoMemory` where memory ran out.
#[cycle(to_data)]
#[tactic(auto, unfolding(crate::specs::Conversions::data_of, crate::specs::Conversions::kind_of))]
pub fn datum_of(alloc: Global, form: &Syntax) -> Result<Datum, NoMemory>
    ensures { IfOk result (λ r. r ≡ data_of form.now) }
{
    Ok(Datum {
        place: form.place,
        kind: kind_of(alloc, &form.node)?,
    })
}

#[cycle(to_data)]
#[tactic(auto, unfolding(crate::specs::Conversions::data_of, crate::specs::Conversions::kind_of))]
fn kind_of(alloc: Global, node: &SyntaxNode) -> Result<DatumKind, NoMemory>
    ensures { IfOk result (λ r. r ≡ kind_spec node.now) }
{
    match node {
        SyntaxNode::Boolean(x) => Ok(DatumKind::Boolean(*x)),
        SyntaxNode::Integer(x) => Ok(DatumKind::Integer(*x)),
        SyntaxNode::Char(x) => Ok(DatumKind::Char(*x)),
        SyntaxNode::Text(x) => Ok(DatumKind::Text(Items::from_slice(alloc, x.as_slice())?)),
        SyntaxNode::Ident(id) => Ok(DatumKind::Symbol(id.name)),
        SyntaxNode::List(forms) => Ok(DatumKind::List(data_of_all(alloc, forms.as_slice())?)),
        SyntaxNode::Dotted(forms, last) => {
            let data = data_of_all(alloc, forms.as_slice())?;
            let last = Boxed::new(alloc, datum_of(alloc, last.get())?)?;
            Ok(DatumKind::Dotted(data, last))
        }
        SyntaxNode::Vector(forms) => Ok(DatumKind::Vector(data_of_all(alloc, forms.as_slice())?)),
    }
}

#[cycle(to_data)]
fn data_of_all(alloc: Global, forms: &[Syntax]) -> Result<Items<Datum>, NoMemory>
    ensures { IfOk result (λ r. r ≡ map data_of forms.now) }
{
    let mut data = Items::new(alloc);
    for form in forms {
        data.push(datum_of(alloc, form)?)?;
    }
    Ok(data)
}
