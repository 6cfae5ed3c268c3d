//! Forms: data whose identifiers carry the transcriptions that inserted them.

ghost use Rattle.std.specs.Prelude.{◌≡◌, take, IfOk};

use ps_base::{Boxed, Bytes, Items, Name, Place, Stamps};
use std::alloc::{AllocError, Global};

/// A list of forms.
pub type Nodes = Items<Syntax>;

/// An identifier: its base name, and the transcriptions that inserted it, the latest first.
#[derive(Drop)]
pub struct Ident {
    /// The name as a text has it.
    pub name: Name,
    /// The numbers of the transcriptions, the latest first.
    pub stamps: Stamps,
}

/// A form, with its place: that of its text, or of the macro use that inserted it.
#[cycle(syntax)]
#[derive(Drop)]
pub struct Syntax {
    /// Where it stands.
    pub place: Place,
    /// What it is.
    pub node: SyntaxNode,
}

/// What a form is.
#[cycle(syntax)]
#[derive(Drop)]
pub enum SyntaxNode {
    /// `#t` or `#f`
    Boolean(bool),
    /// An integer.
    Integer(i64),
    /// A character, by its code.
    Char(u8),
    /// A string, by its bytes.
    Text(Bytes),
    /// An identifier.
    Ident(Ident),
    /// `(f ...)`
    List(Nodes),
    /// `(f ... . last)`
    Dotted(Nodes, Boxed<Syntax>),
    /// `#(f ...)`
    Vector(Nodes),
}

/// A copy of an identifier.
pub fn copy_ident(alloc: Global, id: &Ident) -> Result<Ident, AllocError>
    ensures { IfOk result (λ r. r ≡ id.now) }
{
    Ok(Ident {
        name: id.name,
        stamps: Items::from_slice(alloc, id.stamps.as_slice())?,
    })
}

/// A copy of a form.
///
/// # Errors
///
/// `AllocError` where memory ran out.
#[cycle(copy)]
pub fn copy(alloc: Global, form: &Syntax) -> Result<Syntax, AllocError>
    ensures { IfOk result (λ r. r ≡ form.now) }
{
    let node = match &form.node {
        SyntaxNode::Boolean(b) => SyntaxNode::Boolean(*b),
        SyntaxNode::Integer(n) => SyntaxNode::Integer(*n),
        SyntaxNode::Char(c) => SyntaxNode::Char(*c),
        SyntaxNode::Text(bytes) => { SyntaxNode::Text(Items::from_slice(alloc, bytes.as_slice())?) }
        SyntaxNode::Ident(id) => SyntaxNode::Ident(copy_ident(alloc, id)?),
        SyntaxNode::List(parts) => SyntaxNode::List(copy_all(alloc, parts.as_slice())?),
        SyntaxNode::Dotted(parts, last) => {
            let parts = copy_all(alloc, parts.as_slice())?;
            SyntaxNode::Dotted(parts, Boxed::new(alloc, copy(alloc, last.get())?)?)
        }
        SyntaxNode::Vector(parts) => SyntaxNode::Vector(copy_all(alloc, parts.as_slice())?),
    };
    Ok(Syntax {
        place: form.place,
        node,
    })
}

/// A copy of forms.
#[cycle(copy)]
pub fn copy_all(alloc: Global, forms: &[Syntax]) -> Result<Nodes, AllocError>
    ensures { IfOk result (λ r. r ≡ forms.now) }
{
    let mut all = Items::new(alloc);
    for form in forms {
        all.push(copy(alloc, form)?)?;
    }
    Ok(all)
}
