//! The text of a form.

use crate::trouble::Trouble;
use ps_base::{Bytes, Names, Place};
use ps_datum::{has_known_names, write_datum};
use ps_pattern::{Ident, Syntax, SyntaxNode, datum_of};
use std::alloc::Global;

// Appends the text of a form that has no parts, without stamps.
fn put_atom(alloc: Global, names: &Names, form: &Syntax, page: &mut Bytes) -> Result<(), Trouble> {
    let datum = datum_of(alloc, form)?;
    if has_known_names(&datum, names) {
        write_datum(&datum, names, page)?;
    }
    Ok(())
}

// Appends stamps, each behind `'`.
fn put_stamps(alloc: Global, id: &Ident, page: &mut Bytes) -> Result<(), Trouble> {
    for stamp in id.stamps.as_slice() {
        put(format!(in alloc; "'{stamp}")?.as_bytes(), page)?;
    }
    Ok(())
}

/// Appends bytes.
pub fn put(bytes: &[u8], page: &mut Bytes) -> Result<(), Trouble> {
    for byte in bytes {
        page.push(*byte)?;
    }
    Ok(())
}

// Appends the text of forms, with a space between each two.
#[cycle(showing)]
fn put_forms(
    alloc: Global,
    names: &Names,
    places: bool,
    forms: &[Syntax],
    page: &mut Bytes,
) -> Result<(), Trouble> {
    for (i, form) in forms.iter().enumerate() {
        if i > 0 {
            page.push(b' ')?;
        }
        put_form(alloc, names, places, form, page)?;
    }
    Ok(())
}

// Appends the column of a form, if places are to be shown.
fn put_place(alloc: Global, places: bool, place: Place, page: &mut Bytes) -> Result<(), Trouble> {
    if places {
        put(format!(in alloc; "@{}", place.column)?.as_bytes(), page)?;
    }
    Ok(())
}

/// Appends the text of a form, with its column behind it, if places are to be shown.
#[cycle(showing)]
pub fn put_form(
    alloc: Global,
    names: &Names,
    places: bool,
    form: &Syntax,
    page: &mut Bytes,
) -> Result<(), Trouble> {
    match &form.node {
        SyntaxNode::Ident(id) => {
            put_atom(alloc, names, form, page)?;
            put_stamps(alloc, id, page)?;
        }
        SyntaxNode::List(forms) => {
            page.push(b'(')?;
            put_forms(alloc, names, places, forms.as_slice(), page)?;
            page.push(b')')?;
        }
        SyntaxNode::Vector(forms) => {
            put(b"#(", page)?;
            put_forms(alloc, names, places, forms.as_slice(), page)?;
            page.push(b')')?;
        }
        SyntaxNode::Dotted(forms, last) => {
            page.push(b'(')?;
            put_forms(alloc, names, places, forms.as_slice(), page)?;
            put(b" . ", page)?;
            put_form(alloc, names, places, last.get(), page)?;
            page.push(b')')?;
        }
        SyntaxNode::Boolean(_)
        | SyntaxNode::Integer(_)
        | SyntaxNode::Char(_)
        | SyntaxNode::Text(_) => put_atom(alloc, names, form, page)?,
    }
    put_place(alloc, places, form.place, page)
}
