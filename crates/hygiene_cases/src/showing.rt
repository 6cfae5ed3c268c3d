//! What is written of forms.

use crate::trouble::Trouble;
use ps_base::{Bytes, Fault, Names};
use ps_datum::{has_known_names, write_datum};
use ps_hygiene::Meant;
use ps_pattern::{Binding, Syntax, datum_of};
use std::alloc::Global;

/// Appends bytes.
pub fn put(bytes: &[u8], page: &mut Bytes) -> Result<(), Trouble> {
    for byte in bytes {
        page.push(*byte)?;
    }
    Ok(())
}

/// Appends the text of a form that has no parts, without stamps.
pub fn put_atom(
    alloc: Global,
    names: &Names,
    form: &Syntax,
    page: &mut Bytes,
) -> Result<(), Trouble> {
    let datum = datum_of(alloc, form)?;
    if has_known_names(&datum, names) {
        write_datum(&datum, names, page)?;
    }
    Ok(())
}

/// Appends what an identifier means.
pub fn put_meant(alloc: Global, meant: Meant, page: &mut Bytes) -> Result<(), Trouble> {
    match meant.binding {
        Binding::Local(n) => put(format!(in alloc; ":l{n}")?.as_bytes(), page)?,
        Binding::Global(n) => put(format!(in alloc; ":g{n}")?.as_bytes(), page)?,
        Binding::Macro(n) => put(format!(in alloc; ":m{n}")?.as_bytes(), page)?,
        Binding::Core(_) => put(b":core", page)?,
        Binding::Primitive(_) => put(b":prim", page)?,
        Binding::Unbound(_) => put(b":free", page)?,
    }
    if meant.own {
        page.push(b'!')?;
    }
    Ok(())
}

/// Appends why a case has no other line: a fault of a form by its kind and its column.
pub fn put_trouble(alloc: Global, trouble: Trouble, page: &mut Bytes) -> Result<(), Trouble> {
    let text = match trouble {
        Trouble::Fault(Fault::Form(kind, place)) => {
            format!(in alloc; "{kind:?}@{}", place.column)?
        }
        Trouble::Fault(fault) => format!(in alloc; "{fault:?}")?,
        other => format!(in alloc; "{other:?}")?,
    };
    put(text.as_bytes(), page)
}
