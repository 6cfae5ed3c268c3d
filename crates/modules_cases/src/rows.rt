//! Texts of many structures.

use std::alloc::{AllocError, Global};

/// The text of so many structures `s0`, `s1` and so on, of which each opens those before it, the nearest first, and at most so many
/// of them. Each exports a name of its own, and the last one `main`.
pub fn row_text(alloc: Global, structures: u64, opened: u64) -> Result<String, AllocError> {
    let mut text = String::new(alloc);
    for i in 0..structures {
        let export = export_of(alloc, i, structures)?;
        text.push_str(format!(in alloc;
            "(define-structure s{i} (export {export}) (open"
        )?.as_str())?;
        put_opened(alloc, i, opened, &mut text)?;
        text.push_str("))\n")?;
    }
    Ok(text)
}

// What the structure of this number exports, of so many.
fn export_of(alloc: Global, i: u64, structures: u64) -> Result<String, AllocError> {
    if i.saturating_add(1) == structures {
        String::from_str(alloc, "main")
    } else {
        format!(in alloc; "x{i}")
    }
}

// The names of the structures before this one, the nearest first, and at most so many.
fn put_opened(alloc: Global, i: u64, opened: u64, text: &mut String) -> Result<(), AllocError> {
    for j in (i.saturating_sub(opened)..i).rev() {
        text.push_str(format!(in alloc; " s{j}")?.as_str())?;
    }
    Ok(())
}
