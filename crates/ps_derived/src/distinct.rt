//! Identifiers that are all different.

ghost use Rattle.std.specs.Prelude.{◌≡◌, IfOk};
ghost use Rattle.ps_derived.specs.Distinct.{are_distinct as distinct_spec};
ghost use Rattle.ps_derived.specs.Seen.{idents};

use crate::keys::Keys;
use ps_base::NoMemory;
use ps_pattern::Ident;
use std::alloc::Global;

/// Whether no identifier stands twice. Two are the same where they have one base name and the same stamps.
///
/// # Errors
///
/// `NoMemory` where memory ran out.
pub fn are_distinct(alloc: Global, ids: &[&Ident]) -> Result<bool, NoMemory>
    ensures { IfOk result (λ r. r ≡ distinct_spec (idents ids.now)) }
{
    let mut keys = Keys::new(alloc);
    for id in ids {
        let is_new = keys.add(id)?;
        if !is_new {
            return Ok(false);
        }
    }
    Ok(true)
}
