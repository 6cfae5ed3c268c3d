//! How many pairs of an environment are bound to each local.

ghost use Rattle.std.specs.Prelude.{◌≡◌, ℕ, ◌+◌, ◌<◌, ◌≤◌, length, slice_index, OnOk};
ghost use Rattle.ps_scope.specs.InsideScopes.{one_if_local, HasCount};

use ps_pattern::Binding;
use sqlite_items::{Items, at};
use std::alloc::AllocError;

/// Makes room for the count of a binding, where it is a local.
///
/// # Errors
///
/// `AllocError` where memory ran out; then no count has changed.
pub fn make_room(counts: &mut Items<usize>, binding: Binding) -> Result<(), AllocError>
    ensures same { (l : ℕ) → slice_index counts.new l ≡ slice_index counts.old l }
    ensures room { OnOk result (HasCount counts.new binding) }
{
    match binding {
        Binding::Local(l) => widen(counts, l),
        Binding::Global(_)
        | Binding::Macro(_)
        | Binding::Core(_)
        | Binding::Primitive(_)
        | Binding::Unbound(_) => Ok(()),
    }
}

/// Counts a binding, where it is a local.
pub fn count_in(counts: &mut Items<usize>, binding: Binding)
    requires room { HasCount counts.old binding }
    requires few { (l : ℕ) → slice_index counts.old l < usize.MAX }
    ensures { (l : ℕ) → slice_index counts.new l ≡ one_if_local l binding + slice_index counts.old l }
{
    match binding {
        Binding::Local(l) => {
            let l = l as usize;
            let count = counts.as_slice()[l];
            counts.set(l, count + 1);
        }
        Binding::Global(_)
        | Binding::Macro(_)
        | Binding::Core(_)
        | Binding::Primitive(_)
        | Binding::Unbound(_) => {}
    }
}

/// Counts a binding no longer, where it is a local.
pub fn count_out(counts: &mut Items<usize>, binding: Binding)
    requires { (l : ℕ) → one_if_local l binding ≤ slice_index counts.old l }
    ensures { (l : ℕ) → one_if_local l binding + slice_index counts.new l ≡ slice_index counts.old l }
{
    match binding {
        Binding::Local(l) => {
            let l = l as usize;
            let count = counts.as_slice()[l];
            counts.set(l, count - 1);
        }
        Binding::Global(_)
        | Binding::Macro(_)
        | Binding::Core(_)
        | Binding::Primitive(_)
        | Binding::Unbound(_) => {}
    }
}

/// The count of a local.
pub fn count_of(counts: &[usize], local: u32) -> usize
    ensures { result ≡ slice_index counts.now local }
{
    match at(counts, local as usize) {
        Some(count) => *count,
        None => 0,
    }
}

fn widen(counts: &mut Items<usize>, local: u32) -> Result<(), AllocError>
    ensures same { (l : ℕ) → slice_index counts.new l ≡ slice_index counts.old l }
    ensures room { OnOk result (local < length counts.new) }
{
    for i in counts.len()..local as usize + 1 {
        let _ = i;
        counts.push(0)?;
    }
    Ok(())
}
