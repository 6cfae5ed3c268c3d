//! Whether the makers of records are such that they can be performed.

ghost use Rattle.std.specs.Prelude.{◌≡◌, true};
ghost use Rattle.ps_kernel.specs.Lists.{stands_in};
ghost use Rattle.ps_prims.specs.Kinds.{AreKinds};
ghost use Rattle.ps_evaluator.specs.InsideKinds.{all_filled, below, differ, has_all, is_filled};

use ps_types::RecordKind;

// Whether a number stands among others.
fn stands_in(x: usize, xs: &[u32]) -> bool
    ensures { result ≡ stands_in x xs.now }
{
    match xs {
        [] => false,
        [first, rest @ ..] => x == *first as usize || stands_in(x, rest),
    }
}

// Whether no number stands at two places.
fn differ(xs: &[u32]) -> bool
    ensures { result ≡ differ xs.now }
{
    match xs {
        [] => true,
        [first, rest @ ..] => !stands_in(*first as usize, rest) && differ(rest),
    }
}

// Whether each number is below n.
fn below(n: usize, xs: &[u32]) -> bool
    ensures { result ≡ below n xs.now }
{
    match xs {
        [] => true,
        [first, rest @ ..] => (*first as usize) < n && below(n, rest),
    }
}

// Whether each number below n stands there.
fn has_all(n: usize, xs: &[u32]) -> bool
    ensures { result ≡ has_all n xs.now }
{
    if n == 0 {
        return true;
    }
    stands_in(n - 1, xs) && has_all(n - 1, xs)
}

// Whether a kind has a field, and its maker names each once.
fn is_filled(kind: &RecordKind) -> bool
    ensures { result ≡ is_filled kind.now }
{
    let (count, maker) = (kind.fields.len(), kind.maker.as_slice());
    0 < count && has_all(count, maker) && below(count, maker) && differ(maker)
}

// The same of each kind.
fn all_filled(kinds: &[RecordKind]) -> bool
    ensures { result ≡ all_filled kinds.now }
{
    match kinds {
        [] => true,
        [kind, rest @ ..] => is_filled(kind) && all_filled(rest),
    }
}

/// Whether each kind of records has a field, and a maker that names each field once.
pub fn are_kinds(kinds: &[RecordKind]) -> bool
    ensures { result ≡ true → AreKinds kinds.now }
{
    all_filled(kinds)
}
