//! Numbers by locals, 0 where there is none.

ghost use Rattle.std.specs.Prelude.{◌≡◌, ◌<◌, ◌≤◌, ℕ, get_or, length, set, MatchResult};

use ps_base::NoMemory;
use std::alloc::Allocator;

/// The number of a local.
pub fn top_of(tops: &[usize], x: u32) -> usize
    ensures { result ≡ get_or tops.now x 0 }
{
    match tops.get(x as usize) {
        Some(top) => *top,
        None => 0,
    }
}

/// There is room for the number of a local. No number changes.
pub fn make_room<A: Allocator>(tops: &mut Vec<usize, A>, x: u32) -> Result<(), NoMemory>
    ensures same { (y : ℕ) → get_or tops.new.items y 0 ≡ get_or tops.old.items y 0 }
    ensures room { MatchResult result (λ done. x < length tops.new.items) (λ e. x ≤ x) }
{
    while tops.as_slice().len() <= x as usize {
        tops.push(0)?;
    }
    Ok(())
}

/// A local has another number, if there is room for it.
pub fn set_top<A: Allocator>(tops: &mut Vec<usize, A>, x: u32, top: usize)
    ensures { tops.new.items ≡ set tops.old.items x top }
{
    let i = x as usize;
    if i < tops.as_slice().len() {
        tops[i] = top;
    }
}
