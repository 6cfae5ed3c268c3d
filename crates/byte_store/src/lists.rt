//! Lists of what may be set, by places that may lie outside them.

ghost use Rattle.std.specs.Prelude.{◌≡◌, ℕ, ℤ, pos, ◌≤◌, ◌^◌, List, [], ◌∷◌, ◌<◌, map, take, length, IfOk, MatchOption, MatchResult, Some, None, Result, Ok, Err};
ghost use Rattle.byte_store.specs.Blocks.{member, rest, window, overwritten};
ghost use Rattle.byte_store.specs.Operations.{and_then, inside, set, all_set, text_before_0};
ghost use Rattle.byte_store.specs.Store.{Copies};

use crate::fault::StoreFault;
use ps_base::{Bytes, Op};
use std::alloc::Global;

// The place as an index, where it has 64 bits and is not negative.
fn index(place: i128) -> Option<usize>
    ensures { MatchOption result ((n : ℕ) → place ≡ pos n → 2 ^ 64 ≤ n) (λ i. place ≡ pos i) }
{
    match usize::try_from(place) {
        Ok(i) => Some(i),
        Err(_) => None,
    }
}

/// What was set at a place.
///
/// # Errors
///
/// `Bounds` outside the list, and `Unset` where nothing was set.
pub fn member_at<T: Copy>(items: &[Option<T>], place: i128) -> Result<T, Op>
    ensures { result ≡ and_then (inside (member items.now place)) (λ x. set x) }
{
    let Some(i) = index(place) else {
        return Err(Op::Bounds);
    };
    match items.get(i) {
        None => Err(Op::Bounds),
        Some(None) => Err(Op::Unset),
        Some(Some(x)) => Ok(*x),
    }
}

/// What stands from a place on. The place behind the last item is one, too.
///
/// # Errors
///
/// `Bounds` outside the list.
pub fn rest_at<T>(items: &[Option<T>], place: i128) -> Result<&[Option<T>], Op>
    ensures { MatchResult result (λ found. rest items.now place ≡ Some found.now) (λ op. (op ≡ Op.Bounds) × (rest items.now place ≡ None)) }
{
    let Some(i) = index(place) else {
        return Err(Op::Bounds);
    };
    if items.len() < i {
        return Err(Op::Bounds);
    }
    Ok(&items[i..])
}

/// The place itself, where it is one of the list or the place behind the last item.
///
/// # Errors
///
/// `Bounds` outside the list.
pub fn place_in<T>(items: &[Option<T>], place: i128) -> Result<i64, Op>
    ensures { result ≡ and_then (inside (rest items.now place)) (λ found. Ok place) }
{
    if place < 0 || (items.len() as i128) < place {
        return Err(Op::Bounds);
    }
    Ok(place as i64)
}

/// The eight bytes from a place on.
///
/// # Errors
///
/// `Bounds` where the list has not so many there, and `Unset` where one of them was not set.
pub fn eight_at(bytes: &[Option<u8>], place: i128) -> Result<[u8; 8], Op>
    ensures { result ≡ and_then (inside (window 8 bytes.now place)) (λ bs. set (all_set bs)) }
{
    let rest = rest_at(bytes, place)?;
    if rest.len() < 8 {
        return Err(Op::Bounds);
    }
    let mut word = [0; 8];
    for i in 0..8 {
        match rest[i] {
            Some(byte) => word[i] = byte,
            None => return Err(Op::Unset),
        }
    }
    Ok(word)
}

/// Puts items in the places from a place on.
///
/// # Errors
///
/// `Bounds` where the list has not so many places there. It is then as it was.
pub fn overwrite<T: Copy>(items: &mut [Option<T>], place: i128, new: &[T]) -> Result<(), Op>
    ensures { MatchResult result
        (λ done. overwritten (map Some new.now) items.old place ≡ Some items.new)
        (λ op. (op ≡ Op.Bounds) × (overwritten (map Some new.now) items.old place ≡ None) × (items.new ≡ items.old)) }
{
    let Some(start) = index(place) else {
        return Err(Op::Bounds);
    };
    if items.len() < start || items.len() - start < new.len() {
        return Err(Op::Bounds);
    }
    for (i, item) in new.iter().enumerate() {
        items[start + i] = Some(*item);
    }
    Ok(())
}

/// Puts an item at a place.
///
/// # Errors
///
/// `Bounds` outside the list. It is then as it was.
pub fn put_at<T: Copy>(items: &mut [Option<T>], place: i128, new: T) -> Result<(), Op>
    ensures { MatchResult result
        (λ done. overwritten (Some new ∷ []) items.old place ≡ Some items.new)
        (λ op. (op ≡ Op.Bounds) × (overwritten (Some new ∷ []) items.old place ≡ None) × (items.new ≡ items.old)) }
{
    let Some(i) = index(place) else {
        return Err(Op::Bounds);
    };
    if items.len() <= i {
        return Err(Op::Bounds);
    }
    items[i] = Some(new);
    Ok(())
}

/// The number of bytes before the first byte 0.
///
/// # Errors
///
/// `Unset` where a byte before it was not set, and `Bounds` where there is none.
pub fn length_before_0(bytes: &[Option<u8>]) -> Result<usize, Op>
    ensures value { result ≡ text_before_0 bytes.now }
    ensures within { IfOk result (λ n. n < length bytes.now) }
{
    for (i, byte) in bytes.iter().enumerate() {
        match byte {
            None => return Err(Op::Unset),
            Some(0) => return Ok(i),
            Some(_) => {}
        }
    }
    Err(Op::Bounds)
}

/// A copy of so many items at the front.
///
/// # Errors
///
/// `Undefined(Unset)` where one of them was not set, and `NoMemory`.
pub fn copied_front(alloc: Global, items: &[Option<u8>], count: usize) -> Result<Bytes, StoreFault>
    requires { count ≤ length items.now }
    ensures { Copies result (set (all_set (take count items.now))) }
{
    let mut copy = Bytes::new(alloc);
    for item in &items[..count] {
        match item {
            Some(byte) => copy.push(*byte)?,
            None => return Err(StoreFault::Undefined(Op::Unset)),
        }
    }
    Ok(copy)
}
