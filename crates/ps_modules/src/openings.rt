//! Whether two opened names give one name different bindings.

ghost use Rattle.std.specs.Prelude.{◌≡◌, List, [], ◌∷◌, ◌++◌, map, None, Some, IfOk, OnOk, slice_get};
ghost use Rattle.ps_modules.specs.BuiltIn.{all_names};
ghost use Rattle.ps_modules.specs.InsideOpenings.{Takes};
ghost use Rattle.ps_modules.specs.Openings.{given_by, numbers_in, names_of, exports_by, gives, owner_of, taken, all_taken, two_opened, same_owner};

use crate::built_in::{LANGUAGE, MEMORY, RECORDS};
use crate::types::{Export, Opened, Structure};
use indexmap::IndexMap;
use ps_base::{Names, NoMemory, Place};
use std::alloc::Global;
use std::marker::Model;

/// What an opened name means, and where it stands.
#[derive(Clone, Copy, Debug)]
pub struct Meant {
    pub place: Place,
    pub opened: Opened,
}

/// The first opened name that gives a name another binding than those before it, where these structures were linked.
pub(crate) fn two_opened(
    alloc: Global,
    names: &Names,
    order: &[Structure],
    meants: &[Meant],
) -> Result<Option<Place>, NoMemory>
    ensures { IfOk result (λ place. place ≡ two_opened names.now order.now [] meants.now) }
{
    let mut known = Known::new(alloc);
    for meant in meants {
        if !take_opened(names, order, meant.opened, &mut known)? {
            return Ok(Some(meant.place));
        }
    }
    Ok(None)
}

/// Whose names are: of the language, or of the structure of this number.
#[derive(Drop)]
struct Known {
    owners: IndexMap<u32, Option<u32>>,
}

impl Model for Known {
    ghost use Rattle.std.specs.Prelude.{ℕ, List, Option};

    ghost Value = { List (ℕ × Option ℕ) };

    ghost view = { λ s. s.owners.entries };
}

impl Known {
    fn new(alloc: Global) -> Known
        ensures { result ≡ [] }
    {
        Known {
            owners: IndexMap::new(alloc),
        }
    }

    fn owner(&self, name: u32) -> Option<Option<u32>>
        ensures { result ≡ owner_of self.now name }
    {
        match self.owners.get(&name) {
            Some(owner) => Some(*owner),
            None => None,
        }
    }

    fn push(&mut self, name: u32, owner: Option<u32>) -> Result<(), NoMemory>
        requires { owner_of self.old name ≡ None }
        ensures { OnOk result (self.new ≡ self.old ++ (name, owner) ∷ []) }
    {
        self.owners.insert(name, owner)?;
        Ok(())
    }

    // Takes a name more, and tells whether it had no other binding.
    fn take(&mut self, name: u32, owner: Option<u32>) -> Result<bool, NoMemory>
        ensures { Takes (taken self.old (name, owner)) self.new result }
    {
        match self.owner(name) {
            Some(other) => Ok(same_owner(other, owner)),
            None => {
                self.push(name, owner)?;
                Ok(true)
            }
        }
    }
}

fn same_owner(one: Option<u32>, other: Option<u32>) -> bool
    ensures { result ≡ same_owner one other }
{
    match (one, other) {
        (Some(i), Some(j)) => i == j,
        (None, None) => true,
        (Some(_), None) => false,
        (None, Some(_)) => false,
    }
}

// Takes what an opened structure gives, and tells whether no name of these had another binding.
fn take_opened(
    names: &Names,
    order: &[Structure],
    opened: Opened,
    known: &mut Known,
) -> Result<bool, NoMemory>
    ensures { Takes (all_taken known.old (gives names.now order.now opened)) known.new result }
{
    match opened {
        Opened::Prescheme => take_language(names, known),
        Opened::Memory => take_words(names, MEMORY, known),
        Opened::Records => take_words(names, RECORDS, known),
        Opened::At(k) => take_exports(exports_at(order, k), k, known),
    }
}

fn take_language(names: &Names, known: &mut Known) -> Result<bool, NoMemory>
    ensures { Takes (all_taken known.old (given_by None (numbers_in names.now all_names))) known.new result }
{
    if !take_words(names, LANGUAGE, known)? {
        return Ok(false);
    }
    if !take_words(names, MEMORY, known)? {
        return Ok(false);
    }
    take_words(names, RECORDS, known)
}

// Takes those of these words of the language that stand in the table.
fn take_words(names: &Names, words: &[&[u8]], known: &mut Known) -> Result<bool, NoMemory>
    ensures { Takes (all_taken known.old (given_by None (numbers_in names.now (map (λ w. w.now) words.now)))) known.new result }
{
    for word in words {
        if let Some(name) = names.find(word) {
            if !known.take(name.0, None)? {
                return Ok(false);
            }
        }
    }
    Ok(true)
}

fn take_exports(exports: &[Export], structure: u32, known: &mut Known) -> Result<bool, NoMemory>
    ensures { Takes (all_taken known.old (given_by (Some structure) (names_of exports.now))) known.new result }
{
    for export in exports {
        if !known.take(export.name.0, Some(structure))? {
            return Ok(false);
        }
    }
    Ok(true)
}

// What the structure of this number exports.
fn exports_at(order: &[Structure], k: u32) -> &[Export]
    ensures { result.now ≡ exports_by (slice_get order.now k) }
{
    match order.get(k as usize) {
        Some(structure) => structure.exports.as_slice(),
        None => &[],
    }
}
