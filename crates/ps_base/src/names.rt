//! A table of distinct texts.

ghost use Rattle.std.specs.Prelude.{◌≡◌, ℕ, ◌<◌, ◌≤◌, ◌^◌, List, [], length, slice_get, None, Some, MatchOption, OnErr, IfOk, IsTrue, ◌↔◌};
ghost use Rattle.ps_base.specs.Limits.{most_numbered};
ghost use Rattle.ps_base.specs.Names.{AreDistinct, Adds, IsNew, number_of};

use crate::memory::NoMemory;
use indexmap::IndexSet;
use std::alloc::Global;
use std::marker::Model;

/// A text's number in its table.
#[derive(Clone, Copy, Debug, PartialEq, Eq)]
pub struct Name(pub u32);

/// Distinct texts, numbered from 0 in the order in which they were first added. It holds at most 4,294,967,295 texts.
#[derive(Drop)]
pub struct Names {
    texts: IndexSet<Vec<u8>>,
    alloc: Global,
}

impl Model for Names {
    ghost use Rattle.std.specs.Prelude.{ℕ, ◌<◌, ◌^◌, List, map, length};
    ghost use Rattle.ps_base.specs.Names.{AreDistinct};

    ghost Value = { List (List ℕ) };

    ghost view = { λ s. map (λ t. t.items) s.texts.keys };

    ghost invariant = { λ s. AreDistinct (map (λ t. t.items) s.texts.keys) × (length (map (λ t. t.items) s.texts.keys) < 2 ^ 32) };
}

impl Names {
    /// An empty table.
    pub fn new(alloc: Global) -> Names
        ensures { result ≡ [] }
    {
        Names {
            texts: IndexSet::new(alloc),
            alloc,
        }
    }

    /// How many texts there are.
    pub fn len(&self) -> u32
        ensures { result ≡ length self.now }
    {
        self.texts.len() as u32
    }

    /// Whether there is no text.
    pub fn is_empty(&self) -> bool
        ensures { IsTrue result ↔ (self.now ≡ []) }
    {
        self.texts.len() == 0
    }

    /// The text of a number that `add` has given.
    pub fn text(&self, name: Name) -> &[u8]
        requires { name.0 < length self.now }
        ensures { slice_get self.now name.0 ≡ Some result.now }
    {
        match self.texts.get_index(name.0 as usize) {
            Some(text) => text.as_slice(),
            None => unreachable!(),
        }
    }

    /// The number of a text, where it is in the table.
    pub fn find(&self, text: &[u8]) -> Option<Name>
        ensures { MatchOption result (number_of self.now text.now ≡ None) (λ name. number_of self.now text.now ≡ Some name.0) }
    {
        match self.texts.get_index_of(text) {
            Some(number) => Some(Name(number as u32)),
            None => None,
        }
    }

    /// The number of a text. A text that is there keeps its number, and a new one is added and has the next number. The
    /// table must have room for one more, also where the text is there.
    ///
    /// # Errors
    ///
    /// `NoMemory` where the text is new and memory ran out. The table is then as it was.
    pub fn add(&mut self, text: &[u8]) -> Result<Name, NoMemory>
        requires { length self.old < most_numbered }
        ensures ok { IfOk result (λ name. Adds self.old self.new text.now name.0) }
        ensures distinct { AreDistinct self.new }
        ensures err { OnErr result (self.new ≡ self.old) }
        ensures wanted { OnErr result (IsNew self.old text.now) }
    {
        if let Some((number, _)) = self.texts.get_full(text) {
            return Ok(Name(number as u32));
        }
        let copy = Vec::from_slice(self.alloc, text)?;
        let (number, _) = self.texts.insert_full(copy)?;
        Ok(Name(number as u32))
    }
}
