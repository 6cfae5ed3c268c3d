//! What is known at a place.

ghost use Rattle.std.specs.Prelude.{◌≡◌, [], ◌∷◌, length, drop, IfOk, OnOk};
ghost use Rattle.ps_scope.specs.Environments.{pair_of, word, word_of, is_among, defined};
ghost use Rattle.ps_hygiene.specs.Answers.{seen_of, defines};
ghost use Rattle.ps_hygiene.specs.Runs.{Goes};
ghost use Rattle.ps_hygiene.specs.Worlds.{outset, next_macro};

use ps_base::{Items, Name, NoMemory, Numbers};
use ps_pattern::{Binding, Ident, Rules};
use ps_scope::{Defined, Scopes};
use std::alloc::Global;
use std::marker::Model;

/// What tells the meaning of identifiers at a place: the environment of locals and macros around it, the definitions of all
/// structures, the names that they open, the macros, and the transcriptions so far.
#[derive(Drop)]
pub struct Hygiene {
    pub(crate) alloc: Global,
    pub(crate) structure: u32,
    pub(crate) own: Defined,
    pub(crate) opened: Defined,
    pub(crate) scopes: Scopes,
    pub(crate) rules: Items<Rules>,
    pub(crate) structures: Numbers,
    pub(crate) uses: Numbers,
    pub(crate) room: u64,
}

impl Model for Hygiene {
    ghost use Rattle.std.specs.Coded.{codes};
    ghost use Rattle.ps_pattern.specs.contracts.rules.Pattern as p;
    ghost use Rattle.ps_pattern.specs.contracts.template.Template as t;
    ghost use Rattle.ps_hygiene.specs.Answers.{Seen};

    ghost Value = { Seen };

    ghost coded = { Prim.hlevel (codes, p.the_row.coded, t.the_row.coded) };

    ghost view = { λ s. record {
      here = s.scopes.here;
      world = record { structure = s.structure; own = s.own; opened = s.opened; rules = s.rules; structures = s.structures; homes = s.scopes.kept; uses = s.uses; room = s.room };
    } };
}

impl Hygiene {
    /// Nothing is bound, defined or opened, and no macro was used. The structure is the first. `transcribed` is how many nodes may
    /// be transcribed.
    ///
    /// # Errors
    ///
    /// `NoMemory` where memory ran out.
    pub fn new(alloc: Global, transcribed: u64) -> Result<Hygiene, NoMemory>
        ensures { IfOk result (λ h. h ≡ seen_of [] (outset transcribed)) }
    {
        Ok(Hygiene {
            alloc,
            structure: 0,
            own: Defined::new(alloc)?,
            opened: Defined::new(alloc)?,
            scopes: Scopes::new(alloc)?,
            rules: Items::new(alloc),
            structures: Items::new(alloc),
            uses: Items::new(alloc),
            room: transcribed,
        })
    }

    /// Binds an identifier here.
    ///
    /// # Errors
    ///
    /// `NoMemory` where memory ran out.
    pub fn bind(&mut self, id: &Ident, binding: Binding) -> Result<(), NoMemory>
        ensures { OnOk result (self.new ≡ seen_of (pair_of (word_of id.now) binding ∷ self.old.here) self.old.world) }
    {
        self.scopes.bind(id.name, id.stamps.as_slice(), binding)?;
        Ok(())
    }

    /// Leaves the newest `count` pairs of the environment here, or all where there are no more.
    pub fn leave(&mut self, count: usize)
        ensures { self.new ≡ seen_of (drop count self.old.here) self.old.world }
    {
        self.scopes.leave(count);
    }

    /// How many pairs the environment here has.
    pub fn count(&self) -> usize
        ensures { result ≡ length self.now.here }
    {
        self.scopes.len()
    }

    /// Whether an identifier is bound by one of the newest `count` pairs here.
    pub fn is_among(&self, count: usize, id: &Ident) -> bool
        ensures { result ≡ is_among count self.now.here (word_of id.now) }
    {
        self.scopes.is_among(count, id.name, id.stamps.as_slice())
    }

    /// Defines an identifier, with all its stamps, in the present structure.
    ///
    /// # Errors
    ///
    /// `NoMemory` where memory ran out.
    pub fn define(&mut self, id: &Ident, binding: Binding) -> Result<(), NoMemory>
        ensures { OnOk result (self.new ≡ seen_of self.old.here (defines id.now binding self.old.world)) }
    {
        let stamps = id.stamps.as_slice();
        self.own.define(self.structure, id.name, stamps, binding)?;
        Ok(())
    }

    /// What a structure itself defines an identifier as.
    pub fn find_own(&self, structure: u32, name: Name, stamps: &[u64]) -> Option<Binding>
        ensures { result ≡ defined self.now.world.own structure (word name stamps.now) }
    {
        self.own.find(structure, name, stamps)
    }

    /// A macro more, whose rules stand here in the present structure: its number. Macros are numbered from 0.
    ///
    /// # Errors
    ///
    /// `NoMemory` where memory ran out, or there are 4,294,967,295 macros.
    pub fn add_macro(&mut self, rules: Rules) -> Result<u32, NoMemory>
        ensures number { IfOk result (λ m. next_macro rules self.old.here self.old.world ≡ Goes m self.new.world) }
        ensures here { OnOk result (self.new.here ≡ self.old.here) }
    {
        let number = self.rules.len();
        if number >= u32::MAX as usize {
            return Err(NoMemory);
        }
        self.rules.push(rules)?;
        self.structures.push(self.structure)?;
        self.scopes.keep()?;
        Ok(number as u32)
    }
}
