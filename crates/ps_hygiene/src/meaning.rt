//! What identifiers mean.

ghost use Rattle.std.specs.Prelude.{◌≡◌, [], ◌∷◌};
ghost use Rattle.ps_pattern.specs.declared.binding.Binding.TheVariants as b;
ghost use Rattle.ps_scope.specs.Environments.{found, word, defined};
ghost use Rattle.ps_hygiene.specs.InsidePlaces.{structure_at, environment_at};
ghost use Rattle.ps_hygiene.specs.Meanings.{meaning, meaning_in_rules, means, counted, or_meant, meant};
ghost use Rattle.ps_hygiene.specs.Worlds.{macro_of};

use crate::hygiene::Hygiene;
use ps_base::Name;
use ps_pattern::{Binding, Ident};

/// What an identifier means, and whether the structure itself defines it, in which it was looked up.
#[derive(Clone, Copy, Debug, PartialEq, Eq)]
pub struct Meant {
    /// What it means.
    pub binding: Binding,
    /// Whether the structure defines it.
    pub own: bool,
}

/// Where an identifier is looked up: here, or where the rules of a macro stand.
#[derive(Clone, Copy, Debug, PartialEq, Eq)]
pub(crate) enum Where {
    Here,
    Home(u32),
}

impl Hygiene {
    /// What an identifier means here, in a place of use.
    #[tactic(auto, unfolding(crate::specs::Meanings::meaning))]
    pub fn meaning(&self, id: &Ident) -> Meant
        ensures { result ≡ meaning self.now.world self.now.here id.now }
    {
        self.means(Where::Here, id)
    }

    /// What an identifier means where the rules of a macro stand, which is used here.
    #[tactic(auto, unfolding(crate::specs::Meanings::meaning_in_rules))]
    pub fn meaning_in_rules(&self, number: u32, id: &Ident) -> Binding
        ensures { result ≡ meaning_in_rules self.now.world self.now.here number id.now }
    {
        self.means(Where::Home(number), id).binding
    }

    // What an identifier means at a place that is around what stands here.
    fn means(&self, place: Where, id: &Ident) -> Meant
        ensures { result ≡ means self.now.world self.now.here (structure_at self.now place) (environment_at self.now place) id.now.name id.now.stamps }
    {
        let mut at = place;
        let mut stamps = id.stamps.as_slice();
        'stamps: loop {
            let structure = self.structure_at(at);
            if let Some(binding) = self.find_around(at, id.name, stamps) {
                return Meant {
                    binding,
                    own: false,
                };
            }
            if let Some(binding) = self.own.find(structure, id.name, stamps) {
                return Meant { binding, own: true };
            }
            match stamps {
                [] => return self.opened_in(structure, id.name),
                [stamp, rest @ ..] => {
                    at = Where::Home(self.macro_of(*stamp));
                    stamps = rest;
                }
            }
        }
    }

    // The macro of a transcription.
    pub(crate) fn macro_of(&self, stamp: u64) -> u32
        ensures { result ≡ macro_of self.now.world stamp }
    {
        let uses = self.uses.as_slice();
        let at = stamp.saturating_sub(1) as usize;
        if at < uses.len() { uses[at] } else { 0 }
    }

    pub(crate) fn structure_at(&self, at: Where) -> u32
        ensures { result ≡ structure_at self.now at }
    {
        match at {
            Where::Here => self.structure,
            Where::Home(number) => {
                let structures = self.structures.as_slice();
                let at = number as usize;
                if at < structures.len() {
                    structures[at]
                } else {
                    0
                }
            }
        }
    }

    fn find_at(&self, at: Where, name: Name, stamps: &[u64]) -> Option<Binding>
        ensures { result ≡ found (environment_at self.now at) (word name stamps.now) }
    {
        match at {
            Where::Here => self.scopes.find(name, stamps),
            Where::Home(number) => self.scopes.find_kept(number as usize, name, stamps),
        }
    }

    // What the environment of a place says, but for a local that is not bound here.
    fn find_around(&self, at: Where, name: Name, stamps: &[u64]) -> Option<Binding>
        ensures { result ≡ counted self.now.here (found (environment_at self.now at) (word name stamps.now)) }
    {
        match self.find_at(at, name, stamps) {
            None => None,
            Some(Binding::Local(local)) => {
                if self.scopes.has_local(local) {
                    Some(Binding::Local(local))
                } else {
                    None
                }
            }
            Some(other) => Some(other),
        }
    }

    // What a name without stamps means that a structure does not define.
    fn opened_in(&self, structure: u32, name: Name) -> Meant
        ensures { result ≡ or_meant (defined self.now.world.opened structure (name.0 ∷ [])) (meant (b.Unbound name)) }
    {
        let binding = match self.opened.find(structure, name, &[]) {
            Some(binding) => binding,
            None => Binding::Unbound(name),
        };
        Meant {
            binding,
            own: false,
        }
    }
}
