//! Entering a structure.

ghost use Rattle.std.specs.Prelude.{◌≡◌, Some, OnOk, map, slice_get};
ghost use Rattle.ps_hygiene.specs.Answers.{seen_of};
ghost use Rattle.ps_hygiene.specs.InsideOpening.{word_of, opened_by};
ghost use Rattle.ps_hygiene.specs.Language.{all_words};
ghost use Rattle.ps_hygiene.specs.Opening.{entered, exports_at, opens_at, with_entry, with_exports, with_opened, with_words};

use crate::hygiene::Hygiene;
use crate::words::{LANGUAGE, MEMORY, RECORDS, Word};
use ps_base::{Name, Names, NoMemory};
use ps_modules::{Export, Linked, Opened, Structure};
use ps_pattern::Binding;

impl Hygiene {
    /// Enters the structure of this place in the order of evaluation: it opens its names, which mean what the definitions say that
    /// are noted so far.
    ///
    /// # Errors
    ///
    /// `NoMemory` where memory ran out.
    #[tactic(auto, unfolding(crate::specs::Opening::entered))]
    pub fn enter(&mut self, structure: u32, names: &Names, linked: &Linked) -> Result<(), NoMemory>
        ensures { OnOk result (self.new ≡ seen_of self.old.here (entered names.now linked.now.structures structure self.old.world)) }
    {
        self.structure = structure;
        let order = linked.structures.as_slice();
        for opened in opens_at(order, structure) {
            self.open(names, order, *opened)?;
        }
        Ok(())
    }

    fn open(&mut self, names: &Names, order: &[Structure], opened: Opened) -> Result<(), NoMemory>
        ensures { OnOk result (self.new ≡ seen_of self.old.here (opened_by (with_opened names.now order.now self.old.world.own self.old.world.structure opened) self.old.world)) }
    {
        match opened {
            Opened::Prescheme => self.open_language(names),
            Opened::Memory => self.open_words(names, MEMORY),
            Opened::Records => self.open_words(names, RECORDS),
            Opened::At(k) => self.open_exports(k, exports_at(order, k)),
        }
    }

    fn open_language(&mut self, names: &Names) -> Result<(), NoMemory>
        ensures { OnOk result (self.new ≡ seen_of self.old.here (opened_by (with_words names.now self.old.world.structure all_words) self.old.world)) }
    {
        self.open_words(names, LANGUAGE)?;
        self.open_words(names, MEMORY)?;
        self.open_words(names, RECORDS)
    }

    // Opens those of these names of the language that stand in the table.
    fn open_words(&mut self, names: &Names, words: &[Word]) -> Result<(), NoMemory>
        ensures { OnOk result (self.new ≡ seen_of self.old.here (opened_by (with_words names.now self.old.world.structure (map word_of words.now)) self.old.world)) }
    {
        for (text, binding) in words {
            if let Some(name) = names.find(text) {
                self.open_name(name, *binding)?;
            }
        }
        Ok(())
    }

    // Opens what structure `j` exports, so far as it is defined.
    fn open_exports(&mut self, j: u32, exports: &[Export]) -> Result<(), NoMemory>
        ensures { OnOk result (self.new ≡ seen_of self.old.here (opened_by (with_exports self.old.world.own self.old.world.structure j exports.now) self.old.world)) }
    {
        for export in exports {
            if let Some(binding) = self.own.find(j, export.name, &[]) {
                self.open_name(export.name, binding)?;
            }
        }
        Ok(())
    }

    fn open_name(&mut self, name: Name, binding: Binding) -> Result<(), NoMemory>
        ensures { OnOk result (self.new ≡ seen_of self.old.here (opened_by (with_entry self.old.world.structure (Some name.0) (Some binding)) self.old.world)) }
    {
        self.opened.define(self.structure, name, &[], binding)?;
        Ok(())
    }
}

// What the structure of this place opens.
fn opens_at(order: &[Structure], structure: u32) -> &[Opened]
    ensures { result.now ≡ opens_at (slice_get order.now structure) }
{
    match order.get(structure as usize) {
        Some(structure) => structure.opens.as_slice(),
        None => &[],
    }
}

// What the structure of this place exports.
fn exports_at(order: &[Structure], structure: u32) -> &[Export]
    ensures { result.now ≡ exports_at (slice_get order.now structure) }
{
    match order.get(structure as usize) {
        Some(structure) => structure.exports.as_slice(),
        None => &[],
    }
}
