//! What is told of the present structure, of macros and of transcriptions.

ghost use Rattle.std.specs.Prelude.{◌≡◌, length, is_some};
ghost use Rattle.ps_scope.specs.Environments.{defined, word_of};
ghost use Rattle.ps_hygiene.specs.Worlds.{macro_of, structure_of};

use crate::hygiene::Hygiene;
use crate::meaning::Where;
use ps_pattern::Ident;

impl Hygiene {
    /// The structure whose forms are expanded, by its place in the order of evaluation.
    pub fn structure(&self) -> u32
        ensures { result ≡ self.now.world.structure }
    {
        self.structure
    }

    /// How many macros there are. It is the number of the next one.
    pub fn macros(&self) -> usize
        ensures { result ≡ length self.now.world.rules }
    {
        self.rules.len()
    }

    /// Whether the present structure defines an identifier, with all its stamps.
    pub fn is_defined(&self, id: &Ident) -> bool
        ensures { result ≡ is_some (defined self.now.world.own self.now.world.structure (word_of id.now)) }
    {
        self.own
            .find(self.structure, id.name, id.stamps.as_slice())
            .is_some()
    }

    /// In which structure the rules stand of the macro of a transcription.
    pub fn structure_of_use(&self, stamp: u64) -> u32
        ensures { result ≡ structure_of self.now.world (macro_of self.now.world stamp) }
    {
        self.structure_at(Where::Home(self.macro_of(stamp)))
    }
}
