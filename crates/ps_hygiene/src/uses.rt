//! What the identifiers of a macro use mean.

ghost use Rattle.std.specs.Prelude.{◌≡◌};

use crate::hygiene::Hygiene;
use ps_pattern::{Binding, Ident, Scope};

/// The use of a macro here.
#[derive(Drop)]
pub struct Uses<'a> {
    /// What is known here.
    pub hygiene: &'a Hygiene,
    /// The number of the macro.
    pub home: u32,
}

impl Scope for Uses<'_> {
    ghost use Rattle.ps_hygiene.specs.Meanings.{binding_of, meaning_in_rules};

    ghost use_of = { λ u x. binding_of u.hygiene.now.world u.hygiene.now.here x };

    ghost rules_of = { λ u x. meaning_in_rules u.hygiene.now.world u.hygiene.now.here u.home x };

    fn at_use(&self, id: &Ident) -> Binding {
        self.hygiene.meaning(id).binding
    }

    fn at_rules(&self, id: &Ident) -> Binding {
        self.hygiene.meaning_in_rules(self.home, id)
    }
}

/// Patterns that stand here themselves: their identifiers mean what those of the forms mean.
#[derive(Drop)]
pub struct Around<'a> {
    /// What is known here.
    pub hygiene: &'a Hygiene,
}

impl Scope for Around<'_> {
    ghost use Rattle.ps_hygiene.specs.Meanings.{binding_of};

    ghost use_of = { λ u x. binding_of u.hygiene.now.world u.hygiene.now.here x };

    ghost rules_of = { λ u x. binding_of u.hygiene.now.world u.hygiene.now.here x };

    fn at_use(&self, id: &Ident) -> Binding {
        self.hygiene.meaning(id).binding
    }

    fn at_rules(&self, id: &Ident) -> Binding {
        self.hygiene.meaning(id).binding
    }
}

impl Hygiene {
    /// The scope of patterns that stand here themselves.
    pub fn around(&self) -> Around<'_>
        ensures { result.hygiene.now ≡ self.now }
    {
        Around { hygiene: self }
    }
}
