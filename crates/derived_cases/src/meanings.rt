//! What names mean where a form stands.

ghost use Rattle.std.specs.Prelude.{◌≡◌};
ghost use Rattle.derived_cases.specs.Meanings.{meaning};

use ps_base::Name;
use ps_pattern::{Binding, Ident, Scope};

/// The name that is a local, if one is. All other names are unbound.
#[derive(Clone, Copy, Debug, PartialEq, Eq)]
pub struct Meanings {
    pub local: Option<u32>,
}

fn meaning_of(local: Option<u32>, id: &Ident) -> Binding
    ensures { result ≡ meaning local id.now }
{
    match local {
        None => Binding::Unbound(id.name),
        Some(name) => {
            if name == id.name.0 {
                Binding::Local(0)
            } else {
                Binding::Unbound(Name(id.name.0))
            }
        }
    }
}

impl Scope for Meanings {
    ghost use Rattle.derived_cases.specs.Meanings.{meaning};

    ghost use_of = { λ s id. meaning s.local id };

    ghost rules_of = { λ s id. meaning s.local id };

    fn at_use(&self, id: &Ident) -> Binding {
        meaning_of(self.local, id)
    }

    fn at_rules(&self, id: &Ident) -> Binding {
        meaning_of(self.local, id)
    }
}
