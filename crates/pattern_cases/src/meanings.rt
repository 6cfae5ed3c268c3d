//! What names mean where a macro is used, and where its rules stand.

ghost use Rattle.std.specs.Prelude.{◌≡◌};
ghost use Rattle.pattern_cases.specs.Meanings.{meaning};

use ps_base::Name;
use ps_pattern::{Binding, Ident, Scope};

/// A name that is a local.
#[derive(Clone, Copy, Debug, PartialEq, Eq)]
pub struct Bound {
    pub name: u32,
    pub local: u32,
}

/// The name that is bound at the use and at the rules, if one is. All other names are unbound.
#[derive(Clone, Copy, Debug, PartialEq, Eq)]
pub struct Meanings {
    pub at_use: Option<Bound>,
    pub at_rules: Option<Bound>,
}

/// No name is bound.
pub const FREE: Meanings = Meanings {
    at_use: None,
    at_rules: None,
};

fn meaning_of(bound: Option<Bound>, id: &Ident) -> Binding
    ensures { result ≡ meaning bound id.now }
{
    match bound {
        None => Binding::Unbound(id.name),
        Some(bound) => {
            if bound.name == id.name.0 {
                Binding::Local(bound.local)
            } else {
                Binding::Unbound(Name(id.name.0))
            }
        }
    }
}

impl Scope for Meanings {
    ghost use Rattle.pattern_cases.specs.Meanings.{meaning};

    ghost use_of = { λ s id. meaning s.at_use id };

    ghost rules_of = { λ s id. meaning s.at_rules id };

    fn at_use(&self, id: &Ident) -> Binding {
        meaning_of(self.at_use, id)
    }

    fn at_rules(&self, id: &Ident) -> Binding {
        meaning_of(self.at_rules, id)
    }
}
