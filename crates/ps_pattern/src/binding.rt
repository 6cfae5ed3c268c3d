//! What identifiers mean.

ghost use Rattle.std.specs.Prelude.{◌≡◌};
ghost use Rattle.ps_pattern.specs.Meaning.{same_binding};

use crate::syntax::Ident;
use ps_base::{Core, Name, Prim};

/// What an identifier means.
#[derive(Clone, Copy, Debug, PartialEq, Eq)]
pub enum Binding {
    /// The local of this number.
    Local(u32),
    /// The global of this number.
    Global(u32),
    /// The macro of this number.
    Macro(u32),
    /// A special form.
    Core(Core),
    /// A primitive, or the constant `null-address`.
    Primitive(Prim),
    /// Nothing: an identifier of this base name.
    Unbound(Name),
}

/// What identifiers mean where a macro is used, and where its rules stand.
pub trait Scope {
    ghost use Rattle.ps_pattern.specs.declared.syntax.Ident.{Ident};
    ghost use Rattle.ps_pattern.specs.declared.binding.Binding.{Binding};

    /// What an identifier means where the macro is used.
    ghost use_of: { Self → Ident → Binding };

    /// What an identifier means where the macro's rules stand.
    ghost rules_of: { Self → Ident → Binding };

    /// What an identifier means where the macro is used.
    fn at_use(&self, id: &Ident) -> Binding
        ensures { result ≡ use_of self.now id.now };

    /// What an identifier means where the macro's rules stand.
    fn at_rules(&self, id: &Ident) -> Binding
        ensures { result ≡ rules_of self.now id.now };
}

/// Whether two bindings are the same.
pub fn is_same_binding(a: Binding, b: Binding) -> bool
    ensures { result ≡ same_binding a b }
{
    a == b
}
