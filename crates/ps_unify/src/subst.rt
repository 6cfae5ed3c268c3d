//! Bindings of variables to types.

ghost use Rattle.std.specs.Prelude.{◌≡◌, ℕ, ◌++◌, ◌∷◌, [], length, take, false, IfOk, IfSome, IfNone, OnOk, OnErr};
ghost use Rattle.ps_types.specs.Substitutions.{apply, mentions};
ghost use Rattle.ps_unify.specs.Bindings.{Free, Solved, means};
ghost use Rattle.ps_unify.specs.InsideBindings.{At, Headed};

use crate::applying::replaced;
use crate::copying::copied;
use indexmap::IndexMap;
use ps_base::NoMemory;
use ps_types::Ty;
use std::alloc::Global;
use std::marker::Model;

/// Bindings of variables to types, in the order in which they were made. What a variable is bound to may have variables that
/// are bound as well; `apply` resolves them.
#[derive(Drop)]
pub struct Subst {
    bindings: IndexMap<u32, Ty>,
    // How many variables come to stand for a variable, where others do, itself counted. Of two variables the one with the
    // lower number is bound to the other, so that no chain of variables is long. Nothing else turns on it.
    standing: IndexMap<u32, u32>,
    alloc: Global,
}

impl Model for Subst {
    ghost use Rattle.std.specs.Prelude.{ℕ, List};
    ghost use Rattle.ps_types.specs.declared.types.Ty.{Ty};
    ghost use Rattle.ps_unify.specs.Bindings.{Solved};

    ghost Value = { List (ℕ × Ty) };

    ghost use Rattle.std.specs.Coded.{coded_list, coded×, coded_ℕ};
    ghost use Rattle.ps_types.specs.contracts.types.Ty as types;

    ghost coded = { coded_list (coded× coded_ℕ types.the_row.coded) };

    ghost view = { λ s. s.bindings.entries };

    ghost invariant = { λ s. Solved s.bindings.entries };
}

impl Subst {
    /// No binding.
    pub fn new(alloc: Global) -> Subst
        ensures { result ≡ [] }
    {
        Subst {
            bindings: IndexMap::new(alloc),
            standing: IndexMap::new(alloc),
            alloc,
        }
    }

    /// What a type means: the type with each bound variable replaced by what that is bound to, until none is left. Its time
    /// is in the order of the size of the answer.
    ///
    /// # Errors
    ///
    /// `NoMemory` where memory ran out.
    pub fn apply(&self, t: &Ty) -> Result<Ty, NoMemory>
        ensures { IfOk result (λ r. r ≡ apply (means self.now) t.now) }
    {
        let _count = self.len();
        replaced(self.alloc, self, t)
    }

    /// How many variables are bound.
    pub fn len(&self) -> usize
        ensures count { result ≡ length self.now }
        ensures solved { Solved self.now }
    {
        self.bindings.len()
    }

    // What a variable is bound to, and at which place.
    fn bound(&self, variable: u32) -> Option<(usize, &Ty)>
        ensures found { IfSome result (λ r. At self.now r.0 variable r.1.now) }
        ensures missing { IfNone result (Free variable self.now) }
    {
        match self.bindings.get_full(&variable) {
            Some((place, _, t)) => Some((place, t)),
            None => None,
        }
    }

    /// The type at the end of the chain of bound variables that a type begins.
    pub(crate) fn head<'a>(&'a self, t: &'a Ty) -> &'a Ty
        requires { Solved self.now }
        ensures same { apply (means self.now) result.now ≡ apply (means self.now) t.now }
        ensures headed { Headed self.now result.now }
    {
        let _count = self.len();
        let mut end = t;
        let mut from = 0;
        loop {
            match end {
                Ty::Var(variable) => match self.bound(*variable) {
                    Some((place, next)) => {
                        end = next;
                        from = place + 1;
                    }
                    None => return end,
                },
                Ty::Integer
                | Ty::Boolean
                | Ty::Char
                | Ty::Unit
                | Ty::Address
                | Ty::Text
                | Ty::Vector(_)
                | Ty::Tuple(_)
                | Ty::Proc(_, _) => return end,
            }
        }
    }

    /// A copy of the type at the end of the chain that a type begins.
    pub(crate) fn head_copy(&self, t: &Ty) -> Result<Ty, NoMemory>
        requires { Solved self.now }
        ensures same { IfOk result (λ r. apply (means self.now) r ≡ apply (means self.now) t.now) }
        ensures headed { IfOk result (λ r. Headed self.now r) }
    {
        copied(self.alloc, self.head(t))
    }

    /// Binds a variable to a copy of a type.
    pub(crate) fn bind(&mut self, variable: u32, t: &Ty) -> Result<(), NoMemory>
        requires free { Free variable self.old }
        requires headed { Headed self.old t.now }
        requires away { mentions variable (apply (means self.old) t.now) ≡ false }
        ensures ok { OnOk result (self.new ≡ self.old ++ (variable, t.now) ∷ []) }
        ensures err { OnErr result (self.new ≡ self.old) }
    {
        let copy = copied(self.alloc, t)?;
        self.bindings.insert(variable, copy)?;
        Ok(())
    }

    /// Takes back all bindings but the first ones.
    pub(crate) fn back_to(&mut self, count: usize)
        requires { Solved (take count self.old) }
        ensures { self.new ≡ take count self.old }
    {
        self.bindings.truncate(count);
    }

    // How many variables come to stand for a variable, itself counted.
    fn standing_for(&self, variable: u32) -> u32 {
        match self.standing.get(&variable) {
            Some(count) => *count,
            None => 1,
        }
    }

    /// Whether more variables come to stand for the first than for the second.
    pub(crate) fn is_heavier(&self, variable: u32, other: u32) -> bool {
        self.standing_for(variable) > self.standing_for(other)
    }

    /// Notes that a variable comes to stand for another. Where memory ran out nothing is noted.
    pub(crate) fn note(&mut self, variable: u32, other: u32)
        ensures { self.new ≡ self.old }
    {
        let both = self
            .standing_for(variable)
            .saturating_add(self.standing_for(other));
        let _noted = self.standing.insert(other, both);
    }
}
