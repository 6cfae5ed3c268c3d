//! Makes types equal.

ghost use Rattle.std.specs.Prelude.{◌≡◌, ◌≤◌, IfErr, OnOk, OnErr};
ghost use Rattle.ps_types.specs.Substitutions.{apply, size};
ghost use Rattle.ps_unify.specs.Bindings.{Solved, means};
ghost use Rattle.ps_unify.specs.InsideBindings.{Longer};
ghost use Rattle.ps_unify.specs.Unification.{Never, Outgrows, Unifies};
ghost use Rattle.ps_unify.specs.declared.faults.UnifyFault.TheVariants as unify_faults;
ghost use Rattle.ps_unify.specs.declared.faults.WithinFault.TheVariants as within_faults;

use crate::equalizing::equalize;
use crate::faults::{UnifyFault, WithinFault};
use crate::sizes::room_after;
use crate::subst::Subst;
use ps_types::Ty;

/// Extends the bindings to the most general ones that make two types equal, as types of at most so many constructors and
/// variables. Its time is in the order of the limit, and of the sizes of the two types and of what they are found to mean.
///
/// # Errors
///
/// `Unequal` only where nothing that extends the bindings makes the types equal, `TooLarge` only where whatever does makes
/// them larger than the limit, and `NoMemory` where memory ran out. The bindings are then as they were.
pub fn unify_within(s: &mut Subst, a: &Ty, b: &Ty, limit: u64) -> Result<(), WithinFault>
    ensures ok { OnOk result (Unifies s.old a.now b.now s.new) }
    ensures within { OnOk result (size (apply (means s.new) a.now) ≤ limit) }
    ensures unequal { IfErr result (λ e. e ≡ within_faults.Unequal → Never s.old a.now b.now) }
    ensures large { IfErr result (λ e. e ≡ within_faults.TooLarge → Outgrows s.old a.now b.now limit) }
    ensures refused { OnErr result (s.new ≡ s.old) }
{
    let count = s.len();
    match extend_within(s, a, b, limit) {
        Ok(()) => Ok(()),
        Err(e) => {
            s.back_to(count);
            Err(e)
        }
    }
}

/// Extends the bindings to the most general ones that make two types equal, whatever their size. Where types hold one another
/// as parts many times, this can take a time that doubles with each variable, as `unify_within` does not.
///
/// # Errors
///
/// `Unequal` only where nothing that extends the bindings makes the types equal, and `NoMemory` where memory ran out, or where
/// whatever makes them equal gives them 2^64 constructors and variables or more. The bindings are then as they were.
pub fn unify(s: &mut Subst, a: &Ty, b: &Ty) -> Result<(), UnifyFault>
    ensures ok { OnOk result (Unifies s.old a.now b.now s.new) }
    ensures unequal { IfErr result (λ e. e ≡ unify_faults.Unequal → Never s.old a.now b.now) }
    ensures refused { OnErr result (s.new ≡ s.old) }
{
    let bound = s.len();
    match equalize(s, a, b, u64::MAX) {
        Ok(_) => Ok(()),
        Err(e) => {
            s.back_to(bound);
            Err(fault_of(e))
        }
    }
}

// A type of 2^64 constructors and variables is more than any memory holds.
fn fault_of(e: WithinFault) -> UnifyFault
    ensures { result ≡ unify_faults.Unequal → e ≡ within_faults.Unequal }
{
    match e {
        WithinFault::Unequal => UnifyFault::Unequal,
        WithinFault::TooLarge => UnifyFault::NoMemory,
        WithinFault::NoMemory => UnifyFault::NoMemory,
    }
}

// The same as `unify_within`, but for the new bindings, which stay where it is refused.
fn extend_within(s: &mut Subst, a: &Ty, b: &Ty, limit: u64) -> Result<(), WithinFault>
    requires { Solved s.old }
    ensures ok { OnOk result (Unifies s.old a.now b.now s.new) }
    ensures within { OnOk result (size (apply (means s.new) a.now) ≤ limit) }
    ensures unequal { IfErr result (λ e. e ≡ within_faults.Unequal → Never s.old a.now b.now) }
    ensures large { IfErr result (λ e. e ≡ within_faults.TooLarge → Outgrows s.old a.now b.now limit) }
    ensures longer { Longer s.old s.new }
{
    match equalize(s, a, b, limit) {
        Ok(_) => match room_after(s, a, limit) {
            Some(_) => Ok(()),
            None => Err(WithinFault::TooLarge),
        },
        Err(e) => Err(e),
    }
}
