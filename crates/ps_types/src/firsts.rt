//! The variables of a type in the order in which they first appear.

ghost use Rattle.std.specs.Prelude.{◌≡◌, false, map, MatchOption, slice_get, Some};
ghost use Rattle.std.specs.List.{concat, fold};
ghost use Rattle.ps_types.specs.Writing.{variables, number, stands_in};
ghost use Rattle.ps_types.specs.InsideFirsts.{noted, Numbered};

use crate::numbering::number_of;
use crate::types::Ty;
use arrayvec::ArrayVec;

/// Different variables of a type, in the order in which they first appear: all, or the first 1,000.
pub type Firsts = ArrayVec<u32, 1000>;

// The place of a variable.
fn place_of(firsts: &[u32], variable: u32) -> Option<usize>
    ensures { MatchOption result (stands_in variable firsts.now ≡ false) (λ i. slice_get firsts.now i ≡ Some variable) }
{
    for (i, first) in firsts.iter().enumerate() {
        if *first == variable {
            return Some(i);
        }
    }
    None
}

// One more variable was met. It is noted, unless it was noted before or there is no room.
#[tactic(auto, using(crate::proofs::NotedVariablesAreNumbered::noted_again, crate::proofs::NotedVariablesAreNumbered::noted_full))]
fn note(firsts: &mut Firsts, variable: u32)
    ensures { firsts.new.items ≡ noted firsts.old.items variable }
{
    match place_of(firsts.as_slice(), variable) {
        Some(_) => {}
        None => {
            if firsts.len() < 1000 {
                firsts.push(variable);
            }
        }
    }
}

// The variables of a type were met.
#[cycle(noting)]
fn note_type(t: &Ty, firsts: &mut Firsts)
    ensures { firsts.new.items ≡ fold noted firsts.old.items (variables t.now) }
{
    match t {
        Ty::Integer => {}
        Ty::Boolean => {}
        Ty::Char => {}
        Ty::Unit => {}
        Ty::Address => {}
        Ty::Text => {}
        Ty::Vector(item) => note_type(item.get(), firsts),
        Ty::Tuple(_) => {}
        Ty::Proc(parameters, answer) => {
            note_types(parameters.as_slice(), firsts);
            note_type(answer.get(), firsts);
        }
        Ty::Var(variable) => note(firsts, *variable),
    }
}

// The variables of types in order were met.
#[cycle(noting)]
fn note_types(types: &[Ty], firsts: &mut Firsts)
    ensures { firsts.new.items ≡ fold noted firsts.old.items (concat (map variables types.now)) }
{
    for t in types {
        note_type(t, firsts);
    }
}

/// The different variables of a type, in the order in which they first appear.
#[tactic(auto, using(crate::proofs::NotedVariablesAreNumbered::all_numbered))]
pub fn firsts_of(t: &Ty) -> Firsts
    ensures { Numbered (variables t.now) result.items }
{
    let mut firsts = Firsts::new();
    note_type(t, &mut firsts);
    firsts
}

/// The number of a variable in the text of a type.
pub fn number_in(firsts: &[u32], t: &Ty, variable: u32) -> u64
    requires { Numbered (variables t.now) firsts.now }
    ensures { result ≡ number (variables t.now) variable }
{
    match place_of(firsts, variable) {
        Some(place) => place as u64,
        None => number_of(t, variable),
    }
}
