//! Looks for a variable in what a type means, with a room for the size of the type.

ghost use Rattle.std.specs.Prelude.{map};
ghost use Rattle.ps_types.specs.Substitutions.{apply, mentions, some_mentions};
ghost use Rattle.ps_unify.specs.Bindings.{Solved, means};
ghost use Rattle.ps_unify.specs.InsideBindings.{Told, meant, meant_all};

use crate::subst::Subst;
use ps_types::Ty;

/// What a search has come to.
#[derive(Clone, Copy)]
pub enum Sought {
    /// The variable stands there.
    Found,
    /// It does not, and this is what the size leaves of the room.
    Left(u64),
    /// The size is larger than the room.
    Spent,
}

/// Looks for a variable in what a type means. It takes no more steps than there is room.
#[cycle(searching)]
pub fn search(s: &Subst, variable: u32, t: &Ty, room: u64) -> Sought
    requires { Solved s.now }
    ensures { Told (mentions variable (apply (means s.now) t.now)) (meant s.now t.now) room result }
{
    if room == 0 {
        return Sought::Spent;
    }
    match s.head(t) {
        Ty::Integer | Ty::Boolean | Ty::Char | Ty::Unit | Ty::Address | Ty::Text | Ty::Tuple(_) =>
            Sought::Left(room - 1),
        Ty::Vector(item) => search(s, variable, item.get(), room - 1),
        Ty::Proc(parameters, answer) => {
            match search_all(s, variable, parameters.as_slice(), room - 1) {
                Sought::Found => Sought::Found,
                Sought::Left(left) => search(s, variable, answer.get(), left),
                Sought::Spent => Sought::Spent,
            }
        }
        Ty::Var(other) => {
            if *other == variable {
                Sought::Found
            } else {
                Sought::Left(room - 1)
            }
        }
    }
}

#[cycle(searching)]
fn search_all(s: &Subst, variable: u32, types: &[Ty], room: u64) -> Sought
    requires { Solved s.now }
    ensures { Told (some_mentions variable (map (apply (means s.now)) types.now)) (meant_all s.now types.now) room result }
{
    match types.split_first() {
        Some((t, rest)) => match search(s, variable, t, room) {
            Sought::Found => Sought::Found,
            Sought::Left(left) => search_all(s, variable, rest, left),
            Sought::Spent => Sought::Spent,
        },
        None => Sought::Left(room),
    }
}
