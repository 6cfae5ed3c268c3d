//! Sizes of what types mean.

ghost use Rattle.std.specs.Prelude.{◌≡◌, ◌+◌, ◌<◌, map, MatchOption};
ghost use Rattle.ps_types.specs.Substitutions.{apply, size};
ghost use Rattle.ps_unify.specs.Bindings.{Solved, means};
ghost use Rattle.ps_unify.specs.InsideBindings.{meant, meant_all};

use crate::subst::Subst;
use ps_types::Ty;

/// What the size of what a type means leaves of a room, or None where it is larger. It takes no more steps than there is room.
pub fn room_after(s: &Subst, t: &Ty, room: u64) -> Option<u64>
    ensures { MatchOption result (room < size (apply (means s.now) t.now)) (λ left. left + size (apply (means s.now) t.now) ≡ room) }
{
    let _count = s.len();
    left_after(s, t, room)
}

#[cycle(measuring)]
fn left_after(s: &Subst, t: &Ty, room: u64) -> Option<u64>
    requires { Solved s.now }
    ensures { MatchOption result (room < meant s.now t.now) (λ left. left + meant s.now t.now ≡ room) }
{
    if room == 0 {
        return None;
    }
    match s.head(t) {
        Ty::Integer
        | Ty::Boolean
        | Ty::Char
        | Ty::Unit
        | Ty::Address
        | Ty::Text
        | Ty::Tuple(_)
        | Ty::Var(_) => Some(room - 1),
        Ty::Vector(item) => left_after(s, item.get(), room - 1),
        Ty::Proc(parameters, answer) => {
            match left_after_all(s, parameters.as_slice(), room - 1) {
                Some(left) => left_after(s, answer.get(), left),
                None => None,
            }
        }
    }
}

#[cycle(measuring)]
fn left_after_all(s: &Subst, types: &[Ty], room: u64) -> Option<u64>
    requires { Solved s.now }
    ensures { MatchOption result (room < meant_all s.now types.now) (λ left. left + meant_all s.now types.now ≡ room) }
{
    match types.split_first() {
        Some((t, rest)) => match left_after(s, t, room) {
            Some(left) => left_after_all(s, rest, left),
            None => None,
        },
        None => Some(room),
    }
}
