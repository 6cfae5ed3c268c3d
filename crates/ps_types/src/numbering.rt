//! The numbers of a type's variables, found without memory.

ghost use Rattle.std.specs.Prelude.{◌≡◌, map};
ghost use Rattle.std.specs.List.{concat, fold};
ghost use Rattle.ps_types.specs.Writing.{variables, before, number};
ghost use Rattle.ps_types.specs.InsideSearch.{lower_of, seen, Least};

use crate::types::Ty;

/// A search for the least variable from a floor on, among those that stand before another one.
#[derive(Clone, Copy)]
struct Search {
    // The variable where the search stops.
    stop: u32,
    // Less than this is not sought.
    floor: u64,
    // Whether `stop` was met.
    met: bool,
    // The least so far.
    least: Option<u32>,
}

// The least so far, where one more variable was met.
fn lower(floor: u64, least: Option<u32>, variable: u32) -> Option<u32>
    ensures { result ≡ lower_of floor least variable }
{
    if (variable as u64) < floor {
        return least;
    }
    match least {
        Some(other) => {
            if variable < other {
                Some(variable)
            } else {
                Some(other)
            }
        }
        None => Some(variable),
    }
}

// One more variable was met.
fn see(search: &mut Search, variable: u32)
    ensures { search.new ≡ seen search.old variable }
{
    if !search.met {
        if variable == search.stop {
            search.met = true;
        } else {
            search.least = lower(search.floor, search.least, variable);
        }
    }
}

// The variables of a type were met.
#[cycle(searching)]
fn search_type(t: &Ty, search: &mut Search)
    ensures { search.new ≡ fold seen search.old (variables t.now) }
{
    match t {
        Ty::Integer => {}
        Ty::Boolean => {}
        Ty::Char => {}
        Ty::Unit => {}
        Ty::Address => {}
        Ty::Text => {}
        Ty::Vector(item) => search_type(item.get(), search),
        Ty::Tuple(_) => {}
        Ty::Proc(parameters, answer) => {
            search_types(parameters.as_slice(), search);
            search_type(answer.get(), search);
        }
        Ty::Var(variable) => see(search, *variable),
    }
}

// The variables of types in order were met.
#[cycle(searching)]
fn search_types(types: &[Ty], search: &mut Search)
    ensures { search.new ≡ fold seen search.old (concat (map variables types.now)) }
{
    for t in types {
        if search.met {
            return;
        }
        search_type(t, search);
    }
}

// The least variable from a floor on, among those that stand before another one.
fn least_from(t: &Ty, stop: u32, floor: u64) -> Option<u32>
    ensures { Least floor (before stop (variables t.now)) result }
{
    let mut search = Search {
        stop,
        floor,
        met: false,
        least: None,
    };
    search_type(t, &mut search);
    search.least
}

/// The number of a variable in the text of a type: how many different variables stand before its first place. They are
/// counted from the least up, and each takes a walk over the type.
pub fn number_of(t: &Ty, variable: u32) -> u64
    ensures { result ≡ number (variables t.now) variable }
{
    let mut number = 0;
    let mut floor = 0;
    loop {
        match least_from(t, variable, floor) {
            Some(other) => {
                number += 1;
                floor = other as u64 + 1;
            }
            None => return number,
        }
    }
}
