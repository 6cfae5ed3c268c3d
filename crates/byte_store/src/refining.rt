//! The laws of machines of small steps, of which one refines the other. Each law is the contract of a function that does
//! nothing.

ghost use Rattle.byte_store.specs.Refining.{RefiningFollows, RefiningShallow};

/// Two machines of small steps, of which the second refines the first.
pub trait Refinement {
    ghost use Rattle.std.specs.Prelude.{ℕ};
    ghost use Rattle.byte_store.specs.Machine.{Machine};
    ghost use Rattle.byte_store.specs.Refining.{Refines};

    /// The states of the first machine.
    ghost State: { Type 0 };

    /// The states of the second machine.
    ghost Target: { Type 0 };

    ghost first: { Machine State };

    ghost second: { Machine Target };

    /// Which states of the second stand for a state of the first.
    ghost relates: { State → Target → Type 0 };

    /// How many frames more the second may have.
    ghost more: { ℕ };

    /// The greatest rank of a state of the first.
    ghost top: { ℕ };

    /// The rank of a state of the first, which falls where the second waits.
    ghost rank: { State → ℕ };

    /// That the second refines the first.
    ghost refines: { Refines more top rank first second relates };
}

/// A machine that refines another follows it.
pub fn refining_follows<R: Refinement>()
    ensures { RefiningFollows R.more R.top R.first R.second R.relates }
{}

/// A machine that refines another has at most so many frames more than that, where that has done no more.
pub fn refining_is_shallow<R: Refinement>()
    ensures { RefiningShallow R.more R.top R.first R.second R.relates }
{}
