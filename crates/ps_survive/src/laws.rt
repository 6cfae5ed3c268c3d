//! Laws of the definitions. Each is the contract of a function that does nothing.

ghost use Rattle.ps_survive.specs.Laws.{AnEnd, OneEnd, SeenIsReached, FaultIsReached, OneAnswer, SeenIsClosed};

/// For every program the walk from `main` ends.
#[tactic(auto, using(crate::proofs::WalksEndOnce::an_end))]
pub fn walks_end()
    ensures { AnEnd }
{}

/// For every program it has one end.
#[tactic(auto, using(crate::proofs::WalksEndOnce::one_end))]
pub fn walks_have_one_end()
    ensures { OneEnd }
{}

/// Where a walk ends well, it saw exactly what `main` reaches, each once, and nothing that is reached is a fault.
#[tactic(auto, using(crate::proofs::SeenIsReached::seen_is_reached))]
pub fn what_is_seen_is_reached()
    ensures { SeenIsReached }
{}

/// Where a walk ends at a fault, either `main` is no procedure without parameters, or it is the fault of something that `main`
/// reaches.
#[tactic(auto, using(crate::proofs::SeenIsReached::fault_is_reached))]
pub fn a_fault_is_reached()
    ensures { FaultIsReached }
{}

/// What a walk saw that ends well leads to nothing else: neither its bodies, nor its values, nor its cells.
#[tactic(auto, using(crate::proofs::SeenIsClosed::seen_is_closed))]
pub fn what_is_seen_is_closed()
    ensures { SeenIsClosed }
{}

/// A program has one list of survivors at most.
pub fn one_answer()
    ensures { OneAnswer }
{}
