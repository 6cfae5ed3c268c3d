//! The laws of runs: what it means that two of them agree, and how that is shown. Each law is the contract of a function
//! that does nothing.

ghost use Rattle.byte_store.specs.Laws.{AgreeIsTransitive, AgreeWhereDefined, FollowingGivesAgree, FollowingGivesShallow, GrowingKeeps, ProgressGivesAgree, SameEachAgrees, ShallowComposes, ShallowSoFarComposes};

/// To agree is transitive.
pub fn agree_is_transitive()
    ensures { AgreeIsTransitive }
{}

/// The law of progress: where one run does all that another does, and goes on as long as it, it does nothing else.
pub fn progress_gives_agree()
    ensures { ProgressGivesAgree }
{}

/// A run that follows another agrees with it.
pub fn following_gives_agree()
    ensures { FollowingGivesAgree }
{}

/// A run that follows another closely is at most so much deeper.
pub fn following_gives_shallow()
    ensures { FollowingGivesShallow }
{}

/// What grows from bound to bound keeps what it has.
pub fn growing_keeps()
    ensures { GrowingKeeps }
{}

/// Where a run is never undefined, one that agrees with it does the same.
pub fn agree_where_defined()
    ensures { AgreeWhereDefined }
{}

/// Comparisons of depth compose: a run that is at most so much deeper than one that is at most so much deeper than a third
/// is at most the sum deeper than the third.
pub fn shallow_composes()
    ensures { ShallowComposes }
{}

/// The same of comparisons with what has done no more so far.
pub fn shallow_so_far_composes()
    ensures { ShallowSoFarComposes }
{}

/// What agrees with a run, and is at most so much deeper, does and is so with one that is the same for each bound.
pub fn same_each_agrees()
    ensures { SameEachAgrees }
{}
