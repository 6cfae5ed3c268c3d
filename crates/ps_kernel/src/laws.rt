//! Laws of every kernel that keeps the rules, and worked examples of the definitions. Each is the contract of a function that
//! does nothing.

ghost use Rattle.ps_kernel.specs.Laws.{BodiesAreScoped, KindsAreFilled, LambdasHavePlaces, OneAnswer};
ghost use Rattle.ps_kernel.specs.Unfold.{CasesUnfold};
ghost use Rattle.ps_kernel.specs.Worked.{ExampleKeeps, ExampleSizes};

/// A lambda stands in one group or in none, a local of a `letrec` has one entry, and a definition one lambda.
#[tactic(auto, using(crate::proofs::EachNumberHasOneAnswer::one_answer))]
pub fn one_answer()
    ensures { OneAnswer }
{}

/// Each lambda stands in the text, the entries of its group are those of a `letrec`, and the marks of its body are marks of the
/// text.
#[tactic(auto, using(crate::proofs::BodiesNameWhatTheyMay::has_place))]
pub fn lambdas_have_places()
    ensures { LambdasHavePlaces }
{}

/// The body of a lambda mentions its parameters, locals of its group that its text mentions, what its procedure keeps, and
/// what is bound around the mention inside; it assigns its parameters and locals of its own lets alone. Where a lambda stands,
/// what its procedure keeps is in scope, and `group_of` is the group in which it stands. Entering its procedure can make those
/// of its group that its text mentions of what it keeps itself.
#[tactic(auto, using(crate::proofs::BodiesNameWhatTheyMay::are_scoped))]
pub fn bodies_are_scoped()
    ensures { BodiesAreScoped }
{}

/// Each kind of records has a field, and its maker names each field once.
#[tactic(auto, using(crate::proofs::ValidKindsAreFilled::are_filled))]
pub fn kinds_are_filled()
    ensures { KindsAreFilled }
{}

/// A case has as many nodes, stands as deep, and has its proper calls in tail position as in what it unfolds to.
#[tactic(auto, using(crate::proofs::CasesMeasureAlike::case_unfolds))]
pub fn cases_unfold()
    ensures { CasesUnfold }
{}

/// What the procedures of a small kernel keep, told by hand: a lambda of a `letrec` keeps what the text of one mentions that
/// it reaches, and no local of its own group; a lambda that stands in another keeps the locals of the group around it too.
pub fn example_keeps()
    ensures { ExampleKeeps }
{}

/// How deep a small kernel with a case is, and how many expressions it has, told by hand.
pub fn example_sizes()
    ensures { ExampleSizes }
{}
