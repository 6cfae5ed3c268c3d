//! Laws of the definitions. Each is the contract of a function that does nothing.

ghost use Rattle.ps_typing.specs.Laws.{CasesAreUnfolded, DataHasNoVariables, DataHasOneType, DataIsTypedByCells, GroupsAreKept, OneFault, OneOrder, OneText, PartsAreTogether, RulesAreKept, SettledIsTyping, SomeIsReady, TypedIsNoFault, TypesAreListed};
ghost use Rattle.ps_typing.specs.Worked.{IdentityHasTwoTypes, LocalHasOneType};

/// The types of data have no variables. So a definition that is no procedure has the same type wherever it is mentioned, and the
/// type of a procedure definition may have any types for all its variables, once its group is typed.
pub fn data_has_no_variables()
    ensures { DataHasNoVariables }
{}

/// Data has one type at most.
pub fn data_has_one_type()
    ensures { DataHasOneType }
{}

/// A vector has a type exactly where it leads to cells, of which there is one, and which all have the type of its members; a
/// record exactly where it leads to a cell for each field, of the type of the field.
pub fn data_is_typed_by_cells()
    ensures { DataIsTypedByCells }
{}

/// The types that the rules list for an expression are as many as there are expressions in it, and lambdas of letrecs; its own
/// stands in front.
#[tactic(auto, using(crate::proofs::TypesAreListed::types_are_listed))]
pub fn types_are_listed()
    ensures { TypesAreListed }
{}

/// A case has the types of what it unfolds to: a let of its key, and an if for each branch.
pub fn cases_are_unfolded()
    ensures { CasesAreUnfolded }
{}

/// The rules are kept by substitution, and where definitions of earlier groups become more general: an expression with a type has
/// each instance of it, and so has each expression in it.
#[tactic(auto, using(crate::proofs::RulesAreKept::rules_are_kept))]
pub fn rules_are_kept()
    ensures { RulesAreKept }
{}

/// A group that has a typing has each instance of it in which no type is too large, with the same types of earlier groups or more
/// general ones.
#[tactic(auto, using(crate::proofs::GroupsAreKept::groups_are_kept))]
pub fn groups_are_kept()
    ensures { GroupsAreKept }
{}

/// A typing with integer for what nothing fixes is a typing.
#[tactic(auto, using(crate::proofs::GroupsAreKept::settled_is_typing))]
pub fn settled_is_typing()
    ensures { SettledIsTyping }
{}

/// A graph has one order of groups at most.
#[tactic(auto, using(crate::proofs::GroupsHaveOneOrder::one_order))]
pub fn one_order()
    ensures { OneOrder }
{}

/// Where nodes have numbers such that a node mentions none of a higher number, and those of one number reach each other, two have
/// one number exactly where they are of one group.
#[tactic(auto, using(crate::proofs::PartsAreTogether::parts_are_together))]
pub fn parts_are_together()
    ensures { PartsAreTogether }
{}

/// By such numbers the group of the lowest node that is not listed is ready.
#[tactic(auto, using(crate::proofs::PartsAreTogether::some_is_ready))]
pub fn some_is_ready()
    ensures { SomeIsReady }
{}

/// What survives fails at one definition at most.
pub fn one_fault()
    ensures { OneFault }
{}

/// What survives and has a typing fails nowhere.
pub fn typed_is_no_fault()
    ensures { TypedIsNoFault }
{}

/// However inference names its variables, the lines that tell the types of what survives are the same.
#[tactic(auto, using(crate::proofs::AnswersHaveOneText::one_text))]
pub fn one_text()
    ensures { OneText }
{}

/// A typing of a small source, told by hand, in which a definition is mentioned at two types, and the lines that tell it.
pub fn identity_has_two_types()
    ensures { IdentityHasTwoTypes }
{}

/// A small source that has no typing, since a local that a let binds is called with operands of two types.
pub fn local_has_one_type()
    ensures { LocalHasOneType }
{}
