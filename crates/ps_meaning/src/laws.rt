//! Laws of the definitions. Each is the contract of a function that does nothing.

ghost use Rattle.ps_meaning.specs.Laws.{CallsEnterProcedures, CellsOnlyStop, CompileCallsEnter, LargerBoundKeeps, LargerBudgetKeeps, MoreCellsKeep, MoreCellsKeepForms};
ghost use Rattle.ps_meaning.specs.RunOnly.{RunOnlyAtItsPlace};
ghost use Rattle.ps_meaning.specs.Embedding.{PrimitivesEmbed};
ghost use Rattle.ps_meaning.specs.Left.{FormsLeave};
ghost use Rattle.ps_meaning.specs.Unfolds.{CasesDoWhatTheyUnfoldTo};

/// For every kernel, what the top-level forms come to within a budget, unless it is that the budget was spent, they come to
/// within every larger one.
pub fn larger_budget_keeps()
    ensures { LargerBudgetKeeps }
{}

/// For everything that a run may begin from and every world, a larger bound on calls keeps an outcome that is not Running, and
/// extends the events of a Running one, whether cells are counted or not.
pub fn larger_bound_keeps()
    ensures { LargerBoundKeeps }
{}

/// For every beginning and world, a run whose cells are counted does what the program does without a limit on cells, unless it is
/// stopped at its cells: then the program goes on from there. With more cells it does the same, or is stopped later.
pub fn cells_only_stop()
    ensures none { CellsOnlyStop }
    ensures more { MoreCellsKeep }
{}

/// For every kernel, what the top-level forms come to with so many cells, unless it is that the cells were spent, they come to
/// with more.
pub fn more_cells_keep_forms()
    ensures { MoreCellsKeepForms }
{}

/// A call with no more calls left than the bound does what entering its procedure does, where calls do the same: the bound on
/// nesting is never met before the calls that are left.
pub fn calls_enter_procedures()
    ensures { CallsEnterProcedures }
{}

/// The same at compile time.
pub fn compile_calls_enter()
    ensures { CompileCallsEnter }
{}

/// A primitive does on plain values at run time, in a memory whose cells hold no procedure, what it does on the values of
/// first order themselves, and asks for as many cells.
pub fn primitives_embed()
    ensures { PrimitivesEmbed }
{}

/// At compile time what has a meaning at run time alone stops every run at its own place, before its parts: a lambda, a
/// `letrec` of which a lambda keeps a local, a mention of a procedure other than as an operator, an assignment of a procedure
/// definition, and a call of anything but such a mention; and a primitive for run time alone, once it has its operands.
pub fn run_only_at_its_place()
    ensures { RunOnlyAtItsPlace }
{}

/// At both stages a case does what it unfolds to: a let of its key to a local that occurs nowhere else, and in it an if for each
/// branch, whose test compares the local with each label.
pub fn cases_do_what_they_unfold_to()
    ensures { CasesDoWhatTheyUnfoldTo }
{}

/// What the forms of a kernel come to can be kept as it stands: values of first order, of which a string, a vector or a record
/// leads to the start of a fixed block of its own sort, each cell set, each string ended by 0, and no block that was made at run
/// time. The kinds of the kernel's records must have at least one field each, and makers that name each field once.
pub fn forms_leave_what_can_be_kept()
    ensures { FormsLeave }
{}
