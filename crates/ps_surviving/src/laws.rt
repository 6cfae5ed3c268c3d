//! The laws of the runs of survivors. Each is the contract of a function that does nothing.

ghost use Rattle.ps_surviving.specs.Laws.{FormsLeavePrograms, SurvivorsRunAlike};

/// For every program that the forms of a kernel leave, the run that begins with its survivors alone has, in every world and for
/// every bound on calls, the events, the end and the depth of the program's run; and so it is with a limit on cells.
#[tactic(auto, using(crate::proofs::SurvivorsRunAlike::survivors_run_alike))]
pub fn survivors_run_alike()
    ensures { SurvivorsRunAlike }
{}

/// What the top-level forms of a kernel come to is such a program, within each budget and with however many cells. The kernel must
/// keep the rules, and its lambdas must list what their procedures keep.
pub fn forms_leave_programs()
    ensures { FormsLeavePrograms }
{}
