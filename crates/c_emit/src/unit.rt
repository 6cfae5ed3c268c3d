//! From programs to units.

ghost use Rattle.std.specs.Prelude.{◌≡◌, ℕ, ◌+◌, ◌<◌, ◌^◌, ◌++◌, ◌∷◌, [], length, map, slice_set, OnOk, IfOk};
ghost use Rattle.byte_store.specs.Agree.{Agree, Shallow};
ghost use Rattle.byte_store.specs.Worlds.{Surroundings};
ghost use Rattle.ps_plain.specs.Meaning.{Source};
ghost use Rattle.ps_plain.specs.Size.{program_size};
ghost use Rattle.ps_plain.specs.Valid.{IsValid};
ghost use Rattle.c_ast.specs.declared.unit.Atom.TheVariants as atoms;
ghost use Rattle.c_ast.specs.declared.unit.Statement.TheVariants as statements;
ghost use Rattle.c_ast.specs.WellFormed.{IsWellFormed};
ghost use Rattle.c_meaning.specs.Machine.{CRun};
ghost use Rattle.c_emit.specs.InsideCode.{operator_of, comparison_of, coded, operands_size, operands_labels, operands_code, operands_places, writes_size, writes_labels, function_of, unit_of};

use c_ast::{Atom, BinaryOperator, CFunction, CUnit, Statement};
use ps_base::{Items, NoMemory};
use ps_plain::{Comparison, Expr, Operator, Procedure, Program};
use std::alloc::Global;

// The statements so far, and the numbers of the next variable and the next label.
#[derive(Drop)]
struct Code {
    statements: Items<Statement>,
    variables: u32,
    labels: u32,
}

fn operator_of(operator: Operator) -> BinaryOperator
    ensures { result ≡ operator_of operator }
{
    match operator {
        Operator::Add => BinaryOperator::Add,
        Operator::Subtract => BinaryOperator::Subtract,
        Operator::Multiply => BinaryOperator::Multiply,
    }
}

fn comparison_of(comparison: Comparison) -> BinaryOperator
    ensures { result ≡ comparison_of comparison }
{
    match comparison {
        Comparison::Less => BinaryOperator::Less,
        Comparison::Equal => BinaryOperator::Equal,
    }
}

fn push(code: &mut Code, statement: Statement) -> Result<(), NoMemory>
    ensures { OnOk result (code.new ≡ record code.old { statements = code.old.statements ++ statement ∷ [] }) }
{
    code.statements.push(statement)?;
    Ok(())
}

// Appends an operation of two atoms, and answers its variable.
fn operate(code: &mut Code, x: Atom, operator: BinaryOperator, y: Atom) -> Result<u32, NoMemory>
    requires { code.old.variables + 1 < 2 ^ 32 }
    ensures code { OnOk result (code.new ≡ record code.old { statements = code.old.statements ++ statements.Operation code.old.variables x operator y ∷ []; variables = code.old.variables + 1 }) }
    ensures target { IfOk result (λ target. target ≡ code.old.variables) }
{
    let target = code.variables;
    code.variables += 1;
    push(code, Statement::Operation(target, x, operator, y))?;
    Ok(target)
}

// Leaves room for a jump, and answers its place.
fn reserve(code: &mut Code) -> Result<usize, NoMemory>
    ensures code { OnOk result (code.new ≡ record code.old { statements = code.old.statements ++ statements.Goto 0 ∷ [] }) }
    ensures place { IfOk result (λ place. place ≡ length code.old.statements) }
{
    let place = code.statements.len();
    push(code, Statement::Goto(0))?;
    Ok(place)
}

// Assigns the value of the second branch, leaves room for the jump to the end, and begins the first branch, to which the
// jump at `branch` goes. Answers the place of the jump to the end.
fn turn(code: &mut Code, target: u32, value: Atom, branch: usize) -> Result<usize, NoMemory>
    requires branch { branch < length code.old.statements }
    requires labels { code.old.labels + 1 < 2 ^ 32 }
    ensures statements { OnOk result (code.new.statements ≡ slice_set (code.old.statements ++ statements.Move target value ∷ statements.Goto 0 ∷ []) branch (statements.IfGoto (atoms.Variable target) code.old.labels) ++ statements.Label code.old.labels ∷ []) }
    ensures variables { OnOk result (code.new.variables ≡ code.old.variables) }
    ensures labels { OnOk result (code.new.labels ≡ code.old.labels + 1) }
    ensures jump { IfOk result (λ jump. jump ≡ length code.old.statements + 1) }
{
    let label = code.labels;
    code.labels += 1;
    push(code, Statement::Move(target, value))?;
    let jump = code.statements.len();
    push(code, Statement::Goto(0))?;
    code.statements
        .set(branch, Statement::IfGoto(Atom::Variable(target), label));
    push(code, Statement::Label(label))?;
    Ok(jump)
}

// Assigns the value of the first branch, and ends the conditional, to which the jump at `jump` goes.
fn finish(code: &mut Code, target: u32, value: Atom, jump: usize) -> Result<(), NoMemory>
    requires jump { jump < length code.old.statements }
    requires labels { code.old.labels + 1 < 2 ^ 32 }
    ensures statements { OnOk result (code.new.statements ≡ slice_set (code.old.statements ++ statements.Move target value ∷ []) jump (statements.Goto code.old.labels) ++ statements.Label code.old.labels ∷ []) }
    ensures variables { OnOk result (code.new.variables ≡ code.old.variables) }
    ensures labels { OnOk result (code.new.labels ≡ code.old.labels + 1) }
{
    let label = code.labels;
    code.labels += 1;
    push(code, Statement::Move(target, value))?;
    code.statements.set(jump, Statement::Goto(label));
    push(code, Statement::Label(label))
}

// Gives the next variable.
fn take_variable(code: &mut Code) -> u32
    requires { code.old.variables + 1 < 2 ^ 32 }
    ensures code { code.new ≡ record code.old { variables = code.old.variables + 1 } }
    ensures target { result ≡ code.old.variables }
{
    let target = code.variables;
    code.variables += 1;
    target
}

// Appends the statements that compute the expression, and answers where its value is. The two jumps of a conditional are
// written once the numbers of their labels are known.
#[cycle(build_expr)]
fn build_expr(alloc: Global, code: &mut Code, e: &Expr) -> Result<Atom, NoMemory>
    requires variables { code.old.variables + (coded e.now).size + 1 < 2 ^ 32 }
    requires labels { code.old.labels + (coded e.now).labels + 1 < 2 ^ 32 }
    ensures statements { OnOk result (code.new.statements ≡ code.old.statements ++ (coded e.now).statements code.old.variables code.old.labels) }
    ensures variables { OnOk result (code.new.variables ≡ code.old.variables + (coded e.now).size) }
    ensures labels { OnOk result (code.new.labels ≡ code.old.labels + (coded e.now).labels) }
    ensures atom { IfOk result (λ atom. atom ≡ (coded e.now).atom code.old.variables) }
{
    match e {
        Expr::Integer(_, i) => Ok(Atom::Integer(*i)),
        Expr::Parameter(_, k) => Ok(Atom::Variable(*k)),
        Expr::Operation(_, operator, a, b) => {
            let x = build_expr(alloc, code, a.get())?;
            let y = build_expr(alloc, code, b.get())?;
            let target = operate(code, x, operator_of(*operator), y)?;
            Ok(Atom::Variable(target))
        }
        Expr::If(_, _, comparison, a, b, c, d) => {
            let x = build_expr(alloc, code, a.get())?;
            let y = build_expr(alloc, code, b.get())?;
            let target = operate(code, x, comparison_of(*comparison), y)?;
            let branch = reserve(code)?;
            let other = build_expr(alloc, code, d.get())?;
            let jump = turn(code, target, other, branch)?;
            let first = build_expr(alloc, code, c.get())?;
            finish(code, target, first, jump)?;
            Ok(Atom::Variable(target))
        }
        Expr::Call(_, _, function, operands) => {
            let arguments = build_operands(alloc, code, operands.as_slice())?;
            let target = take_variable(code);
            push(code, Statement::Call(target, *function, arguments))?;
            Ok(Atom::Variable(target))
        }
        Expr::ReadByte(_) => {
            let target = take_variable(code);
            push(code, Statement::Read(target))?;
            Ok(Atom::Variable(target))
        }
    }
}

// Appends the statements that compute the operands of a call, and answers their variables.
#[cycle(build_expr)]
fn build_operands(alloc: Global, code: &mut Code, operands: &[Expr]) -> Result<Items<u32>, NoMemory>
    requires variables { code.old.variables + operands_size (map coded operands.now) + 1 < 2 ^ 32 }
    requires labels { code.old.labels + operands_labels (map coded operands.now) + 1 < 2 ^ 32 }
    ensures statements { OnOk result (code.new.statements ≡ code.old.statements ++ operands_code (map coded operands.now) code.old.variables code.old.labels) }
    ensures variables { OnOk result (code.new.variables ≡ code.old.variables + operands_size (map coded operands.now)) }
    ensures labels { OnOk result (code.new.labels ≡ code.old.labels + operands_labels (map coded operands.now)) }
    ensures places { IfOk result (λ places. places ≡ operands_places (map coded operands.now) code.old.variables) }
{
    let mut places = Items::new(alloc);
    for e in operands {
        let value = build_expr(alloc, code, e)?;
        let target = take_variable(code);
        push(code, Statement::Move(target, value))?;
        places.push(target)?;
    }
    Ok(places)
}

// Appends the statements that write the value of the expression as a byte.
fn build_write(alloc: Global, code: &mut Code, e: &Expr) -> Result<(), NoMemory>
    requires variables { code.old.variables + (coded e.now).size + 1 < 2 ^ 32 }
    requires labels { code.old.labels + (coded e.now).labels + 1 < 2 ^ 32 }
    ensures statements { OnOk result (code.new.statements ≡ code.old.statements ++ ((coded e.now).statements code.old.variables code.old.labels ++ (statements.Write (code.old.variables + (coded e.now).size) ((coded e.now).atom code.old.variables) ∷ []))) }
    ensures variables { OnOk result (code.new.variables ≡ code.old.variables + ((coded e.now).size + 1)) }
    ensures labels { OnOk result (code.new.labels ≡ code.old.labels + (coded e.now).labels) }
{
    let byte = build_expr(alloc, code, e)?;
    let target = take_variable(code);
    push(code, Statement::Write(target, byte))
}

// The function of a procedure. It has a variable for each operation, each conditional, each call, each operand of a call,
// and each byte that is read or written.
fn build_function(alloc: Global, procedure: &Procedure) -> Result<CFunction, NoMemory>
    requires variables { procedure.now.parameters + (writes_size procedure.now.writes + (coded procedure.now.value).size) + 1 < 2 ^ 32 }
    requires labels { writes_labels procedure.now.writes + (coded procedure.now.value).labels + 1 < 2 ^ 32 }
    ensures { IfOk result (λ function. function ≡ function_of procedure.now) }
{
    let mut code = Code {
        statements: Items::new(alloc),
        variables: procedure.parameters,
        labels: 0,
    };
    for write in procedure.writes.as_slice() {
        build_write(alloc, &mut code, &write.value)?;
    }
    let value = build_expr(alloc, &mut code, &procedure.value)?;
    push(&mut code, Statement::Return(value))?;
    let Code {
        statements,
        variables,
        labels: _,
    } = code;
    Ok(CFunction {
        parameters: procedure.parameters,
        locals: variables - procedure.parameters,
        statements,
    })
}

// A function for each procedure, with its number.
fn build_unit(alloc: Global, program: &Program) -> Result<CUnit, NoMemory>
    requires { program_size program.now + 1 < 2 ^ 32 }
    ensures { IfOk result (λ unit. unit ≡ unit_of program.now) }
{
    let mut functions = Items::new(alloc);
    for procedure in program.procedures.as_slice() {
        functions.push(build_function(alloc, procedure)?)?;
    }
    Ok(CUnit { functions })
}

/// The unit of a program: function N computes procedure N. In every world it does what the program does, and has at most one
/// frame more than the program's calls are deep. The program must be valid, and smaller than 4,294,967,295.
///
/// # Errors
///
/// `NoMemory` where memory ran out.
pub fn build(alloc: Global, program: &Program) -> Result<CUnit, NoMemory>
    requires valid { IsValid program.now }
    requires small { program_size program.now + 1 < 2 ^ 32 }
    ensures formed { IfOk result (λ unit. IsWellFormed unit) }
    ensures agree { IfOk result (λ unit. (w : Surroundings) → Agree (Source program.now w) (CRun unit w)) }
    ensures shallow { IfOk result (λ unit. (w : Surroundings) → Shallow 1 (Source program.now w) (CRun unit w)) }
{
    let unit = build_unit(alloc, program)?;
    Ok(unit)
}
