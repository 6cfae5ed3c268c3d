//! Units as text.

ghost use Rattle.std.specs.Prelude.{◌≡◌, List, [], ◌∷◌, codes, decimal};
ghost use Rattle.ps_base.specs.Sinks.{Adds, Writes};
ghost use Rattle.ps_base.specs.Texts.{◌&◌, each};
ghost use Rattle.c_ast.specs.declared.unit.Statement.TheVariants as statements;
ghost use Rattle.c_ast.specs.Text.{natural_text, negative_text, integer_text, atom_text, operator_text, next_argument, arguments_text, statement_text, next_parameters, parameters_text, head_text, Announces, Declares, Does, line_text, lines_text, variable_lines, function_lines, text_of};

use c_ast::{Atom, BinaryOperator, CFunction, CUnit, PRELUDE, Statement};
use ps_base::{Sink, SinkFault, Style, Written, put, put_all, put_each, put_number};

#[tactic(auto, using(ps_base::proofs::Writing::adds_then), unfolding(c_ast::specs::Text::natural_text))]
fn put_natural<O: Sink>(out: &mut O, so_far: Written, number: u64) -> Written
    ensures { Adds (O.shows out.old) so_far (O.shows out.new) result (natural_text number) }
{
    let so_far = put(out, so_far, b"INT64_C(");
    let so_far = put_number(out, so_far, number);
    put(out, so_far, b")")
}

#[tactic(auto, using(ps_base::proofs::Writing::adds_then), unfolding(c_ast::specs::Text::negative_text))]
fn put_negative<O: Sink>(out: &mut O, so_far: Written, number: u64) -> Written
    ensures { Adds (O.shows out.old) so_far (O.shows out.new) result (negative_text number) }
{
    let so_far = put(out, so_far, b"(-INT64_C(");
    let so_far = put_number(out, so_far, number);
    put(out, so_far, b"))")
}

fn put_integer<O: Sink>(out: &mut O, so_far: Written, number: i64) -> Written
    ensures { Adds (O.shows out.old) so_far (O.shows out.new) result (integer_text number) }
{
    let magnitude = number.unsigned_abs();
    if number >= 0 {
        put_natural(out, so_far, magnitude)
    } else if magnitude == 9223372036854775808 {
        put(out, so_far, b"(-INT64_C(9223372036854775807)-INT64_C(1))")
    } else {
        put_negative(out, so_far, magnitude)
    }
}

#[tactic(auto, using(ps_base::proofs::Writing::adds_then))]
fn put_variable<O: Sink>(out: &mut O, so_far: Written, number: u32) -> Written
    ensures { Adds (O.shows out.old) so_far (O.shows out.new) result (codes "v" & decimal number) }
{
    let so_far = put(out, so_far, b"v");
    put_number(out, so_far, number as u64)
}

#[tactic(auto, unfolding(c_ast::specs::Text::atom_text))]
fn put_atom<O: Sink>(out: &mut O, so_far: Written, atom: Atom) -> Written
    ensures { Adds (O.shows out.old) so_far (O.shows out.new) result (atom_text atom) }
{
    match atom {
        Atom::Variable(number) => put_variable(out, so_far, number),
        Atom::Integer(number) => put_integer(out, so_far, number),
    }
}

#[tactic(auto, unfolding(c_ast::specs::Text::operator_text))]
fn operator_text_of(operator: BinaryOperator) -> &'static [u8]
    ensures { result.now ≡ operator_text operator }
{
    match operator {
        BinaryOperator::Add => b"+",
        BinaryOperator::Subtract => b"-",
        BinaryOperator::Multiply => b"*",
        BinaryOperator::Less => b"<",
        BinaryOperator::Equal => b"==",
    }
}

fn put_operator<O: Sink>(out: &mut O, so_far: Written, operator: BinaryOperator) -> Written
    ensures { Adds (O.shows out.old) so_far (O.shows out.new) result (operator_text operator) }
{
    put(out, so_far, operator_text_of(operator))
}

// The front of a statement that assigns a variable.
#[tactic(auto, using(ps_base::proofs::Writing::adds_then))]
fn put_target<O: Sink>(out: &mut O, so_far: Written, target: u32) -> Written
    ensures { Adds (O.shows out.old) so_far (O.shows out.new) result (codes "  v" & decimal target & codes " = ") }
{
    let so_far = put(out, so_far, b"  v");
    let so_far = put_number(out, so_far, target as u64);
    put(out, so_far, b" = ")
}

fn put_move<O: Sink>(out: &mut O, so_far: Written, target: u32, atom: Atom) -> Written
    ensures { Adds (O.shows out.old) so_far (O.shows out.new) result (statement_text (statements.Move target atom)) }
{
    let so_far = put_target(out, so_far, target);
    let so_far = put_atom(out, so_far, atom);
    put(out, so_far, b";")
}

fn put_operation<O: Sink>(
    out: &mut O,
    so_far: Written,
    target: u32,
    left: Atom,
    operator: BinaryOperator,
    right: Atom,
) -> Written
    ensures { Adds (O.shows out.old) so_far (O.shows out.new) result (statement_text (statements.Operation target left operator right)) }
{
    let so_far = put_target(out, so_far, target);
    let so_far = put_atom(out, so_far, left);
    let so_far = put(out, so_far, b" ");
    let so_far = put_operator(out, so_far, operator);
    let so_far = put(out, so_far, b" ");
    let so_far = put_atom(out, so_far, right);
    put(out, so_far, b";")
}

fn put_read<O: Sink>(out: &mut O, so_far: Written, target: u32) -> Written
    ensures { Adds (O.shows out.old) so_far (O.shows out.new) result (statement_text (statements.Read target)) }
{
    let so_far = put_target(out, so_far, target);
    put(out, so_far, b"ps_read();")
}

fn put_write<O: Sink>(out: &mut O, so_far: Written, target: u32, atom: Atom) -> Written
    ensures { Adds (O.shows out.old) so_far (O.shows out.new) result (statement_text (statements.Write target atom)) }
{
    let so_far = put_target(out, so_far, target);
    let so_far = put(out, so_far, b"ps_write(");
    let so_far = put_atom(out, so_far, atom);
    put(out, so_far, b");")
}

// The arguments of a call behind the first.
struct NextArguments;

impl Style<u32> for NextArguments {
    ghost text = { next_argument };

    fn put_at<O: Sink>(out: &mut O, so_far: Written, _place: u64, item: &u32) -> Written {
        let so_far = put(out, so_far, b", v");
        put_number(out, so_far, *item as u64)
    }
}

fn put_arguments<O: Sink>(out: &mut O, so_far: Written, arguments: &[u32]) -> Written
    ensures { Adds (O.shows out.old) so_far (O.shows out.new) result (arguments_text arguments.now) }
{
    match arguments.split_first() {
        Some((first, others)) => {
            let so_far = put_variable(out, so_far, *first);
            put_each::<NextArguments, u32, O>(out, so_far, 0, others)
        }
        None => so_far,
    }
}

fn put_call<O: Sink>(
    out: &mut O,
    so_far: Written,
    target: u32,
    function: u32,
    arguments: &[u32],
) -> Written
    ensures { Adds (O.shows out.old) so_far (O.shows out.new) result (statement_text (statements.Call target function arguments.now)) }
{
    let so_far = put_target(out, so_far, target);
    let so_far = put(out, so_far, b"ps_f");
    let so_far = put_number(out, so_far, function as u64);
    let so_far = put(out, so_far, b"(");
    let so_far = put_arguments(out, so_far, arguments);
    put(out, so_far, b");")
}

#[tactic(auto, using(ps_base::proofs::Writing::adds_then), unfolding(c_ast::specs::Text::statement_text))]
fn put_if_goto<O: Sink>(out: &mut O, so_far: Written, atom: Atom, label: u32) -> Written
    ensures { Adds (O.shows out.old) so_far (O.shows out.new) result (statement_text (statements.IfGoto atom label)) }
{
    let so_far = put(out, so_far, b"  if (");
    let so_far = put_atom(out, so_far, atom);
    let so_far = put(out, so_far, b") goto L");
    let so_far = put_number(out, so_far, label as u64);
    put(out, so_far, b";")
}

#[tactic(auto, using(ps_base::proofs::Writing::adds_then), unfolding(c_ast::specs::Text::statement_text))]
fn put_goto<O: Sink>(out: &mut O, so_far: Written, label: u32) -> Written
    ensures { Adds (O.shows out.old) so_far (O.shows out.new) result (statement_text (statements.Goto label)) }
{
    let so_far = put(out, so_far, b"  goto L");
    let so_far = put_number(out, so_far, label as u64);
    put(out, so_far, b";")
}

#[tactic(auto, using(ps_base::proofs::Writing::adds_then), unfolding(c_ast::specs::Text::statement_text))]
fn put_label<O: Sink>(out: &mut O, so_far: Written, label: u32) -> Written
    ensures { Adds (O.shows out.old) so_far (O.shows out.new) result (statement_text (statements.Label label)) }
{
    let so_far = put(out, so_far, b"L");
    let so_far = put_number(out, so_far, label as u64);
    put(out, so_far, b":;")
}

#[tactic(auto, using(ps_base::proofs::Writing::adds_then), unfolding(c_ast::specs::Text::statement_text))]
fn put_return<O: Sink>(out: &mut O, so_far: Written, atom: Atom) -> Written
    ensures { Adds (O.shows out.old) so_far (O.shows out.new) result (statement_text (statements.Return atom)) }
{
    let so_far = put(out, so_far, b"  return ");
    let so_far = put_atom(out, so_far, atom);
    put(out, so_far, b";")
}

fn put_statement<O: Sink>(out: &mut O, so_far: Written, statement: &Statement) -> Written
    ensures { Adds (O.shows out.old) so_far (O.shows out.new) result (statement_text statement.now) }
{
    match statement {
        Statement::Move(target, atom) => put_move(out, so_far, *target, *atom),
        Statement::Operation(target, left, operator, right) => {
            put_operation(out, so_far, *target, *left, *operator, *right)
        }
        Statement::Read(target) => put_read(out, so_far, *target),
        Statement::Write(target, atom) => put_write(out, so_far, *target, *atom),
        Statement::Call(target, function, arguments) => {
            put_call(out, so_far, *target, *function, arguments.as_slice())
        }
        Statement::IfGoto(atom, label) => put_if_goto(out, so_far, *atom, *label),
        Statement::Goto(label) => put_goto(out, so_far, *label),
        Statement::Label(label) => put_label(out, so_far, *label),
        Statement::Return(atom) => put_return(out, so_far, *atom),
    }
}

// A line whose text is known.
#[tactic(auto, using(ps_base::proofs::Writing::adds_then))]
fn put_line<O: Sink>(out: &mut O, so_far: Written, line: &[u8]) -> Written
    ensures { Adds (O.shows out.old) so_far (O.shows out.new) result (line.now & codes "\n") }
{
    let so_far = put(out, so_far, line);
    put(out, so_far, b"\n")
}

// The declaration of a variable.
fn put_declared<O: Sink>(out: &mut O, so_far: Written, number: u64) -> Written
    ensures { Adds (O.shows out.old) so_far (O.shows out.new) result (line_text (Declares number) & codes "\n") }
{
    let so_far = put(out, so_far, b"  int64_t v");
    let so_far = put_number(out, so_far, number);
    let so_far = put(out, so_far, b";");
    put(out, so_far, b"\n")
}

// The declarations of so many variables from the first on.
fn put_variables<O: Sink>(out: &mut O, so_far: Written, first: u32, count: u32) -> Written
    ensures { Adds (O.shows out.old) so_far (O.shows out.new) result (lines_text (variable_lines first count)) }
{
    let mut so_far = so_far;
    let first = first as u64;
    for k in first..first + count as u64 {
        so_far = put_declared(out, so_far, k);
    }
    so_far
}

// The lines of statements.
struct StatementLines;

impl Style<Statement> for StatementLines {
    ghost text = { λ place s. lines_text (Does s ∷ []) };

    fn put_at<O: Sink>(out: &mut O, so_far: Written, _place: u64, item: &Statement) -> Written {
        let so_far = put_statement(out, so_far, item);
        put(out, so_far, b"\n")
    }
}

fn put_parameter<O: Sink>(out: &mut O, so_far: Written, number: u32) -> Written
    ensures { Adds (O.shows out.old) so_far (O.shows out.new) result (codes ", int64_t v" & decimal number) }
{
    let so_far = put(out, so_far, b", int64_t v");
    put_number(out, so_far, number as u64)
}

fn put_parameters<O: Sink>(out: &mut O, so_far: Written, count: u32) -> Written
    ensures { Adds (O.shows out.old) so_far (O.shows out.new) result (parameters_text count) }
{
    if count == 0 {
        return put(out, so_far, b"void");
    }
    let mut so_far = put(out, so_far, b"int64_t v0");
    for k in 1..count {
        so_far = put_parameter(out, so_far, k);
    }
    so_far
}

// How a function is declared, which its definition begins with.
fn put_head<O: Sink>(out: &mut O, so_far: Written, function: u64, parameters: u32) -> Written
    ensures { Adds (O.shows out.old) so_far (O.shows out.new) result (head_text function parameters) }
{
    let so_far = put(out, so_far, b"static int64_t ps_f");
    let so_far = put_number(out, so_far, function);
    let so_far = put(out, so_far, b"(");
    let so_far = put_parameters(out, so_far, parameters);
    put(out, so_far, b")")
}

// The declarations of functions. The place of one is its number.
struct Declarations;

impl Style<CFunction> for Declarations {
    ghost text = { λ number f. lines_text (Announces number f.parameters ∷ []) };

    fn put_at<O: Sink>(out: &mut O, so_far: Written, place: u64, item: &CFunction) -> Written {
        let so_far = put_head(out, so_far, place, item.parameters);
        put_line(out, so_far, b";")
    }
}

// The definitions of functions. The place of one is its number.
struct Definitions;

impl Style<CFunction> for Definitions {
    ghost text = { λ number f. lines_text (function_lines number f) };

    fn put_at<O: Sink>(out: &mut O, so_far: Written, place: u64, item: &CFunction) -> Written {
        let so_far = put_head(out, so_far, place, item.parameters);
        let so_far = put_line(out, so_far, b" {");
        let so_far = put_variables(out, so_far, item.parameters, item.locals);
        let so_far = put_all::<StatementLines, Statement, O>(out, so_far, &item.statements);
        put_line(out, so_far, b"}")
    }
}

/// Appends the text of the unit. It takes no memory. It fails only where the sink's count of faults rose; then a front of
/// the text was appended. The first piece that the sink is given begins with the whole prelude.
pub fn emit<O: Sink>(unit: &CUnit, out: &mut O) -> Result<(), SinkFault>
    ensures { Writes (O.shows out.old) (O.shows out.new) (text_of unit.now) result }
{
    let so_far = put(out, Ok(()), PRELUDE);
    let so_far = put_all::<Declarations, CFunction, O>(out, so_far, &unit.functions);
    let so_far = put_all::<Definitions, CFunction, O>(out, so_far, &unit.functions);
    put_line(
        out,
        so_far,
        b"int main(void) { return (int)(ps_f0() & 255); }",
    )
}
