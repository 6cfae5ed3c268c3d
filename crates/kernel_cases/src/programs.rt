//! Programs of procedures as they are shown: each procedure in brackets behind its column, with its name and its number of
//! parameters. A write is `!`, a parameter `x` with its number, and a procedure `f` with its number. Each expression stands
//! behind its column.

use kernel_data::text_of;
use ps_base::{Names, Place};
use ps_plain::{Comparison, Expr, Operator, Procedure, Program};
use std::alloc::{AllocError, Global};

// Writes the column of a place, and a colon.
fn put_column(out: &mut String, place: Place) -> Result<(), AllocError> {
    write!(out, "{}:", place.column)
}

fn operator_text(operator: Operator) -> &'static str {
    match operator {
        Operator::Add => "(+",
        Operator::Subtract => "(-",
        Operator::Multiply => "(*",
    }
}

fn comparison_text(comparison: Comparison) -> &'static str {
    match comparison {
        Comparison::Less => "(<",
        Comparison::Equal => "(=",
    }
}

#[cycle(put_expr)]
fn put_expr(out: &mut String, expr: &Expr) -> Result<(), AllocError> {
    match expr {
        Expr::Integer(place, i) => write!(out, "{}:{i}", place.column),
        Expr::Parameter(place, number) => write!(out, "{}:x{number}", place.column),
        Expr::Operation(place, operator, a, b) => {
            put_column(out, *place)?;
            out.push_str(operator_text(*operator))?;
            put_next(out, a.get())?;
            put_next(out, b.get())?;
            out.push_str(")")
        }
        Expr::If(place, at, comparison, a, b, c, d) => {
            put_column(out, *place)?;
            out.push_str("(if ")?;
            put_column(out, *at)?;
            out.push_str(comparison_text(*comparison))?;
            put_next(out, a.get())?;
            put_next(out, b.get())?;
            out.push_str(")")?;
            put_next(out, c.get())?;
            put_next(out, d.get())?;
            out.push_str(")")
        }
        Expr::Call(place, at, procedure, operands) => {
            put_column(out, *place)?;
            out.push_str("(")?;
            put_column(out, *at)?;
            write!(out, "f{procedure}")?;
            for operand in operands.as_slice() {
                put_next(out, operand)?;
            }
            out.push_str(")")
        }
        Expr::ReadByte(place) => write!(out, "{}:(read-byte)", place.column),
    }
}

// Writes a blank and an expression.
#[cycle(put_expr)]
fn put_next(out: &mut String, expr: &Expr) -> Result<(), AllocError> {
    out.push_str(" ")?;
    put_expr(out, expr)
}

fn put_procedure(out: &mut String, names: &Names, procedure: &Procedure) -> Result<(), AllocError> {
    put_column(out, procedure.place)?;
    let name = str::from_utf8(text_of(names, procedure.name)).unwrap_or("?");
    write!(out, "[{name} {}", procedure.parameters)?;
    for write in procedure.writes.as_slice() {
        out.push_str(" ")?;
        put_column(out, write.place)?;
        out.push_str("(!")?;
        put_next(out, &write.value)?;
        out.push_str(")")?;
    }
    put_next(out, &procedure.value)?;
    out.push_str("]")
}

/// A program as it is shown.
pub fn shown(alloc: Global, names: &Names, program: &Program) -> Result<String, AllocError> {
    let mut out = String::new(alloc);
    for procedure in program.procedures.as_slice() {
        put_procedure(&mut out, names, procedure)?;
    }
    Ok(out)
}
