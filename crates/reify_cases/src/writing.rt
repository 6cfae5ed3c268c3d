//! Survivors, and why there are none, as lines.

use kernel_data::Trouble;
use ps_base::{Fault, Refusal, SurviveKind};
use ps_kernel::{Kept, KeptBlock, Survivors};
use std::alloc::{AllocError, Global};

fn put_value(out: &mut String, value: Kept) -> Result<(), AllocError> {
    match value {
        Kept::Integer(i) => write!(out, " {i}"),
        Kept::Boolean(b) => out.push_str(if b { " #t" } else { " #f" }),
        Kept::Char(c) => write!(out, " char {c}"),
        Kept::Unit => out.push_str(" unit"),
        Kept::NullAddress => out.push_str(" null"),
        Kept::Text(b) => write!(out, " text {b}"),
        Kept::Vector(b) => write!(out, " vector {b}"),
        Kept::Tuple(kind, b) => write!(out, " record {kind} {b}"),
    }
}

fn put_block(out: &mut String, block: &KeptBlock) -> Result<(), AllocError> {
    match block {
        KeptBlock::Bytes(bytes) => {
            for byte in bytes.as_slice() {
                write!(out, " {byte}")?;
            }
        }
        KeptBlock::Cells(cells) => {
            for cell in cells.as_slice() {
                put_value(out, *cell)?;
            }
        }
    }
    Ok(())
}

fn put_survivors(out: &mut String, survivors: &Survivors) -> Result<(), AllocError> {
    out.push_str("procedures")?;
    for p in survivors.procedures.as_slice() {
        write!(out, " {}/{}", p.definition, p.lambda)?;
    }
    for b in survivors.blocks.as_slice() {
        write!(out, ", block {}:", b.number)?;
        put_block(out, &b.block)?;
    }
    for g in survivors.globals.as_slice() {
        write!(out, ", global {}:", g.number)?;
        put_value(out, g.value)?;
    }
    Ok(())
}

fn put_counts(out: &mut String, survivors: &Survivors) -> Result<(), AllocError> {
    write!(
        out,
        "procedures {}, blocks {}, globals {}",
        survivors.procedures.len(),
        survivors.blocks.len(),
        survivors.globals.len()
    )
}

fn word_of(kind: SurviveKind) -> &'static str {
    match kind {
        SurviveKind::CompileOnly => "compile-only",
        SurviveKind::ProcedureAssigned => "procedure-assigned",
        SurviveKind::MainMissing => "main-missing",
    }
}

fn put_refusal(out: &mut String, refusal: Refusal) -> Result<(), AllocError> {
    match refusal {
        Refusal::Fault(Fault::Survives(kind, at)) => {
            out.push_str(word_of(kind))?;
            write!(out, " {}:{}:{}", at.file, at.line, at.column)
        }
        other => write!(out, "{other:?}"),
    }
}

/// All that survives.
pub fn line(alloc: Global, answer: &Result<Survivors, Refusal>) -> Result<String, Trouble> {
    let mut out = String::new(alloc);
    match answer {
        Ok(survivors) => put_survivors(&mut out, survivors)?,
        Err(refusal) => put_refusal(&mut out, *refusal)?,
    }
    Ok(out)
}

/// How much survives.
pub fn counts(alloc: Global, answer: &Result<Survivors, Refusal>) -> Result<String, Trouble> {
    let mut out = String::new(alloc);
    match answer {
        Ok(survivors) => put_counts(&mut out, survivors)?,
        Err(refusal) => put_refusal(&mut out, *refusal)?,
    }
    Ok(out)
}
