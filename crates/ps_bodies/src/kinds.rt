//! Which `case` is a node of its own.

ghost use Rattle.ps_bodies.specs.Branches.{all_by, are_labels as labels_spec, char_of as char_spec, code_in as code_spec, has_labels, integer_of as integer_spec, kind_of as kind_spec, labels_of_all};
ghost use Rattle.ps_bodies.specs.InsideBranches.{codes_behind, then_codes, when_told};
ghost use Rattle.ps_derived.specs.Seen.{seen_case_clause};
ghost use Rattle.ps_expansion.specs.declared.stop.Stop.TheVariants.{NoMemory as WantOfMemory};
ghost use Rattle.ps_kernel.specs.Most.{most_labels};
ghost use Rattle.std.specs.List.{list_all};
ghost use Rattle.std.specs.Prelude.{MatchResult, Some, map, nat_le, nat_lt, ◌&&◌, ◌≡◌};

use crate::codes::Codes;
use ps_derived::{CaseClause, Label};
use ps_expansion::Stop;
use ps_kernel::CaseKind;
use std::alloc::Global;

/// The most labels that a node has.
const MOST_LABELS: usize = 1_023;

/// The kind of a `case` that is a node of its own: all its data are integers or all are characters, all differ, there are at most 1,023,
/// and each clause has one.
///
/// # Errors
///
/// `NoMemory` where memory ran out.
pub fn kind_of(alloc: Global, clauses: &[CaseClause]) -> Result<Option<CaseKind>, Stop>
    ensures { MatchResult result (λ r. r ≡ kind_spec (map seen_case_clause clauses.now)) (λ e. e ≡ WantOfMemory) }
{
    if !have_labels(clauses) {
        return Ok(None);
    }
    if are_labels(alloc, clauses, CaseKind::Integer)? {
        return Ok(Some(CaseKind::Integer));
    }
    if are_labels(alloc, clauses, CaseKind::Char)? {
        return Ok(Some(CaseKind::Char));
    }
    Ok(None)
}

// Whether each clause has a datum.
fn have_labels(clauses: &[CaseClause]) -> bool
    ensures { result ≡ list_all has_labels (map seen_case_clause clauses.now) }
{
    for clause in clauses {
        if clause.labels.is_empty() {
            return false;
        }
    }
    true
}

// Whether the data of all clauses may be the labels of a node of this kind.
fn are_labels(alloc: Global, clauses: &[CaseClause], kind: CaseKind) -> Result<bool, Stop>
    ensures { MatchResult result (λ r. r ≡ labels_spec (all_by (code_spec kind) (labels_of_all (map seen_case_clause clauses.now)))) (λ e. e ≡ WantOfMemory) }
{
    let mut codes = Codes::new(alloc);
    for clause in clauses {
        let are_new = add_codes(&mut codes, kind, clause.labels.as_slice())?;
        if !are_new {
            return Ok(false);
        }
    }
    Ok(are_few(codes.len()))
}

// Whether a node may have so many labels.
fn are_few(count: usize) -> bool
    ensures { result ≡ (nat_lt 0 count && nat_le count most_labels) }
{
    0 < count && count <= MOST_LABELS
}

// Adds the codes of data of this kind, and tells whether all are of it and new.
fn add_codes(codes: &mut Codes, kind: CaseKind, labels: &[Label]) -> Result<bool, Stop>
    ensures { MatchResult result (λ r. codes_behind (code_spec kind) labels.now codes.old ≡ when_told r codes.new) (λ e. e ≡ WantOfMemory) }
{
    for label in labels {
        let is_new = add_code(codes, kind, *label)?;
        if !is_new {
            return Ok(false);
        }
    }
    Ok(true)
}

// Adds the code of a datum of this kind, and tells whether it is of it and new.
fn add_code(codes: &mut Codes, kind: CaseKind, label: Label) -> Result<bool, Stop>
    ensures { MatchResult result (λ r. then_codes Some codes.old (code_spec kind label) ≡ when_told r codes.new) (λ e. e ≡ WantOfMemory) }
{
    match code_in(kind, label) {
        None => Ok(false),
        Some(code) => Ok(codes.add(code)?),
    }
}

// The code of a datum of this kind.
fn code_in(kind: CaseKind, label: Label) -> Option<i64>
    ensures { result ≡ code_spec kind label }
{
    match kind {
        CaseKind::Integer => integer_of(label),
        CaseKind::Char => char_of(label),
    }
}

// The code of an integer.
fn integer_of(label: Label) -> Option<i64>
    ensures { result ≡ integer_spec label }
{
    match label {
        Label::Integer(n) => Some(n),
        Label::Char(_) => None,
        Label::Boolean(_) => None,
    }
}

// The code of a character.
fn char_of(label: Label) -> Option<i64>
    ensures { result ≡ char_spec label }
{
    match label {
        Label::Integer(_) => None,
        Label::Char(code) => Some(i64::from(code)),
        Label::Boolean(_) => None,
    }
}
