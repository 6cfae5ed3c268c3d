//! Kinds of records.

ghost use Rattle.std.specs.Prelude.{◌+◌, ◌≤◌, ◌^◌, length, codes};
ghost use Rattle.ps_show.specs.InsidePages.{Adds};
ghost use Rattle.ps_show.specs.Shown.{Text, ◌⋄◌, behind};
ghost use Rattle.ps_show.specs.Words.{numbered, field_word};
ghost use Rattle.ps_show.specs.ShowText.{type_text, field_text, fields_text, kind_text, kind_lines};
ghost use Rattle.ps_show.specs.InsideForms.{vector_text};

use crate::page::{BEGINNING, Page, deepen, put, put_numbered};
use crate::words::{
    put_accessor, put_field, put_kind_type, put_maker, put_modifier, put_predicate,
};
use ps_types::{RecordKind, Ty};

// The levels of brackets that the type of a field may open.
const TYPE_LEVELS: u32 = 198;

/// The kinds, each on its line.
pub(crate) fn put_kinds(page: &mut Page, kinds: &[RecordKind])
    ensures { Adds page.old page.new (kind_lines 0 kinds.now) }
{
    for (k, kind) in kinds.iter().enumerate() {
        put_kind(page, k as u64, kind);
        put(page, b"\n");
    }
}

// Kind k.
#[tactic(auto, using(crate::proofs::PagesAreJoined::adds_then), unfolding(crate::specs::ShowText::kind_text))]
fn put_kind(page: &mut Page, k: u64, kind: &RecordKind)
    ensures { Adds page.old page.new (kind_text k kind.now) }
{
    put(page, b"(define-record-type ");
    put_numbered(page, b"%r", k);
    put(page, b" ");
    put_kind_type(page, k);
    put(page, b" (");
    put_maker(page, k);
    put_maker_fields(page, k, kind.maker.as_slice());
    put(page, b") ");
    put_predicate(page, k);
    put_fields(page, k, kind.fields.as_slice());
    put(page, b")");
}

// The fields that the maker of kind k takes, each behind a space.
fn put_maker_fields(page: &mut Page, k: u64, fields: &[u32])
    ensures { Adds page.old page.new (behind (field_word k) fields.now) }
{
    for field in fields {
        put(page, b" ");
        put_field(page, k, *field as u64);
    }
}

// The fields of kind k.
fn put_fields(page: &mut Page, k: u64, fields: &[Ty])
    ensures { Adds page.old page.new (fields_text k 0 fields.now) }
{
    for (f, t) in fields.iter().enumerate() {
        put_field_of(page, k, f as u64, t);
    }
}

// Field f of kind k.
#[tactic(auto, using(crate::proofs::PagesAreJoined::adds_then), unfolding(crate::specs::ShowText::field_text))]
fn put_field_of(page: &mut Page, k: u64, f: u64, t: &Ty)
    ensures { Adds page.old page.new (field_text k f t.now) }
{
    put(page, b" (");
    put_field(page, k, f);
    put(page, b" ");
    put_type(page, t, TYPE_LEVELS);
    put(page, b" ");
    put_accessor(page, k, f);
    put(page, b" ");
    put_modifier(page, k, f);
    put(page, b")");
}

// A type that stands in so many levels.
#[cycle(typing)]
#[tactic(auto, unfolding(crate::specs::ShowText::type_text))]
fn put_type(page: &mut Page, t: &Ty, levels: u32)
    ensures { Adds page.old page.new (type_text levels t.now) }
{
    match t {
        Ty::Integer => put(page, b"integer"),
        Ty::Boolean => put(page, b"boolean"),
        Ty::Char => put(page, b"char"),
        Ty::Unit => put(page, b"unit"),
        Ty::Address => put(page, b"address"),
        Ty::Text => put(page, b"string"),
        Ty::Vector(item) => put_vector(page, item.get(), levels),
        Ty::Tuple(kind) => put_kind_type(page, *kind as u64),
        Ty::Proc(_, _) => put(page, b"proc"),
        Ty::Var(variable) => put_numbered(page, b"t", *variable as u64),
    }
}

// The type of vectors of items.
#[cycle(typing)]
fn put_vector(page: &mut Page, item: &Ty, levels: u32)
    ensures { Adds page.old page.new (vector_text levels item.now) }
{
    if levels == 0 {
        deepen(page, BEGINNING);
        return;
    }
    put(page, b"(vector ");
    put_type(page, item, levels - 1);
    put(page, b")");
}
