//! The words of a text: the names of primitives, definitions, locals and kinds of records, and labels.

ghost use Rattle.std.specs.Prelude.{◌≡◌, codes};
ghost use Rattle.ps_datum.specs.Writing.{char_text};
ghost use Rattle.ps_show.specs.InsidePages.{Adds};
ghost use Rattle.ps_show.specs.Shown.{Text, ◌⋄◌};
ghost use Rattle.ps_show.specs.Words.{numbered, kind_type, maker_word, predicate_word, field_word, accessor_word, modifier_word, global_word, local_word, plain_word, prim_word, boolean_word, label_word};

use crate::locals::Locals;
use crate::page::{Page, put, put_integer, put_numbered};
use ps_base::Prim;
use ps_kernel::CaseKind;

/// The type of a kind of records.
#[tactic(auto, unfolding(crate::specs::Words::kind_type))]
pub(crate) fn put_kind_type(page: &mut Page, kind: u64)
    ensures { Adds page.old page.new (kind_type kind) }
{
    put_numbered(page, b":%r", kind);
}

/// The maker of a kind.
#[tactic(auto, using(crate::proofs::PagesAreJoined::adds_then), unfolding(crate::specs::Words::maker_word))]
pub(crate) fn put_maker(page: &mut Page, kind: u64)
    ensures { Adds page.old page.new (maker_word kind) }
{
    put_numbered(page, b"%r", kind);
    put(page, b"-make");
}

/// The predicate of a kind.
#[tactic(auto, using(crate::proofs::PagesAreJoined::adds_then), unfolding(crate::specs::Words::predicate_word))]
pub(crate) fn put_predicate(page: &mut Page, kind: u64)
    ensures { Adds page.old page.new (predicate_word kind) }
{
    put_numbered(page, b"%r", kind);
    put(page, b"?");
}

/// A field of a kind.
#[tactic(auto, using(crate::proofs::PagesAreJoined::adds_then), unfolding(crate::specs::Words::field_word))]
pub(crate) fn put_field(page: &mut Page, kind: u64, field: u64)
    ensures { Adds page.old page.new (field_word kind field) }
{
    put_numbered(page, b"%r", kind);
    put_numbered(page, b"-", field);
}

/// The accessor of a field.
#[tactic(auto, using(crate::proofs::PagesAreJoined::adds_then), unfolding(crate::specs::Words::accessor_word))]
pub(crate) fn put_accessor(page: &mut Page, kind: u64, field: u64)
    ensures { Adds page.old page.new (accessor_word kind field) }
{
    put_field(page, kind, field);
    put(page, b"-get");
}

/// The modifier of a field.
#[tactic(auto, using(crate::proofs::PagesAreJoined::adds_then), unfolding(crate::specs::Words::modifier_word))]
pub(crate) fn put_modifier(page: &mut Page, kind: u64, field: u64)
    ensures { Adds page.old page.new (modifier_word kind field) }
{
    put_field(page, kind, field);
    put(page, b"-set");
}

/// A definition, where this one is main.
#[tactic(auto, unfolding(crate::specs::Words::global_word))]
pub(crate) fn put_global(page: &mut Page, main: u32, global: u32)
    ensures { Adds page.old page.new (global_word main global) }
{
    if global == main {
        put(page, b"main");
    } else {
        put_numbered(page, b"%g", global as u64);
    }
}

/// A local, by its place among those that are bound.
#[tactic(auto, unfolding(crate::specs::Words::local_word))]
pub(crate) fn put_local(page: &mut Page, locals: &Locals, local: u32)
    ensures { Adds page.old page.new (local_word locals.now local) }
{
    put_numbered(page, b"%l", locals.place(local) as u64);
}

// A primitive that is no record's.
#[tactic(auto, unfolding(crate::specs::Words::plain_word))]
fn plain_word_of(prim: Prim) -> &'static [u8]
    ensures { result.now ≡ plain_word prim }
{
    match prim {
        Prim::Add => b"+",
        Prim::Subtract => b"-",
        Prim::Multiply => b"*",
        Prim::Quotient => b"quotient",
        Prim::Remainder => b"remainder",
        Prim::Modulo => b"modulo",
        Prim::Equal => b"=",
        Prim::Less => b"<",
        Prim::Greater => b">",
        Prim::LessOrEqual => b"<=",
        Prim::GreaterOrEqual => b">=",
        Prim::IsZero => b"zero?",
        Prim::IsPositive => b"positive?",
        Prim::IsNegative => b"negative?",
        Prim::BitwiseAnd => b"bitwise-and",
        Prim::BitwiseOr => b"bitwise-ior",
        Prim::BitwiseXor => b"bitwise-xor",
        Prim::BitwiseNot => b"bitwise-not",
        Prim::ShiftLeft => b"shift-left",
        Prim::ArithmeticShiftRight => b"arithmetic-shift-right",
        Prim::LogicalShiftRight => b"logical-shift-right",
        Prim::Not => b"not",
        Prim::BooleanEqual => b"boolean=?",
        Prim::CharEqual => b"char=?",
        Prim::CharLess => b"char<?",
        Prim::CharToAscii => b"char->ascii",
        Prim::AsciiToChar => b"ascii->char",
        Prim::Unspecific => b"unspecific",
        Prim::StringLength => b"string-length",
        Prim::StringRef => b"string-ref",
        Prim::MakeVector => b"make-vector",
        Prim::VectorRef => b"vector-ref",
        Prim::VectorSet => b"vector-set!",
        Prim::IsNullVector => b"null-vector?",
        Prim::DeallocateVector => b"deallocate-vector",
        Prim::ReadByte => b"read-byte",
        Prim::WriteByte => b"write-byte",
        Prim::NullAddress => b"null-address",
        Prim::IsNullAddress => b"null-address?",
        Prim::AllocateMemory => b"allocate-memory",
        Prim::DeallocateMemory => b"deallocate-memory",
        Prim::UnsignedByteRef => b"unsigned-byte-ref",
        Prim::UnsignedByteSet => b"unsigned-byte-set!",
        Prim::WordRef => b"word-ref",
        Prim::WordSet => b"word-set!",
        Prim::AddressAdd => b"address+",
        Prim::AddressDifference => b"address-difference",
        Prim::AddressEqual => b"address=",
        Prim::AddressLess => b"address<",
        Prim::StringAppend => b"string-append",
        Prim::StringEqual => b"string=?",
        Prim::VectorLength => b"vector-length",
        Prim::Maker(_) => b"",
        Prim::Predicate(_) => b"",
        Prim::Accessor(_, _) => b"",
        Prim::Modifier(_, _) => b"",
    }
}

/// A primitive.
#[tactic(auto, unfolding(crate::specs::Words::prim_word))]
pub(crate) fn put_prim(page: &mut Page, prim: Prim)
    ensures { Adds page.old page.new (prim_word prim) }
{
    match prim {
        Prim::Maker(kind) => put_maker(page, kind as u64),
        Prim::Predicate(kind) => put_predicate(page, kind as u64),
        Prim::Accessor(kind, field) => put_accessor(page, kind as u64, field as u64),
        Prim::Modifier(kind, field) => put_modifier(page, kind as u64, field as u64),
        _ => put(page, plain_word_of(prim)),
    }
}

/// `#t` or `#f`.
pub(crate) fn put_boolean(page: &mut Page, boolean: bool)
    ensures { Adds page.old page.new (Text (boolean_word boolean)) }
{
    if boolean {
        put(page, b"#t");
    } else {
        put(page, b"#f");
    }
}

/// A character, by its name where it is a space or byte 10.
pub(crate) fn put_char(page: &mut Page, code: u8)
    ensures { Adds page.old page.new (Text (char_text code)) }
{
    if code == b' ' {
        put(page, b"#\\space");
    } else if code == b'\n' {
        put(page, b"#\\newline");
    } else {
        put(page, &[b'#', b'\\', code]);
    }
}

/// A label of a case.
pub(crate) fn put_label(page: &mut Page, kind: CaseKind, label: &i64)
    ensures { Adds page.old page.new (label_word kind label.now) }
{
    put_label_of(page, kind, *label);
}

// The same by its value.
#[tactic(auto, unfolding(crate::specs::Words::label_word))]
fn put_label_of(page: &mut Page, kind: CaseKind, label: i64)
    ensures { Adds page.old page.new (label_word kind label) }
{
    match kind {
        CaseKind::Integer => put_integer(page, label),
        CaseKind::Char => {
            if label >= 0 && label < 256 {
                put_char(page, label as u8);
            } else {
                put_integer(page, label);
            }
        }
    }
}
