//! The table of primitives: when each may be performed, and which operands it takes.

ghost use Rattle.std.specs.Prelude.{◌≡◌, List, length, slice_get};
ghost use Rattle.ps_base.specs.declared.language.PrimName.TheVariants as PrimName;
ghost use Rattle.ps_prims.specs.Sorts.{first_order};
ghost use Rattle.ps_prims.specs.Rows.{row};
ghost use Rattle.ps_types.specs.declared.types.RecordKind.{RecordKind as KindSpec};

use crate::kinds::maker_of;
use crate::sorts::{Sort, named_operands, sort_of_field};
use crate::stages::Stages;
use ps_base::Prim;
use ps_types::Kinds;
use sqlite_items::at;

/// The stages to which a primitive belongs, whatever the kinds of records are.
pub fn stages_of(p: Prim) -> Stages
    ensures { (kinds : List KindSpec) → result ≡ (row first_order kinds p).stages }
{
    match p {
        Prim::Add => Stages::Both,
        Prim::Subtract => Stages::Both,
        Prim::Multiply => Stages::Both,
        Prim::Quotient => Stages::Both,
        Prim::Remainder => Stages::Both,
        Prim::Modulo => Stages::Both,
        Prim::Equal => Stages::Both,
        Prim::Less => Stages::Both,
        Prim::Greater => Stages::Both,
        Prim::LessOrEqual => Stages::Both,
        Prim::GreaterOrEqual => Stages::Both,
        Prim::IsZero => Stages::Both,
        Prim::IsPositive => Stages::Both,
        Prim::IsNegative => Stages::Both,
        Prim::BitwiseAnd => Stages::Both,
        Prim::BitwiseOr => Stages::Both,
        Prim::BitwiseXor => Stages::Both,
        Prim::BitwiseNot => Stages::Both,
        Prim::ShiftLeft => Stages::Both,
        Prim::ArithmeticShiftRight => Stages::Both,
        Prim::LogicalShiftRight => Stages::Both,
        Prim::Not => Stages::Both,
        Prim::BooleanEqual => Stages::Both,
        Prim::CharEqual => Stages::Both,
        Prim::CharLess => Stages::Both,
        Prim::CharToAscii => Stages::Both,
        Prim::AsciiToChar => Stages::Both,
        Prim::Unspecific => Stages::Both,
        Prim::StringLength => Stages::Both,
        Prim::StringRef => Stages::Both,
        Prim::MakeVector => Stages::Both,
        Prim::VectorRef => Stages::Both,
        Prim::VectorSet => Stages::Both,
        Prim::IsNullVector => Stages::Both,
        Prim::DeallocateVector => Stages::RunOnly,
        Prim::ReadByte => Stages::RunOnly,
        Prim::WriteByte => Stages::RunOnly,
        Prim::NullAddress => Stages::Both,
        Prim::IsNullAddress => Stages::Both,
        Prim::AllocateMemory => Stages::RunOnly,
        Prim::DeallocateMemory => Stages::RunOnly,
        Prim::UnsignedByteRef => Stages::RunOnly,
        Prim::UnsignedByteSet => Stages::RunOnly,
        Prim::WordRef => Stages::RunOnly,
        Prim::WordSet => Stages::RunOnly,
        Prim::AddressAdd => Stages::RunOnly,
        Prim::AddressDifference => Stages::RunOnly,
        Prim::AddressEqual => Stages::RunOnly,
        Prim::AddressLess => Stages::RunOnly,
        Prim::StringAppend => Stages::CompileOnly,
        Prim::StringEqual => Stages::CompileOnly,
        Prim::VectorLength => Stages::CompileOnly,
        Prim::Maker(_) => Stages::Both,
        Prim::Predicate(_) => Stages::Both,
        Prim::Accessor(_, _) => Stages::Both,
        Prim::Modifier(_, _) => Stages::Both,
    }
}

/// How many operands a primitive takes, where these are the kinds of records: a maker takes one for each field that its kind
/// names.
pub fn arity_of(p: Prim, kinds: &Kinds) -> usize
    ensures { result ≡ length (row first_order kinds.now p).operands }
{
    match p {
        Prim::Maker(k) => maker_of(kinds, k).len(),
        Prim::Predicate(_) => 1,
        Prim::Accessor(_, _) => 1,
        Prim::Modifier(_, _) => 2,
        _ => named_operands(p).len(),
    }
}

// The sort of an operand of a maker.
fn maker_operand(kinds: &Kinds, k: u32, i: usize) -> Option<Sort>
    ensures { result ≡ slice_get (row first_order kinds.now (PrimName.Maker k)).operands i }
{
    match at(maker_of(kinds, k), i) {
        Some(field) => Some(sort_of_field(kinds, k, *field)),
        None => None,
    }
}

/// The sort of the operand of a primitive at a place, where these are the kinds of records; none, where it takes no operand
/// there.
pub fn operand_at(p: Prim, kinds: &Kinds, i: usize) -> Option<Sort>
    ensures { result ≡ slice_get (row first_order kinds.now p).operands i }
{
    match p {
        Prim::Maker(k) => maker_operand(kinds, k, i),
        Prim::Predicate(k) => at(&[Sort::Record(k)], i).copied(),
        Prim::Accessor(k, _) => at(&[Sort::Record(k)], i).copied(),
        Prim::Modifier(k, f) => { at(&[Sort::Record(k), sort_of_field(kinds, k, f)], i).copied() }
        _ => at(named_operands(p), i).copied(),
    }
}
