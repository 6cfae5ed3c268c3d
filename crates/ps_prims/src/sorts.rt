//! What primitives take and answer.

ghost use Rattle.std.specs.Prelude.{◌≡◌, List};
ghost use Rattle.ps_types.specs.declared.types.RecordKind.{RecordKind as KindSpec};
ghost use Rattle.ps_prims.specs.Sorts.{first_order};
ghost use Rattle.ps_prims.specs.Records.{fields, sort_of, sort_of_field};
ghost use Rattle.ps_prims.specs.Rows.{row};
ghost use Rattle.ps_prims.specs.InsideSorts.{named_operands};

use crate::kinds::fields_of;
use ps_base::Prim;
use ps_types::{Kinds, Ty};
use sqlite_items::at;

/// The type of an operand or an answer of a primitive.
#[derive(Clone, Copy, Debug, PartialEq, Eq)]
pub enum Sort {
    /// An integer.
    Integer,
    /// A boolean.
    Boolean,
    /// A character.
    Char,
    /// The value of what has no other.
    Unit,
    /// An address.
    Address,
    /// A string.
    Text,
    /// A vector of any type, which is the same one in the whole row.
    Vector,
    /// A record of the kind of this number.
    Record(u32),
    /// Any type, the same one in the whole row.
    Any,
}

/// The sort of the answer of a primitive, whatever the kinds of records are.
pub fn answer_of(p: Prim) -> Sort
    ensures { (kinds : List KindSpec) → result ≡ (row first_order kinds p).answer }
{
    match p {
        Prim::Add => Sort::Integer,
        Prim::Subtract => Sort::Integer,
        Prim::Multiply => Sort::Integer,
        Prim::Quotient => Sort::Integer,
        Prim::Remainder => Sort::Integer,
        Prim::Modulo => Sort::Integer,
        Prim::Equal => Sort::Boolean,
        Prim::Less => Sort::Boolean,
        Prim::Greater => Sort::Boolean,
        Prim::LessOrEqual => Sort::Boolean,
        Prim::GreaterOrEqual => Sort::Boolean,
        Prim::IsZero => Sort::Boolean,
        Prim::IsPositive => Sort::Boolean,
        Prim::IsNegative => Sort::Boolean,
        Prim::BitwiseAnd => Sort::Integer,
        Prim::BitwiseOr => Sort::Integer,
        Prim::BitwiseXor => Sort::Integer,
        Prim::BitwiseNot => Sort::Integer,
        Prim::ShiftLeft => Sort::Integer,
        Prim::ArithmeticShiftRight => Sort::Integer,
        Prim::LogicalShiftRight => Sort::Integer,
        Prim::Not => Sort::Boolean,
        Prim::BooleanEqual => Sort::Boolean,
        Prim::CharEqual => Sort::Boolean,
        Prim::CharLess => Sort::Boolean,
        Prim::CharToAscii => Sort::Integer,
        Prim::AsciiToChar => Sort::Char,
        Prim::Unspecific => Sort::Unit,
        Prim::StringLength => Sort::Integer,
        Prim::StringRef => Sort::Char,
        Prim::MakeVector => Sort::Vector,
        Prim::VectorRef => Sort::Any,
        Prim::VectorSet => Sort::Unit,
        Prim::IsNullVector => Sort::Boolean,
        Prim::DeallocateVector => Sort::Unit,
        Prim::ReadByte => Sort::Integer,
        Prim::WriteByte => Sort::Unit,
        Prim::NullAddress => Sort::Address,
        Prim::IsNullAddress => Sort::Boolean,
        Prim::AllocateMemory => Sort::Address,
        Prim::DeallocateMemory => Sort::Unit,
        Prim::UnsignedByteRef => Sort::Integer,
        Prim::UnsignedByteSet => Sort::Unit,
        Prim::WordRef => Sort::Integer,
        Prim::WordSet => Sort::Unit,
        Prim::AddressAdd => Sort::Address,
        Prim::AddressDifference => Sort::Integer,
        Prim::AddressEqual => Sort::Boolean,
        Prim::AddressLess => Sort::Boolean,
        Prim::StringAppend => Sort::Text,
        Prim::StringEqual => Sort::Boolean,
        Prim::VectorLength => Sort::Integer,
        Prim::Maker(k) => Sort::Record(k),
        Prim::Predicate(_) => Sort::Boolean,
        Prim::Accessor(_, _) => Sort::Any,
        Prim::Modifier(_, _) => Sort::Unit,
    }
}

/// The sorts of the operands of a primitive, in order; none, where it is one of records.
pub fn named_operands(p: Prim) -> &'static [Sort]
    ensures { result.now ≡ named_operands p }
{
    match p {
        Prim::Add => &[Sort::Integer, Sort::Integer],
        Prim::Subtract => &[Sort::Integer, Sort::Integer],
        Prim::Multiply => &[Sort::Integer, Sort::Integer],
        Prim::Quotient => &[Sort::Integer, Sort::Integer],
        Prim::Remainder => &[Sort::Integer, Sort::Integer],
        Prim::Modulo => &[Sort::Integer, Sort::Integer],
        Prim::Equal => &[Sort::Integer, Sort::Integer],
        Prim::Less => &[Sort::Integer, Sort::Integer],
        Prim::Greater => &[Sort::Integer, Sort::Integer],
        Prim::LessOrEqual => &[Sort::Integer, Sort::Integer],
        Prim::GreaterOrEqual => &[Sort::Integer, Sort::Integer],
        Prim::IsZero => &[Sort::Integer],
        Prim::IsPositive => &[Sort::Integer],
        Prim::IsNegative => &[Sort::Integer],
        Prim::BitwiseAnd => &[Sort::Integer, Sort::Integer],
        Prim::BitwiseOr => &[Sort::Integer, Sort::Integer],
        Prim::BitwiseXor => &[Sort::Integer, Sort::Integer],
        Prim::BitwiseNot => &[Sort::Integer],
        Prim::ShiftLeft => &[Sort::Integer, Sort::Integer],
        Prim::ArithmeticShiftRight => &[Sort::Integer, Sort::Integer],
        Prim::LogicalShiftRight => &[Sort::Integer, Sort::Integer],
        Prim::Not => &[Sort::Boolean],
        Prim::BooleanEqual => &[Sort::Boolean, Sort::Boolean],
        Prim::CharEqual => &[Sort::Char, Sort::Char],
        Prim::CharLess => &[Sort::Char, Sort::Char],
        Prim::CharToAscii => &[Sort::Char],
        Prim::AsciiToChar => &[Sort::Integer],
        Prim::Unspecific => &[],
        Prim::StringLength => &[Sort::Text],
        Prim::StringRef => &[Sort::Text, Sort::Integer],
        Prim::MakeVector => &[Sort::Integer, Sort::Any],
        Prim::VectorRef => &[Sort::Vector, Sort::Integer],
        Prim::VectorSet => &[Sort::Vector, Sort::Integer, Sort::Any],
        Prim::IsNullVector => &[Sort::Vector],
        Prim::DeallocateVector => &[Sort::Vector],
        Prim::ReadByte => &[],
        Prim::WriteByte => &[Sort::Integer],
        Prim::NullAddress => &[],
        Prim::IsNullAddress => &[Sort::Address],
        Prim::AllocateMemory => &[Sort::Integer],
        Prim::DeallocateMemory => &[Sort::Address],
        Prim::UnsignedByteRef => &[Sort::Address],
        Prim::UnsignedByteSet => &[Sort::Address, Sort::Integer],
        Prim::WordRef => &[Sort::Address],
        Prim::WordSet => &[Sort::Address, Sort::Integer],
        Prim::AddressAdd => &[Sort::Address, Sort::Integer],
        Prim::AddressDifference => &[Sort::Address, Sort::Address],
        Prim::AddressEqual => &[Sort::Address, Sort::Address],
        Prim::AddressLess => &[Sort::Address, Sort::Address],
        Prim::StringAppend => &[Sort::Text, Sort::Text],
        Prim::StringEqual => &[Sort::Text, Sort::Text],
        Prim::VectorLength => &[Sort::Vector],
        Prim::Maker(_) => &[],
        Prim::Predicate(_) => &[],
        Prim::Accessor(_, _) => &[],
        Prim::Modifier(_, _) => &[],
    }
}

// The sort of the values of a type.
fn sort_of(t: &Ty) -> Sort
    ensures { result ≡ sort_of t.now }
{
    match t {
        Ty::Integer => Sort::Integer,
        Ty::Boolean => Sort::Boolean,
        Ty::Char => Sort::Char,
        Ty::Unit => Sort::Unit,
        Ty::Address => Sort::Address,
        Ty::Text => Sort::Text,
        Ty::Vector(_) => Sort::Vector,
        Ty::Tuple(k) => Sort::Record(*k),
        Ty::Proc(_, _) => Sort::Any,
        Ty::Var(_) => Sort::Any,
    }
}

/// The sort of a field of a kind.
pub fn sort_of_field(kinds: &Kinds, k: u32, f: u32) -> Sort
    ensures { result ≡ sort_of_field (fields kinds.now k) f }
{
    match at(fields_of(kinds, k), f as usize) {
        Some(t) => sort_of(t),
        None => Sort::Any,
    }
}
