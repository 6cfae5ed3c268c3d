//! The primitives in groups that are performed alike.

ghost use Rattle.std.specs.Prelude.{◌≡◌, List};
ghost use Rattle.ps_types.specs.declared.types.RecordKind.{RecordKind as KindSpec};
ghost use Rattle.ps_prims.specs.Sorts.{first_order};
ghost use Rattle.ps_prims.specs.Rows.{row};
ghost use Rattle.ps_prims.specs.Needs.{need};
ghost use Rattle.ps_prims.specs.InsideGroups.{group_need, group_row};

use crate::numbers::{Arithmetic, Comparison, Division, Shift, Sign};
use ps_base::Prim;

/// A group of primitives, and which one of it.
#[derive(Clone, Copy)]
pub enum Group {
    Arithmetic(Arithmetic),
    Division(Division),
    Shift(Shift),
    Comparison(Comparison),
    Sign(Sign),
    Plain(Plain),
    Look(Look),
    Glance(Glance),
    Change(Change),
    Make(Make),
    OnRecord(OnRecord),
    ReadByte,
    WriteByte,
}

/// A primitive that sees nothing but its operands, of other sorts.
#[derive(Clone, Copy)]
pub enum Plain {
    BitwiseNot,
    Not,
    BooleanEqual,
    CharEqual,
    CharLess,
    CharToAscii,
    AsciiToChar,
    Unspecific,
    NullAddress,
}

/// A primitive that looks at the memory, which is seen from outside.
#[derive(Clone, Copy)]
pub enum Look {
    StringLength,
    StringRef,
    VectorRef,
    ByteRef,
    WordRef,
}

/// A primitive that looks at the memory, which is not seen from outside.
#[derive(Clone, Copy)]
pub enum Glance {
    IsNullVector,
    IsNullAddress,
    AddressAdd,
    AddressDifference,
    AddressEqual,
    AddressLess,
    VectorLength,
}

/// A primitive that changes the memory.
#[derive(Clone, Copy)]
pub enum Change {
    VectorSet,
    DeallocateVector,
    DeallocateMemory,
    ByteSet,
    WordSet,
}

/// A primitive that makes a block, or copies strings.
#[derive(Clone, Copy)]
pub enum Make {
    Vector,
    Memory,
    String,
    StringEqual,
}

/// A primitive of the records of a kind, and of a field of them.
#[derive(Clone, Copy)]
pub enum OnRecord {
    Maker(u32),
    Predicate(u32),
    Accessor(u32, u32),
    Modifier(u32, u32),
}

/// The group of a primitive.
pub fn group_of(p: Prim) -> Group
    ensures row { (kinds : List KindSpec) → row first_order kinds p ≡ group_row kinds result }
    ensures need { need p ≡ group_need result }
{
    match p {
        Prim::Add => Group::Arithmetic(Arithmetic::Add),
        Prim::Subtract => Group::Arithmetic(Arithmetic::Subtract),
        Prim::Multiply => Group::Arithmetic(Arithmetic::Multiply),
        Prim::Quotient => Group::Division(Division::Quotient),
        Prim::Remainder => Group::Division(Division::Remainder),
        Prim::Modulo => Group::Division(Division::Modulo),
        Prim::Equal => Group::Comparison(Comparison::Equal),
        Prim::Less => Group::Comparison(Comparison::Less),
        Prim::Greater => Group::Comparison(Comparison::Greater),
        Prim::LessOrEqual => Group::Comparison(Comparison::LessOrEqual),
        Prim::GreaterOrEqual => Group::Comparison(Comparison::GreaterOrEqual),
        Prim::IsZero => Group::Sign(Sign::Zero),
        Prim::IsPositive => Group::Sign(Sign::Positive),
        Prim::IsNegative => Group::Sign(Sign::Negative),
        Prim::BitwiseAnd => Group::Arithmetic(Arithmetic::And),
        Prim::BitwiseOr => Group::Arithmetic(Arithmetic::Or),
        Prim::BitwiseXor => Group::Arithmetic(Arithmetic::Xor),
        Prim::BitwiseNot => Group::Plain(Plain::BitwiseNot),
        Prim::ShiftLeft => Group::Shift(Shift::Left),
        Prim::ArithmeticShiftRight => Group::Shift(Shift::ArithmeticRight),
        Prim::LogicalShiftRight => Group::Shift(Shift::LogicalRight),
        Prim::Not => Group::Plain(Plain::Not),
        Prim::BooleanEqual => Group::Plain(Plain::BooleanEqual),
        Prim::CharEqual => Group::Plain(Plain::CharEqual),
        Prim::CharLess => Group::Plain(Plain::CharLess),
        Prim::CharToAscii => Group::Plain(Plain::CharToAscii),
        Prim::AsciiToChar => Group::Plain(Plain::AsciiToChar),
        Prim::Unspecific => Group::Plain(Plain::Unspecific),
        Prim::StringLength => Group::Look(Look::StringLength),
        Prim::StringRef => Group::Look(Look::StringRef),
        Prim::MakeVector => Group::Make(Make::Vector),
        Prim::VectorRef => Group::Look(Look::VectorRef),
        Prim::VectorSet => Group::Change(Change::VectorSet),
        Prim::IsNullVector => Group::Glance(Glance::IsNullVector),
        Prim::DeallocateVector => Group::Change(Change::DeallocateVector),
        Prim::ReadByte => Group::ReadByte,
        Prim::WriteByte => Group::WriteByte,
        Prim::NullAddress => Group::Plain(Plain::NullAddress),
        Prim::IsNullAddress => Group::Glance(Glance::IsNullAddress),
        Prim::AllocateMemory => Group::Make(Make::Memory),
        Prim::DeallocateMemory => Group::Change(Change::DeallocateMemory),
        Prim::UnsignedByteRef => Group::Look(Look::ByteRef),
        Prim::UnsignedByteSet => Group::Change(Change::ByteSet),
        Prim::WordRef => Group::Look(Look::WordRef),
        Prim::WordSet => Group::Change(Change::WordSet),
        Prim::AddressAdd => Group::Glance(Glance::AddressAdd),
        Prim::AddressDifference => Group::Glance(Glance::AddressDifference),
        Prim::AddressEqual => Group::Glance(Glance::AddressEqual),
        Prim::AddressLess => Group::Glance(Glance::AddressLess),
        Prim::StringAppend => Group::Make(Make::String),
        Prim::StringEqual => Group::Make(Make::StringEqual),
        Prim::VectorLength => Group::Glance(Glance::VectorLength),
        Prim::Maker(k) => Group::OnRecord(OnRecord::Maker(k)),
        Prim::Predicate(k) => Group::OnRecord(OnRecord::Predicate(k)),
        Prim::Accessor(k, f) => Group::OnRecord(OnRecord::Accessor(k, f)),
        Prim::Modifier(k, f) => Group::OnRecord(OnRecord::Modifier(k, f)),
    }
}
