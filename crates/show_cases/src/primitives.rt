//! All primitives.

use kernel_data::Trouble;
use ps_base::{Items, Place, Prim};
use ps_kernel::{Expr, ExprKind, Form};
use std::alloc::Global;

// The primitives that are no records', in the order in which they are declared.
const PRIMITIVES: &[Prim] = &[
    Prim::Add,
    Prim::Subtract,
    Prim::Multiply,
    Prim::Quotient,
    Prim::Remainder,
    Prim::Modulo,
    Prim::Equal,
    Prim::Less,
    Prim::Greater,
    Prim::LessOrEqual,
    Prim::GreaterOrEqual,
    Prim::IsZero,
    Prim::IsPositive,
    Prim::IsNegative,
    Prim::BitwiseAnd,
    Prim::BitwiseOr,
    Prim::BitwiseXor,
    Prim::BitwiseNot,
    Prim::ShiftLeft,
    Prim::ArithmeticShiftRight,
    Prim::LogicalShiftRight,
    Prim::Not,
    Prim::BooleanEqual,
    Prim::CharEqual,
    Prim::CharLess,
    Prim::CharToAscii,
    Prim::AsciiToChar,
    Prim::Unspecific,
    Prim::StringLength,
    Prim::StringRef,
    Prim::MakeVector,
    Prim::VectorRef,
    Prim::VectorSet,
    Prim::IsNullVector,
    Prim::DeallocateVector,
    Prim::ReadByte,
    Prim::WriteByte,
    Prim::NullAddress,
    Prim::IsNullAddress,
    Prim::AllocateMemory,
    Prim::DeallocateMemory,
    Prim::UnsignedByteRef,
    Prim::UnsignedByteSet,
    Prim::WordRef,
    Prim::WordSet,
    Prim::AddressAdd,
    Prim::AddressDifference,
    Prim::AddressEqual,
    Prim::AddressLess,
    Prim::StringAppend,
    Prim::StringEqual,
    Prim::VectorLength,
];

// Where each expression stands.
const PLACE: Place = Place {
    file: 0,
    line: 1,
    column: 1,
};

/// A sequence of all primitives, without operands.
pub fn all_primitives(alloc: Global) -> Result<Form, Trouble> {
    let mut parts = Items::new(alloc);
    for prim in PRIMITIVES {
        parts.push(Expr {
            place: PLACE,
            kind: ExprKind::Primitive(*prim, Items::new(alloc)),
        })?;
    }
    Ok(Form::Do(Expr {
        place: PLACE,
        kind: ExprKind::Begin(parts),
    }))
}
