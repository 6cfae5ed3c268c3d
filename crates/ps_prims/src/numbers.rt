//! What primitives answer of numbers.

ghost use Rattle.std.specs.Prelude.{◌≡◌, ◌≢◌, ◌<◌, ℕ, pos, int_div, Some, is_some, IsTrue, true};
ghost use Rattle.std.specs.Int.{w64, CanDivide};
ghost use Rattle.ps_base.specs.Numbers.{is_word};
ghost use Rattle.ps_prims.specs.Rows.{byte_of, char_of, modulo, is_zero, is_negative};
ghost use Rattle.ps_prims.specs.Inside.{calculated, divided, shifted, compared, tested};

use ps_base::Op;

/// What is made of two integers.
#[derive(Clone, Copy)]
pub enum Arithmetic {
    Add,
    Subtract,
    Multiply,
    And,
    Or,
    Xor,
}

/// A division.
#[derive(Clone, Copy)]
pub enum Division {
    Quotient,
    Remainder,
    Modulo,
}

/// A shift.
#[derive(Clone, Copy)]
pub enum Shift {
    Left,
    ArithmeticRight,
    LogicalRight,
}

/// A comparison of two integers.
#[derive(Clone, Copy)]
pub enum Comparison {
    Equal,
    Less,
    Greater,
    LessOrEqual,
    GreaterOrEqual,
}

/// A test of an integer.
#[derive(Clone, Copy)]
pub enum Sign {
    Zero,
    Positive,
    Negative,
}

pub fn add(i: i64, j: i64) -> Result<i64, Op>
    ensures { result ≡ calculated Arithmetic.Add i j }
{
    match i.checked_add(j) {
        Some(n) => Ok(n),
        None => Err(Op::Overflow),
    }
}

pub fn subtract(i: i64, j: i64) -> Result<i64, Op>
    ensures { result ≡ calculated Arithmetic.Subtract i j }
{
    match i.checked_sub(j) {
        Some(n) => Ok(n),
        None => Err(Op::Overflow),
    }
}

pub fn multiply(i: i64, j: i64) -> Result<i64, Op>
    ensures { result ≡ calculated Arithmetic.Multiply i j }
{
    match i.checked_mul(j) {
        Some(n) => Ok(n),
        None => Err(Op::Overflow),
    }
}

pub fn calculate(operation: Arithmetic, i: i64, j: i64) -> Result<i64, Op>
    ensures { result ≡ calculated operation i j }
{
    match operation {
        Arithmetic::Add => add(i, j),
        Arithmetic::Subtract => subtract(i, j),
        Arithmetic::Multiply => multiply(i, j),
        Arithmetic::And => Ok(i & j),
        Arithmetic::Or => Ok(i | j),
        Arithmetic::Xor => Ok(i ^ j),
    }
}

// The remainder with the sign of the divisor.
fn modulus(i: i64, j: i64) -> i64
    requires { CanDivide w64 i j }
    ensures { result ≡ modulo i j }
{
    let remainder = i % j;
    if remainder < 0 && 0 < j {
        return remainder + j;
    }
    if 0 < remainder && j < 0 {
        return remainder + j;
    }
    remainder
}

pub fn divide(operation: Division, i: i64, j: i64) -> Result<i64, Op>
    ensures { result ≡ divided operation i j }
{
    if j == 0 || i.checked_div(j).is_none() {
        return Err(Op::Division);
    }
    match operation {
        Division::Quotient => Ok(i / j),
        Division::Remainder => Ok(i % j),
        Division::Modulo => Ok(modulus(i, j)),
    }
}

pub fn shift_by(operation: Shift, i: i64, count: i64) -> Result<i64, Op>
    ensures { result ≡ shifted operation i count }
{
    if count < 0 || 63 < count {
        return Err(Op::Shift);
    }
    match operation {
        Shift::Left => Ok(i << count),
        Shift::ArithmeticRight => Ok(i >> count),
        Shift::LogicalRight => Ok((i.cast_unsigned() >> count).cast_signed()),
    }
}

pub fn compare(comparison: Comparison, i: i64, j: i64) -> bool
    ensures { result ≡ compared comparison i j }
{
    match comparison {
        Comparison::Equal => i == j,
        Comparison::Less => i < j,
        Comparison::Greater => i > j,
        Comparison::LessOrEqual => i <= j,
        Comparison::GreaterOrEqual => i >= j,
    }
}

pub fn has_sign(sign: Sign, i: i64) -> bool
    ensures { result ≡ tested sign i }
{
    match sign {
        Sign::Zero => i == 0,
        Sign::Positive => 0 < i,
        Sign::Negative => i < 0,
    }
}

/// The character of this code.
pub fn character(code: i64) -> Result<u8, Op>
    ensures { result ≡ char_of code }
{
    match u8::try_from(code) {
        Ok(code) => Ok(code),
        Err(_) => Err(Op::Char),
    }
}

/// The integer, where it is a byte.
pub fn byte(i: i64) -> Result<i64, Op>
    ensures { result ≡ byte_of i }
{
    if 0 <= i && i < 256 {
        Ok(i)
    } else {
        Err(Op::Byte)
    }
}
