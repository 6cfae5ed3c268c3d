//! Operands of primitives, taken by their sorts. Each function answers none where the number or the sorts of the operands
//! are others.

ghost use Rattle.std.specs.Prelude.{◌≡◌, ◌≢◌, [], ◌∷◌, true, false, length, is_some, MatchOption};
ghost use Rattle.byte_store.specs.declared.pointer.Value.TheVariants as value;
ghost use Rattle.ps_prims.specs.Sorts.{as_address, as_boolean, as_char, as_integer, as_record, as_text, as_unit, as_vector, first_order, fits, read, Address as AddressSort, Any as AnySort, Boolean as BooleanSort, Char as CharSort, Integer as IntegerSort, Record as RecordSort, Text as TextSort, Vector as VectorSort};

use crate::sorts::Sort;
use byte_store::{Pointer, Value};

fn one(args: &[Value]) -> Option<Value>
    ensures { MatchOption result (length args.now ≢ 1) (λ v. args.now ≡ v ∷ []) }
{
    match args {
        [v] => Some(*v),
        _ => None,
    }
}

fn two(args: &[Value]) -> Option<(Value, Value)>
    ensures { MatchOption result (length args.now ≢ 2) (λ r. args.now ≡ r.0 ∷ r.1 ∷ []) }
{
    match args {
        [v, w] => Some((*v, *w)),
        _ => None,
    }
}

fn three(args: &[Value]) -> Option<(Value, Value, Value)>
    ensures { MatchOption result (length args.now ≢ 3) (λ r. args.now ≡ r.0 ∷ r.1 ∷ r.2 ∷ []) }
{
    match args {
        [v, w, x] => Some((*v, *w, *x)),
        _ => None,
    }
}

fn integer(v: Value) -> Option<i64>
    ensures { result ≡ as_integer v }
{
    match v {
        Value::Integer(i) => Some(i),
        Value::Boolean(_) => None,
        Value::Char(_) => None,
        Value::Unit => None,
        Value::Address(_) => None,
        Value::Text(_) => None,
        Value::Vector(_) => None,
        Value::Tuple(_, _) => None,
    }
}

fn boolean(v: Value) -> Option<bool>
    ensures { result ≡ as_boolean v }
{
    match v {
        Value::Integer(_) => None,
        Value::Boolean(b) => Some(b),
        Value::Char(_) => None,
        Value::Unit => None,
        Value::Address(_) => None,
        Value::Text(_) => None,
        Value::Vector(_) => None,
        Value::Tuple(_, _) => None,
    }
}

fn character(v: Value) -> Option<u8>
    ensures { result ≡ as_char v }
{
    match v {
        Value::Integer(_) => None,
        Value::Boolean(_) => None,
        Value::Char(code) => Some(code),
        Value::Unit => None,
        Value::Address(_) => None,
        Value::Text(_) => None,
        Value::Vector(_) => None,
        Value::Tuple(_, _) => None,
    }
}

fn is_unit(v: Value) -> bool
    ensures { result ≡ is_some (as_unit v) }
{
    match v {
        Value::Integer(_) => false,
        Value::Boolean(_) => false,
        Value::Char(_) => false,
        Value::Unit => true,
        Value::Address(_) => false,
        Value::Text(_) => false,
        Value::Vector(_) => false,
        Value::Tuple(_, _) => false,
    }
}

fn address(v: Value) -> Option<Pointer>
    ensures { result ≡ as_address v }
{
    match v {
        Value::Integer(_) => None,
        Value::Boolean(_) => None,
        Value::Char(_) => None,
        Value::Unit => None,
        Value::Address(p) => Some(p),
        Value::Text(_) => None,
        Value::Vector(_) => None,
        Value::Tuple(_, _) => None,
    }
}

fn text(v: Value) -> Option<Pointer>
    ensures { result ≡ as_text v }
{
    match v {
        Value::Integer(_) => None,
        Value::Boolean(_) => None,
        Value::Char(_) => None,
        Value::Unit => None,
        Value::Address(_) => None,
        Value::Text(p) => Some(p),
        Value::Vector(_) => None,
        Value::Tuple(_, _) => None,
    }
}

fn vector(v: Value) -> Option<Pointer>
    ensures { result ≡ as_vector v }
{
    match v {
        Value::Integer(_) => None,
        Value::Boolean(_) => None,
        Value::Char(_) => None,
        Value::Unit => None,
        Value::Address(_) => None,
        Value::Text(_) => None,
        Value::Vector(p) => Some(p),
        Value::Tuple(_, _) => None,
    }
}

fn record(k: u32, v: Value) -> Option<Pointer>
    ensures { result ≡ as_record k v }
{
    match v {
        Value::Integer(_) => None,
        Value::Boolean(_) => None,
        Value::Char(_) => None,
        Value::Unit => None,
        Value::Address(_) => None,
        Value::Text(_) => None,
        Value::Vector(_) => None,
        Value::Tuple(kind, p) => { if kind == k { Some(p) } else { None } }
    }
}

/// Whether a value is of a sort.
pub fn is_of(v: Value, sort: Sort) -> bool
    ensures { result ≡ is_some (read first_order sort v) }
{
    match sort {
        Sort::Integer => integer(v).is_some(),
        Sort::Boolean => boolean(v).is_some(),
        Sort::Char => character(v).is_some(),
        Sort::Unit => is_unit(v),
        Sort::Address => address(v).is_some(),
        Sort::Text => text(v).is_some(),
        Sort::Vector => vector(v).is_some(),
        Sort::Record(k) => record(k, v).is_some(),
        Sort::Any => true,
    }
}

/// An integer.
#[tactic(auto, using(crate::proofs::OtherNumbersFitNoRow::other_number))]
pub fn one_integer(args: &[Value]) -> Option<i64>
    ensures { MatchOption result (fits first_order (IntegerSort ∷ []) args.now ≡ false) (λ r. args.now ≡ value.Integer r ∷ []) }
{
    integer(one(args)?)
}

/// Two integers.
#[tactic(auto, using(crate::proofs::OtherNumbersFitNoRow::other_number))]
pub fn two_integers(args: &[Value]) -> Option<(i64, i64)>
    ensures { MatchOption result (fits first_order (IntegerSort ∷ IntegerSort ∷ []) args.now ≡ false) (λ r. args.now ≡ value.Integer r.0 ∷ value.Integer r.1 ∷ []) }
{
    let (v, w) = two(args)?;
    Some((integer(v)?, integer(w)?))
}

/// A boolean.
#[tactic(auto, using(crate::proofs::OtherNumbersFitNoRow::other_number))]
pub fn one_boolean(args: &[Value]) -> Option<bool>
    ensures { MatchOption result (fits first_order (BooleanSort ∷ []) args.now ≡ false) (λ r. args.now ≡ value.Boolean r ∷ []) }
{
    boolean(one(args)?)
}

/// Two booleans.
#[tactic(auto, using(crate::proofs::OtherNumbersFitNoRow::other_number))]
pub fn two_booleans(args: &[Value]) -> Option<(bool, bool)>
    ensures { MatchOption result (fits first_order (BooleanSort ∷ BooleanSort ∷ []) args.now ≡ false) (λ r. args.now ≡ value.Boolean r.0 ∷ value.Boolean r.1 ∷ []) }
{
    let (v, w) = two(args)?;
    Some((boolean(v)?, boolean(w)?))
}

/// A character.
#[tactic(auto, using(crate::proofs::OtherNumbersFitNoRow::other_number))]
pub fn one_char(args: &[Value]) -> Option<u8>
    ensures { MatchOption result (fits first_order (CharSort ∷ []) args.now ≡ false) (λ r. args.now ≡ value.Char r ∷ []) }
{
    character(one(args)?)
}

/// Two characters.
#[tactic(auto, using(crate::proofs::OtherNumbersFitNoRow::other_number))]
pub fn two_chars(args: &[Value]) -> Option<(u8, u8)>
    ensures { MatchOption result (fits first_order (CharSort ∷ CharSort ∷ []) args.now ≡ false) (λ r. args.now ≡ value.Char r.0 ∷ value.Char r.1 ∷ []) }
{
    let (v, w) = two(args)?;
    Some((character(v)?, character(w)?))
}

/// A string.
#[tactic(auto, using(crate::proofs::OtherNumbersFitNoRow::other_number))]
pub fn one_text(args: &[Value]) -> Option<Pointer>
    ensures { MatchOption result (fits first_order (TextSort ∷ []) args.now ≡ false) (λ r. args.now ≡ value.Text r ∷ []) }
{
    text(one(args)?)
}

/// A string and an integer.
#[tactic(auto, using(crate::proofs::OtherNumbersFitNoRow::other_number))]
pub fn text_and_integer(args: &[Value]) -> Option<(Pointer, i64)>
    ensures { MatchOption result (fits first_order (TextSort ∷ IntegerSort ∷ []) args.now ≡ false) (λ r. args.now ≡ value.Text r.0 ∷ value.Integer r.1 ∷ []) }
{
    let (v, w) = two(args)?;
    Some((text(v)?, integer(w)?))
}

/// Two strings.
#[tactic(auto, using(crate::proofs::OtherNumbersFitNoRow::other_number))]
pub fn two_texts(args: &[Value]) -> Option<(Pointer, Pointer)>
    ensures { MatchOption result (fits first_order (TextSort ∷ TextSort ∷ []) args.now ≡ false) (λ r. args.now ≡ value.Text r.0 ∷ value.Text r.1 ∷ []) }
{
    let (v, w) = two(args)?;
    Some((text(v)?, text(w)?))
}

/// An integer and any value.
#[tactic(auto, using(crate::proofs::OtherNumbersFitNoRow::other_number))]
pub fn integer_and_any(args: &[Value]) -> Option<(i64, Value)>
    ensures { MatchOption result (fits first_order (IntegerSort ∷ AnySort ∷ []) args.now ≡ false) (λ r. args.now ≡ value.Integer r.0 ∷ r.1 ∷ []) }
{
    let (v, w) = two(args)?;
    Some((integer(v)?, w))
}

/// A vector.
#[tactic(auto, using(crate::proofs::OtherNumbersFitNoRow::other_number))]
pub fn one_vector(args: &[Value]) -> Option<Pointer>
    ensures { MatchOption result (fits first_order (VectorSort ∷ []) args.now ≡ false) (λ r. args.now ≡ value.Vector r ∷ []) }
{
    vector(one(args)?)
}

/// A vector and an integer.
#[tactic(auto, using(crate::proofs::OtherNumbersFitNoRow::other_number))]
pub fn vector_and_integer(args: &[Value]) -> Option<(Pointer, i64)>
    ensures { MatchOption result (fits first_order (VectorSort ∷ IntegerSort ∷ []) args.now ≡ false) (λ r. args.now ≡ value.Vector r.0 ∷ value.Integer r.1 ∷ []) }
{
    let (v, w) = two(args)?;
    Some((vector(v)?, integer(w)?))
}

/// A vector, an integer and any value.
#[tactic(auto, using(crate::proofs::OtherNumbersFitNoRow::other_number))]
pub fn vector_integer_any(args: &[Value]) -> Option<(Pointer, i64, Value)>
    ensures { MatchOption result (fits first_order (VectorSort ∷ IntegerSort ∷ AnySort ∷ []) args.now ≡ false) (λ r. args.now ≡ value.Vector r.0 ∷ value.Integer r.1 ∷ r.2 ∷ []) }
{
    let (v, w, x) = three(args)?;
    Some((vector(v)?, integer(w)?, x))
}

/// An address.
#[tactic(auto, using(crate::proofs::OtherNumbersFitNoRow::other_number))]
pub fn one_address(args: &[Value]) -> Option<Pointer>
    ensures { MatchOption result (fits first_order (AddressSort ∷ []) args.now ≡ false) (λ r. args.now ≡ value.Address r ∷ []) }
{
    address(one(args)?)
}

/// An address and an integer.
#[tactic(auto, using(crate::proofs::OtherNumbersFitNoRow::other_number))]
pub fn address_and_integer(args: &[Value]) -> Option<(Pointer, i64)>
    ensures { MatchOption result (fits first_order (AddressSort ∷ IntegerSort ∷ []) args.now ≡ false) (λ r. args.now ≡ value.Address r.0 ∷ value.Integer r.1 ∷ []) }
{
    let (v, w) = two(args)?;
    Some((address(v)?, integer(w)?))
}

/// Two addresses.
#[tactic(auto, using(crate::proofs::OtherNumbersFitNoRow::other_number))]
pub fn two_addresses(args: &[Value]) -> Option<(Pointer, Pointer)>
    ensures { MatchOption result (fits first_order (AddressSort ∷ AddressSort ∷ []) args.now ≡ false) (λ r. args.now ≡ value.Address r.0 ∷ value.Address r.1 ∷ []) }
{
    let (v, w) = two(args)?;
    Some((address(v)?, address(w)?))
}

/// No operand.
pub fn no_operand(args: &[Value]) -> bool
    ensures { result ≡ fits first_order [] args.now }
{
    args.is_empty()
}

/// A record of a kind.
#[tactic(auto, using(crate::proofs::OtherNumbersFitNoRow::other_number))]
pub fn one_record(k: u32, args: &[Value]) -> Option<Pointer>
    ensures { MatchOption result (fits first_order (RecordSort k ∷ []) args.now ≡ false) (λ r. args.now ≡ value.Tuple k r ∷ []) }
{
    record(k, one(args)?)
}

/// A record of a kind and a value of a sort.
#[tactic(auto, using(crate::proofs::OtherNumbersFitNoRow::other_number))]
pub fn record_and_value(k: u32, sort: Sort, args: &[Value]) -> Option<(Pointer, Value)>
    ensures { MatchOption result (fits first_order (RecordSort k ∷ sort ∷ []) args.now ≡ false) (λ r. (args.now ≡ value.Tuple k r.0 ∷ r.1 ∷ []) × (is_some (read first_order sort r.1) ≡ true)) }
{
    let (v, w) = two(args)?;
    let p = record(k, v)?;
    if is_of(w, sort) { Some((p, w)) } else { None }
}
