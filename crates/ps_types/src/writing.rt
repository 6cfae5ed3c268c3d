//! Writes types.

ghost use Rattle.std.specs.Prelude.{◌≡◌, true, map, codes, decimal};
ghost use Rattle.ps_base.specs.Sinks.{Adds, Writes};
ghost use Rattle.ps_base.specs.Texts.{◌&◌};
ghost use Rattle.ps_types.specs.InsideFirsts.{Numbered};
ghost use Rattle.ps_types.specs.Writing.{variables, all_known, is_known, kind_known, kind_text, spaced, text_in, type_text};
ghost use Rattle.ps_types.specs.InsideWriting.{space_before};

use crate::firsts::{firsts_of, number_in};
use crate::types::{RecordKind, Ty};
use ps_base::{Names, Sink, SinkFault, Written, put, put_number};

/// Appends the text of a type: `integer`, `boolean`, `char`, `unit`, `address`, `string`, `(vector T)`, a record's name,
/// `(proc (T ...) T)` with one space between the types of the parameters, and `tN` for a variable, where variables are
/// numbered from 0 in the order in which they first appear in the text, as in `(proc (t0 t1 t0) t1)`. It takes no memory.
///
/// Each record's number must be one of `kinds`, and the name there one of the table (`has_known_records`).
///
/// It recurs to the depth of the type, and is meant for types of at most 1,000 constructors and variables. There each
/// variable takes at most as many steps as there are different variables before it. To number a variable that comes after
/// 1,000 different ones, it goes over the type up to the variable's first place once for each different variable before it.
///
/// # Errors
///
/// `SinkFault` where the sink failed. A front of the text was appended, and the sink's count of faults rose or stands at
/// the last number of 64 bits.
pub fn write_type<O: Sink>(
    t: &Ty,
    kinds: &[RecordKind],
    names: &Names,
    out: &mut O,
) -> Result<(), SinkFault>
    requires { is_known kinds.now names.now t.now ≡ true }
    ensures { Writes (O.shows out.old) (O.shows out.new) (type_text kinds.now names.now t.now) result }
{
    let firsts = firsts_of(t);
    put_type(out, Ok(()), t, t, firsts.as_slice(), kinds, names)
}

// A type within a whole type, which numbers its variables: the first ones by their places.
#[cycle(writing)]
#[tactic(auto, using(ps_base::proofs::Writing::adds_then), unfolding(crate::specs::Writing::text_in))]
fn put_type<O: Sink>(
    out: &mut O,
    so_far: Written,
    t: &Ty,
    whole: &Ty,
    firsts: &[u32],
    kinds: &[RecordKind],
    names: &Names,
) -> Written
    requires known { is_known kinds.now names.now t.now ≡ true }
    requires numbered { Numbered (variables whole.now) firsts.now }
    ensures { Adds (O.shows out.old) so_far (O.shows out.new) result (text_in kinds.now names.now (variables whole.now) t.now) }
{
    match t {
        Ty::Integer => put(out, so_far, b"integer"),
        Ty::Boolean => put(out, so_far, b"boolean"),
        Ty::Char => put(out, so_far, b"char"),
        Ty::Unit => put(out, so_far, b"unit"),
        Ty::Address => put(out, so_far, b"address"),
        Ty::Text => put(out, so_far, b"string"),
        Ty::Vector(item) => {
            let so_far = put(out, so_far, b"(vector ");
            let so_far = put_type(out, so_far, item.get(), whole, firsts, kinds, names);
            put(out, so_far, b")")
        }
        Ty::Tuple(kind) => put_record(out, so_far, *kind, kinds, names),
        Ty::Proc(parameters, answer) => {
            let so_far = put(out, so_far, b"(proc (");
            let so_far = put_types(
                out,
                so_far,
                parameters.as_slice(),
                whole,
                firsts,
                kinds,
                names,
            );
            let so_far = put(out, so_far, b") ");
            let so_far = put_type(out, so_far, answer.get(), whole, firsts, kinds, names);
            put(out, so_far, b")")
        }
        Ty::Var(variable) => put_variable(out, so_far, number_in(firsts, whole, *variable)),
    }
}

// Types with one space between them.
#[cycle(writing)]
fn put_types<O: Sink>(
    out: &mut O,
    so_far: Written,
    types: &[Ty],
    whole: &Ty,
    firsts: &[u32],
    kinds: &[RecordKind],
    names: &Names,
) -> Written
    requires known { all_known (map (is_known kinds.now names.now) types.now) ≡ true }
    requires numbered { Numbered (variables whole.now) firsts.now }
    ensures { Adds (O.shows out.old) so_far (O.shows out.new) result (spaced (map (text_in kinds.now names.now (variables whole.now)) types.now)) }
{
    let mut so_far = so_far;
    for (i, t) in types.iter().enumerate() {
        so_far = put_space(out, so_far, i);
        so_far = put_type(out, so_far, t, whole, firsts, kinds, names);
    }
    so_far
}

// The space before the part at a place: none before the first.
fn put_space<O: Sink>(out: &mut O, so_far: Written, place: usize) -> Written
    ensures { Adds (O.shows out.old) so_far (O.shows out.new) result (space_before place) }
{
    if place == 0 {
        so_far
    } else {
        put(out, so_far, b" ")
    }
}

// The name of a kind of records.
fn put_record<O: Sink>(
    out: &mut O,
    so_far: Written,
    kind: u32,
    kinds: &[RecordKind],
    names: &Names,
) -> Written
    requires { kind_known kinds.now names.now kind ≡ true }
    ensures { Adds (O.shows out.old) so_far (O.shows out.new) result (kind_text kinds.now names.now kind) }
{
    put(out, so_far, names.text(kinds[kind as usize].name))
}

// A variable of this number in the text.
#[tactic(auto, using(ps_base::proofs::Writing::adds_then))]
fn put_variable<O: Sink>(out: &mut O, so_far: Written, number: u64) -> Written
    ensures { Adds (O.shows out.old) so_far (O.shows out.new) result (codes "t" & decimal number) }
{
    let so_far = put(out, so_far, b"t");
    put_number(out, so_far, number)
}

/// Whether each record's number in the type is one of `kinds`, and the name there one of the table, as `write_type`
/// requires.
#[cycle(knowing)]
pub fn has_known_records(t: &Ty, kinds: &[RecordKind], names: &Names) -> bool
    ensures { result ≡ is_known kinds.now names.now t.now }
{
    match t {
        Ty::Integer => true,
        Ty::Boolean => true,
        Ty::Char => true,
        Ty::Unit => true,
        Ty::Address => true,
        Ty::Text => true,
        Ty::Vector(item) => has_known_records(item.get(), kinds, names),
        Ty::Tuple(kind) => knows_kind(*kind, kinds, names),
        Ty::Proc(parameters, answer) => {
            knows_all(parameters.as_slice(), kinds, names)
                && has_known_records(answer.get(), kinds, names)
        }
        Ty::Var(_) => true,
    }
}

// The same of each of some types.
#[cycle(knowing)]
fn knows_all(types: &[Ty], kinds: &[RecordKind], names: &Names) -> bool
    ensures { result ≡ all_known (map (is_known kinds.now names.now) types.now) }
{
    for t in types {
        if !has_known_records(t, kinds, names) {
            return false;
        }
    }
    true
}

// The same of a kind of records.
fn knows_kind(kind: u32, kinds: &[RecordKind], names: &Names) -> bool
    ensures { result ≡ kind_known kinds.now names.now kind }
{
    match kinds.get(kind as usize) {
        Some(kind) => kind.name.0 < names.len(),
        None => false,
    }
}
