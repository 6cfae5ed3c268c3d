//! All data of a text.

ghost use Rattle.std.specs.Prelude.{◌≡◌, ℕ, List, ◌≤◌, ◌<◌, ◌+◌, ◌*◌, ◌-◌, ◌^◌, length, take, drop, slice_index, Err, IfOk, IfErr, OnOk, OnErr};
ghost use Rattle.ps_datum.specs.declared.datum.Datum.{Datum};
ghost use Rattle.ps_datum.specs.Weight.{weights};
ghost use Rattle.ps_read.specs.declared.token.Breach.{Breach};
ghost use Rattle.ps_read.specs.Grammar.{AreData};
ghost use Rattle.ps_read.specs.Breaches.{FirstBreach};
ghost use Rattle.ps_read.specs.Lexical as spec;
ghost use Rattle.ps_read.specs.Lexical.{tokens_of};
ghost use Rattle.ps_read.specs.InsideMachine.{Answer, run};
ghost use Rattle.ps_read.specs.Reading.{Reads, IsReadUnlessMemory, Refuses, IsBreachUnlessMemory, AllKnown, AreNames, Grown};
ghost use Rattle.ps_read.specs.InsideReading.{Fails, Gives, Within, IsResolved, answer};

use crate::lexer::front_of;
use crate::machine::{breach_of, take};
use crate::stack::Stack;
use crate::token::{Breach, Frame, Front, Word};
use ps_base::{Fault, Items, Names, NoMemory, Place, Refusal, SyntaxKind};
use ps_datum::{Datum, DatumKind};
use std::alloc::Global;

// The place behind some bytes.
fn place_behind(place: Place, bytes: &[u8]) -> Place
    requires line_fits { place.line + length bytes.now < 2 ^ 32 }
    requires column_fits { place.column + length bytes.now < 2 ^ 32 }
    ensures value { result ≡ spec.behind place bytes.now }
    ensures line { result.line ≤ place.line + length bytes.now }
    ensures column { result.column ≤ place.column + length bytes.now }
{
    let mut line = place.line;
    let mut column = place.column;
    for c in bytes {
        if *c == b'\n' {
            line += 1;
            column = 1;
        } else {
            column += 1;
        }
    }
    Place {
        file: place.file,
        line,
        column,
    }
}

// The front, in which a name has its number in the table.
#[tactic(auto, unfolding(crate::specs::Lexical::resolved, crate::specs::Lexical::noted))]
fn resolve(names: &mut Names, front: Front) -> Result<Front, NoMemory>
    requires { length names.old < 2 ^ 32 - 1 }
    ensures value { IfOk result (λ f. f ≡ spec.resolved names.old front) }
    ensures noted { OnOk result (names.new ≡ spec.noted names.old front) }
    ensures same { OnErr result (names.new ≡ names.old) }
{
    match front {
        Front::Named(len, text) => {
            let name = names.add(text.as_slice())?;
            Ok(Front::Whole(len, Word::Atom(DatumKind::Symbol(name))))
        }
        Front::Quoted => {
            let name = names.add(b"quote")?;
            Ok(Front::Whole(1, Word::Quote(name)))
        }
        Front::Gap(len) => Ok(Front::Gap(len)),
        Front::Whole(len, word) => Ok(Front::Whole(len, word)),
        Front::Stop(len, kind) => Ok(Front::Stop(len, kind)),
    }
}

// What the text begins with, in which a name has its number in the table.
fn next_front(alloc: Global, names: &mut Names, text: &[u8]) -> Result<Front, NoMemory>
    requires some { 0 < length text.now }
    requires short { length text.now < 2 ^ 32 }
    requires names_fit { length names.old < 2 ^ 32 - 1 }
    ensures value { IfOk result (λ f. f ≡ spec.resolved names.old (spec.front_of (slice_index text.now 0) (drop 1 text.now))) }
    ensures within { IfOk result (λ f. Within (length text.now) f × IsResolved f) }
    ensures noted { OnOk result (names.new ≡ spec.noted names.old (spec.front_of (slice_index text.now 0) (drop 1 text.now))) }
    ensures names_len { OnOk result (length names.new ≤ length names.old + 1) }
    ensures identifiers { AreNames names.old → AreNames names.new }
    ensures kept { Grown names.old names.new }
{
    let raw = front_of(alloc, text)?;
    let front = resolve(names, raw)?;
    Ok(front)
}

// The refusal for a breach.
fn refusal(breach: Breach) -> Refusal
    ensures { (a : Answer) → a ≡ Err breach → Fails result a }
{
    Refusal::Fault(Fault::Syntax(breach.kind, breach.place))
}

// Takes what the text begins with, and answers how many bytes that is.
fn step(
    alloc: Global,
    names: &mut Names,
    done: &mut Items<Datum>,
    stack: &mut Stack<Frame>,
    place: Place,
    text: &[u8],
) -> Result<usize, Refusal>
    requires some { 0 < length text.now }
    requires names_fit { length names.old < 2 ^ 32 - 1 }
    requires line_fits { place.line + length text.now < 2 ^ 32 }
    requires column_fits { place.column + length text.now < 2 ^ 32 }
    ensures within { IfOk result (λ n. (0 < n) × (n ≤ length text.now)) }
    ensures names_len { OnOk result (length names.new ≤ length names.old + 1) }
    ensures identifiers { AreNames names.old → AreNames names.new }
    ensures kept { Grown names.old names.new }
    ensures ok { OnOk result (IfOk result (λ n. run (done.old, stack.old) (spec.tokens names.old 0 place text.now)
        ≡ run (done.new, stack.new) (spec.tokens names.new 0 (spec.behind place (take n text.now)) (drop n text.now)))) }
    ensures listed { OnOk result (IfOk result (λ n. spec.listed names.old 0 text.now ≡ spec.listed names.new 0 (drop n text.now))) }
    ensures err { IfErr result (λ e. Fails e (run (done.old, stack.old) (spec.tokens names.old 0 place text.now))) }
{
    let front = next_front(alloc, names, text)?;
    match front {
        Front::Gap(len) => Ok(len),
        Front::Whole(len, word) => match breach_of(stack, place, &word) {
            Some(breach) => Err(refusal(breach)),
            None => {
                take(alloc, done, stack, place, word)?;
                Ok(len)
            }
        },
        Front::Named(len, _) => Ok(len),
        Front::Quoted => Ok(1),
        Front::Stop(len, kind) => {
            let place = place_behind(place, &text[..len]);
            Err(refusal(Breach { kind, place }))
        }
    }
}

// Reads a text as the machine does.
#[tactic(auto, unfolding(crate::specs::InsideReading::answer))]
fn read_text(
    alloc: Global,
    text: &[u8],
    file: u32,
    names: &mut Names,
) -> Result<Items<Datum>, Refusal>
    requires short { length text.now < 2 ^ 32 - 1 }
    requires room { length names.old + length text.now < 2 ^ 32 - 1 }
    ensures answer { Gives result (answer names.old file text.now) }
    ensures listed { OnOk result (names.new ≡ spec.listed names.old 0 text.now) }
    ensures identifiers { AreNames names.old → AreNames names.new }
    ensures kept { Grown names.old names.new }
{
    let mut done = Items::new(alloc);
    let mut stack: Stack<Frame> = Stack::new(alloc);
    let mut place = Place {
        file,
        line: 1,
        column: 1,
    };
    let mut rest = text;
    while !rest.is_empty() {
        let len = step(alloc, names, &mut done, &mut stack, place, rest)?;
        place = place_behind(place, &rest[..len]);
        rest = &rest[len..];
    }
    match stack.pop() {
        None => Ok(done),
        Some(frame) => Err(refusal(Breach {
            kind: SyntaxKind::Unclosed,
            place: frame.place,
        })),
    }
}

/// Reads the data of a text (R5RS 7.1.1 and 7.1.2, in this project's profile), in time linear in its length. Behind it the
/// table lists the identifiers of the text too, in the order in which they came first, in small letters. A name that the
/// table had before keeps its number, whatever comes of the text.
///
/// The text must have fewer than 4,294,967,295 bytes, as many as the table may have names before and the text has bytes
/// together. It is read where it is the text of data, with at most 200 lists, vectors and quotes open at once. The weight of
/// what is read is at most three times the number of bytes.
///
/// # Errors
///
/// `Syntax` where the text is not the text of data, for its first breach, in reading order, with the breach's kind and
/// place: `BadToken` at the first byte of a run that is no token; `FloatLiteral` and `WideLiteral` at the first byte of a
/// number with a point or an exponent, and of an integer outside 64 bits; `BadCharacter` at a `#\` that begins no character
/// and at a byte 0 in a string; `BadEscape` at a backslash in a string that begins no escape; `Unclosed` at the quote mark of
/// a string in which the text ends, or at the innermost list, vector or quote that is open at the end; `StrayClose` at a `)`
/// where no list or vector is open, or directly behind `'`; `BadDot` at a dot that no list of data goes on with, or at the
/// first dot of a list with no datum or two behind it, or with a second dot; `TooDeep` at what would be open as the 201st.
///
/// `NoMemory` where memory ran out.
pub fn read_all(
    alloc: Global,
    text: &[u8],
    file: u32,
    names: &mut Names,
) -> Result<Items<Datum>, Refusal>
    requires short { length text.now < 2 ^ 32 - 1 }
    requires room { length names.old + length text.now < 2 ^ 32 - 1 }
    ensures read { IfOk result (λ ds. Reads names.old file text.now ds names.new) }
    ensures only { (ds : List Datum) → AreData (tokens_of names.old file text.now) ds → IsReadUnlessMemory result ds }
    ensures refused { IfErr result (λ e. Refuses e (tokens_of names.old file text.now)) }
    ensures first { (b : Breach) → FirstBreach (tokens_of names.old file text.now) b → IsBreachUnlessMemory result b }
    ensures small { IfOk result (λ ds. weights ds ≤ 3 * length text.now) }
    ensures known { IfOk result (λ ds. AllKnown names.new ds) }
    ensures identifiers { AreNames names.old → AreNames names.new }
    ensures kept { Grown names.old names.new }
{
    read_text(alloc, text, file, names)
}
