//! The lines of events. Each piece is written unless a fault came before, and what came of the pieces so far is passed from
//! one to the next.

ghost use Rattle.std.specs.Prelude.{◌≡◌, ◌<◌, codes, length, map};
ghost use Rattle.ps_base.specs.Sinks.{Adds, Writes};
ghost use Rattle.ps_base.specs.Texts.{◌&◌};
ghost use Rattle.byte_store.specs.Lines.{base_text, place_text, block_text, pointer_text, made_text, known_text, word_text, input_text, line, event_line};
ghost use Rattle.byte_store.specs.InsideLines.{part_text};

use crate::event::Event;
use crate::pointer::{Base, Pointer, Word};
use ps_base::{Sink, SinkFault, Style, Written, put, put_each, put_integer, put_numbered};

#[tactic(auto, unfolding(crate::specs::Lines::base_text))]
fn put_base<O: Sink>(out: &mut O, so_far: Written, base: Base) -> Written
    ensures { Adds (O.shows out.old) so_far (O.shows out.new) result (base_text base) }
{
    match base {
        Base::Fixed(number) => put_numbered(out, so_far, b"s", number as u64),
        Base::Made(number) => put_numbered(out, so_far, b"d", number as u64),
    }
}

#[tactic(auto, using(ps_base::proofs::Writing::adds_then), unfolding(crate::specs::Lines::place_text))]
fn put_place<O: Sink>(out: &mut O, so_far: Written, base: Base, offset: i64) -> Written
    ensures { Adds (O.shows out.old) so_far (O.shows out.new) result (place_text base offset) }
{
    let so_far = put_base(out, so_far, base);
    let so_far = put(out, so_far, b"+");
    put_integer(out, so_far, offset)
}

// A place that stands for a block.
#[tactic(auto, unfolding(crate::specs::Lines::block_text))]
fn put_block<O: Sink>(out: &mut O, so_far: Written, base: Base, offset: i64) -> Written
    ensures { Adds (O.shows out.old) so_far (O.shows out.new) result (block_text base offset) }
{
    if offset == 0 {
        put_base(out, so_far, base)
    } else {
        put_place(out, so_far, base, offset)
    }
}

// A pointer into a block.
#[tactic(auto, unfolding(crate::specs::Lines::pointer_text))]
fn put_pointer<O: Sink>(out: &mut O, so_far: Written, pointer: Pointer) -> Written
    ensures { Adds (O.shows out.old) so_far (O.shows out.new) result (pointer_text pointer) }
{
    match pointer {
        Pointer::Null => put(out, so_far, b"null"),
        Pointer::At(base, offset) => put_place(out, so_far, base, offset),
    }
}

// A pointer that stands for a block that was made.
#[tactic(auto, unfolding(crate::specs::Lines::made_text))]
fn put_made<O: Sink>(out: &mut O, so_far: Written, pointer: Pointer) -> Written
    ensures { Adds (O.shows out.old) so_far (O.shows out.new) result (made_text pointer) }
{
    match pointer {
        Pointer::Null => put(out, so_far, b"refused"),
        Pointer::At(base, offset) => put_block(out, so_far, base, offset),
    }
}

// A pointer that stands for a block that was there.
#[tactic(auto, unfolding(crate::specs::Lines::known_text))]
fn put_known<O: Sink>(out: &mut O, so_far: Written, pointer: Pointer) -> Written
    ensures { Adds (O.shows out.old) so_far (O.shows out.new) result (known_text pointer) }
{
    match pointer {
        Pointer::Null => put(out, so_far, b"null"),
        Pointer::At(base, offset) => put_block(out, so_far, base, offset),
    }
}

#[tactic(auto, unfolding(crate::specs::Lines::word_text))]
fn put_word<O: Sink>(out: &mut O, so_far: Written, word: Word) -> Written
    ensures { Adds (O.shows out.old) so_far (O.shows out.new) result (word_text word) }
{
    match word {
        Word::Number(number) => put_integer(out, so_far, number),
        Word::Pointer(pointer) => put_pointer(out, so_far, pointer),
    }
}

// A byte that was read, or the end of the input.
#[tactic(auto, unfolding(crate::specs::Lines::input_text))]
fn put_input<O: Sink>(out: &mut O, so_far: Written, byte: i64) -> Written
    ensures { Adds (O.shows out.old) so_far (O.shows out.new) result (input_text byte) }
{
    if byte == -1 {
        put(out, so_far, b"end")
    } else {
        put_integer(out, so_far, byte)
    }
}

/// What stands in a line behind its first word.
#[derive(Clone, Copy)]
pub enum Part {
    /// An integer.
    Integer(i64),
    /// A byte that was read, or -1 for the end of the input.
    Input(i64),
    /// What a cell shows.
    Word(Word),
    /// A pointer into a block.
    Place(Pointer),
    /// A pointer that stands for a block that was made.
    Made(Pointer),
    /// A pointer that stands for a block that was there.
    Known(Pointer),
}

// The way to write the parts of a line.
struct Spaced;

impl Style<Part> for Spaced {
    ghost text = { λ k part. codes " " & part_text part };

    #[tactic(auto, using(ps_base::proofs::Writing::adds_then))]
    fn put_at<O: Sink>(out: &mut O, so_far: Written, _place: u64, part: &Part) -> Written {
        let so_far = put(out, so_far, b" ");
        put_part(out, so_far, *part)
    }
}

fn put_part<O: Sink>(out: &mut O, so_far: Written, part: Part) -> Written
    ensures { Adds (O.shows out.old) so_far (O.shows out.new) result (part_text part) }
{
    match part {
        Part::Integer(number) => put_integer(out, so_far, number),
        Part::Input(byte) => put_input(out, so_far, byte),
        Part::Word(word) => put_word(out, so_far, word),
        Part::Place(pointer) => put_pointer(out, so_far, pointer),
        Part::Made(pointer) => put_made(out, so_far, pointer),
        Part::Known(pointer) => put_known(out, so_far, pointer),
    }
}

// A word and the parts behind it.
fn put_line<O: Sink>(out: &mut O, so_far: Written, word: &[u8], parts: &[Part]) -> Written
    requires { length parts.now < 4 }
    ensures { Adds (O.shows out.old) so_far (O.shows out.new) result (line word.now (map part_text parts.now)) }
{
    let so_far = put(out, so_far, word);
    let so_far = put_each::<Spaced, Part, O>(out, so_far, 0, parts);
    put(out, so_far, b"\n")
}

#[tactic(auto, unfolding(crate::specs::Lines::event_line))]
fn put_event<O: Sink>(out: &mut O, so_far: Written, event: Event) -> Written
    ensures { Adds (O.shows out.old) so_far (O.shows out.new) result (event_line event) }
{
    match event {
        Event::Input(byte) => put_line(out, so_far, b"in", &[Part::Input(byte)]),
        Event::Output(byte) => put_line(out, so_far, b"out", &[Part::Integer(byte)]),
        Event::Allocate(size, p) => put_line(
            out,
            so_far,
            b"alloc",
            &[Part::Integer(size), Part::Made(p)],
        ),
        Event::Fill(size, word, p) => put_line(
            out,
            so_far,
            b"vector",
            &[Part::Integer(size), Part::Word(word), Part::Made(p)],
        ),
        Event::Tuple(size, p) => put_line(
            out,
            so_far,
            b"tuple",
            &[Part::Integer(size), Part::Made(p)],
        ),
        Event::Free(p) => put_line(out, so_far, b"free", &[Part::Known(p)]),
        Event::Load(p, byte) => put_line(
            out,
            so_far,
            b"load",
            &[Part::Place(p), Part::Integer(byte)],
        ),
        Event::Keep(p, byte) => put_line(
            out,
            so_far,
            b"store",
            &[Part::Place(p), Part::Integer(byte)],
        ),
        Event::LoadWord(p, word) => put_line(
            out,
            so_far,
            b"loadw",
            &[Part::Place(p), Part::Integer(word)],
        ),
        Event::KeepWord(p, word) => put_line(
            out,
            so_far,
            b"storew",
            &[Part::Place(p), Part::Integer(word)],
        ),
        Event::Get(p, word) => put_line(out, so_far, b"get", &[Part::Place(p), Part::Word(word)]),
        Event::Put(p, word) => put_line(out, so_far, b"put", &[Part::Place(p), Part::Word(word)]),
        Event::Length(p, length) => put_line(
            out,
            so_far,
            b"length",
            &[Part::Known(p), Part::Integer(length)],
        ),
    }
}

/// Writes the line of an event: a word for the operation, what it was given and what it answered, with one space before
/// each, and byte 10. A block is `s` or `d`, for a fixed and for a made one, and its number. A pointer is its block, `+` and
/// how far it is from the block's start, or `null`. One that stands for a whole block is the block alone where it is its
/// start, and a block that was not made is `refused`. The end of the input is `end`. It takes no memory.
///
/// # Errors
///
/// `SinkFault` where the sink failed. A front of the line was appended, and the sink's count of faults rose or stands at the
/// last number of 64 bits.
#[tactic(auto, using(ps_base::proofs::Writing::adds_from_start))]
pub fn write_event<O: Sink>(event: &Event, out: &mut O) -> Result<(), SinkFault>
    ensures { Writes (O.shows out.old) (O.shows out.new) (event_line event.now) result }
{
    put_event(out, Ok(()), *event)
}
