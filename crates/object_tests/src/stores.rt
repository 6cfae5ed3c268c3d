//! What no case of data can say: a store in an arena, one of other cells, and a sink that fails in mid-stream.

ghost use Rattle.std.specs.Prelude.{◌≡◌, ◌<◌, ◌≤◌, ◌+◌, length};

use bumpalo::Bump;
use byte_store::Pointer::Null;
use byte_store::Value::{Boolean, Integer};
use byte_store::{Base, Cell, Event, Pointer, Store, StoreFault, Value, Word, World, write_event};
use ps_base::Op::{Bounds, Freed, Size};
use ps_base::{Items, MemorySink, NoMemory, SinkFault};
use std::alloc::{Allocator, Global};
use std::fmt::Debug;
use std::process::Abort;

// What was got is what is wanted.
fn same<T: PartialEq + Debug + Drop>(rt: &impl Abort, got: T, want: T) {
    assert_eq!(rt; got, want);
}

fn fixed(number: u32, offset: i64) -> Pointer {
    Pointer::At(Base::Fixed(number), offset)
}

fn made(number: u32, offset: i64) -> Pointer {
    Pointer::At(Base::Made(number), offset)
}

// A world without input.
fn world_of(rt: &impl Abort, alloc: Global, grants: &[bool]) -> World {
    let grants = Items::from_slice(alloc, grants).expect(rt, "memory");
    World::new(Items::new(alloc), grants)
}

// Makes a block of bytes in a store of few made blocks.
fn make_bytes<A: Allocator + Copy>(
    store: &mut Store<Value, A>,
    world: &mut World,
    size: i64,
) -> Result<Pointer, StoreFault>
    requires { length store.old.made < 1000 }
    ensures { length store.new.made ≤ length store.old.made + 1 }
{
    store.allocate(world, size)
}

// Makes a block of cells, each `#t`, in a store of few made blocks.
fn make_cells<A: Allocator + Copy>(
    store: &mut Store<Value, A>,
    world: &mut World,
    count: i64,
) -> Result<Pointer, StoreFault>
    requires { length store.old.made < 1000 }
    ensures { length store.new.made ≤ length store.old.made + 1 }
{
    store.allocate_cells(world, count, Some(Boolean(true)))
}

// Adds fixed block 0, of these bytes, to a store without one.
fn fix_bytes<A: Allocator + Copy>(
    rt: &impl Abort,
    store: &mut Store<Value, A>,
    bytes: &[u8],
) -> Result<(), NoMemory>
    ensures { length store.new.made ≡ length store.old.made }
{
    assert_eq!(rt; store.next_fixed(), 0);
    store.fix_bytes(0, bytes)
}

// Adds fixed block 2, of these cells.
fn fix_cells<A: Allocator + Copy>(
    rt: &impl Abort,
    store: &mut Store<Value, A>,
    cells: Items<Value>,
) -> Result<(), NoMemory>
    ensures { length store.new.made ≡ length store.old.made }
{
    assert!(rt; store.next_fixed() <= 2);
    store.fix_cells(2, cells)
}

fn cells_of(rt: &impl Abort, alloc: Global, cells: &[Value]) -> Items<Value> {
    Items::from_slice(alloc, cells).expect(rt, "memory")
}

// Made block 0 has nine bytes and made block 1 two cells, fixed block 0 the bytes of `ok` and 0, and fixed block 2 a cell.
fn adds<A: Allocator + Copy>(rt: &impl Abort, alloc: A, general: Global) -> Store<Value, A> {
    let mut store = Store::new(alloc);
    let mut world = world_of(rt, general, &[true, false, true]);
    let bytes = make_bytes(&mut store, &mut world, 9);
    let refused = make_cells(&mut store, &mut world, 2);
    let cells = make_cells(&mut store, &mut world, 2);
    same(
        rt,
        [bytes, refused, cells],
        [Ok(made(0, 0)), Ok(Null), Ok(made(1, 0))],
    );
    let fixed_bytes = fix_bytes(rt, &mut store, b"ok\0");
    same(rt, (fixed_bytes, store.next_fixed()), (Ok(()), 1));
    let fixed_cells = fix_cells(rt, &mut store, cells_of(rt, general, &[Integer(7)]));
    same(rt, (fixed_cells, store.next_fixed()), (Ok(()), 3));
    store
}

// -2 is 255 in each byte but the lowest. With 1 in that it is 255 less than 0.
fn reads_and_writes<A: Allocator + Copy>(rt: &impl Abort, store: &mut Store<Value, A>) {
    let (p, cells, text) = (made(0, 0), made(1, 0), fixed(0, 0));
    same(
        rt,
        (store.set_word(p, -2), store.load_word(p)),
        (Ok(()), Ok(-2)),
    );
    same(
        rt,
        [store.set_byte(p, 1), store.put(cells, 1, Integer(5))],
        [Ok(()); 2],
    );
    let bytes = [store.load_word(p), store.load(p)];
    let counts = [
        store.cell_count(cells),
        store.text_length(text),
        store.text_at(text, 1),
    ];
    same(
        rt,
        (bytes, counts),
        ([Ok(-255), Ok(1)], [Ok(2), Ok(2), Ok(107)]),
    );
    let got = [
        store.get(cells, 0),
        store.get(cells, 1),
        store.get(fixed(2, 0), 0),
    ];
    same(rt, got, [Ok(Boolean(true)), Ok(Integer(5)), Ok(Integer(7))]);
}

fn compares_and_frees<A: Allocator + Copy>(rt: &impl Abort, store: &mut Store<Value, A>) {
    let (p, end, cells) = (made(0, 0), made(0, 9), made(1, 0));
    same(
        rt,
        (store.move_by(p, 9), store.difference(end, p)),
        (Ok(end), Ok(9)),
    );
    let truths = [store.before(p, end), store.same(p, end), store.is_null(p)];
    same(rt, truths, [Ok(true), Ok(false), Ok(false)]);
    same(rt, (store.release(p), store.load(p)), (Ok(()), Err(Freed)));
    same(
        rt,
        (store.release(cells), store.cell_count(cells)),
        (Ok(()), Err(Freed)),
    );
}

// In an arena of so many bytes no block of 220 bytes or cells fits. What fails leaves the store and the grants as they
// were, and comes right when the limit is gone.
fn runs_out(rt: &impl Abort, general: Global, limit: usize) {
    let arena = Bump::new(general);
    arena.set_allocation_limit(Some(limit));
    let mut store = Store::new(&arena);
    let mut world = world_of(rt, general, &[false, true]);
    let refused = make_bytes(&mut store, &mut world, 220);
    let bytes = make_bytes(&mut store, &mut world, 220);
    let cells = make_cells(&mut store, &mut world, 220);
    let none = make_bytes(&mut store, &mut world, 0);
    let no_memory = Err(StoreFault::NoMemory);
    let no_size = Err(StoreFault::Undefined(Size));
    same(
        rt,
        [refused, bytes, cells, none],
        [Ok(Null), no_memory, no_memory, no_size],
    );
    same(
        rt,
        (world.granted(), arena.allocated_bytes()),
        (true, limit),
    );
    let truths = cells_of(rt, general, &[Boolean(true); 220]);
    same(rt, fix_bytes(rt, &mut store, &[1; 220]), Err(NoMemory));
    same(rt, fix_cells(rt, &mut store, truths), Err(NoMemory));
    arena.set_allocation_limit(None);
    let bytes = make_bytes(&mut store, &mut world, 220);
    same(
        rt,
        (bytes, fix_bytes(rt, &mut store, &[1; 220])),
        (Ok(made(0, 0)), Ok(())),
    );
    same(rt, store.load(fixed(0, 219)), Ok(1));
}

// The 448 bytes hold what is in a block of 220 bytes, and have no room left for the block itself.
#[test]
fn in_an_arena(rt: HostRuntime) {
    let mut arena = Bump::new(rt.alloc());
    let mut store = adds(&rt, &arena, rt.alloc());
    reads_and_writes(&rt, &mut store);
    compares_and_frees(&rt, &mut store);
    drop(store);
    assert!(rt; 0 < arena.allocated_bytes());
    // The store gave all of its memory back.
    same(&rt, arena.reset(), Ok(()));
    for limit in [0, 448] {
        runs_out(&rt, rt.alloc(), limit);
    }
}

fn shown<C: Cell>(cell: &C) -> Word {
    cell.word()
}

#[test]
fn cells_of_words(rt: HostRuntime) {
    let words = [Word::Number(-5), Word::Pointer(fixed(3, 1))];
    let cells = Items::from_slice(rt.alloc(), &words).expect(&rt, "memory");
    let mut store = Store::new(rt.alloc());
    assert_eq!(rt; store.next_fixed(), 0);
    same(&rt, store.fix_cells(4294967294, cells), Ok(()));
    let p = fixed(4294967294, 0);
    let got = [store.get(p, 0), store.get(p, 1), store.get(p, 2)];
    same(&rt, got, [Ok(words[0]), Ok(words[1]), Err(Bounds)]);
    same(&rt, [shown(&words[0]), shown(&words[1])], words);
}

// The pieces are a word, and a blank and a number for each part. The line of the next event comes behind the front.
#[test]
fn a_sink_that_fails_in_mid_stream(rt: HostRuntime) {
    let fill = Event::Fill(3, Word::Number(7), made(0, 0));
    let cases: [(u64, &[u8]); 5] = [
        (0, b"out 65\n"),
        (1, b"vectout 65\n"),
        (4, b"vector 3out 65\n"),
        (8, b"vector 3 7 dout 65\n"),
        (9, b"vector 3 7 d0out 65\n"),
    ];
    for (failing, lines) in cases {
        let failing = Items::from_slice(rt.alloc(), &[failing]).expect(&rt, "memory");
        let mut out = MemorySink::new(rt.alloc(), 99, 4, failing).expect(&rt, "memory");
        same(&rt, write_event(&fill, &mut out), Err(SinkFault));
        same(&rt, write_event(&Event::Output(65), &mut out), Ok(()));
        same(&rt, out.bytes(), lines);
    }
}
