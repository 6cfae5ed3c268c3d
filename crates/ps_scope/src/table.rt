//! A table of rows: the newest live row of an identifier is found by its bucket, and what lay below a row is never forgotten.

ghost use Rattle.std.specs.Prelude.{◌≡◌, ◌∷◌, ◌++◌, ◌+◌, ◌-◌, ◌≤◌, ◌<◌, [], ℕ, List, length, drop, slice_get, slice_index, Some, IfOk, IfSome, OnOk, OnErr};
ghost use Rattle.std.specs.Str.{bytes_eq};
ghost use Rattle.ps_scope.specs.Environments.{word, entry_of, is_of, defined};
ghost use Rattle.ps_scope.specs.InsideTables.{entry, trail_at, trails, oldest, bucket_of, height, first_binding, AreLaid, Stands};
ghost use Rattle.ps_scope.specs.declared.table.Row.{Row};
ghost use Rattle.ps_scope.specs.declared.table.Slot.{Slot};

use ps_base::{Name, Stamps};
use ps_pattern::Binding;
use sqlite_items::{Items, at};
use std::alloc::{AllocError, Global};
use std::marker::Model;

/// How many buckets there are.
const BUCKETS: usize = 65536;

/// What was bound, and on what it lies.
#[derive(Drop)]
pub struct Row {
    pub owner: u32,
    pub name: Name,
    pub stamps: Stamps,
    pub binding: Binding,
    /// One more than the number of the row below it, or 0.
    pub parent: usize,
    /// Where it stood in the stack of live rows, counted from 0.
    pub place: usize,
}

/// A live row: its number, and how high the next older live row of its bucket stands, counted from 1, or 0.
#[derive(Clone, Copy, Drop)]
pub struct Slot {
    pub row: usize,
    pub next: usize,
}

/// All rows, the stack of those that are live, how high the newest live row of each bucket stands, counted from 1, or 0, and
/// one more than the number of the newest live row, or 0.
#[derive(Drop)]
pub struct Table {
    alloc: Global,
    rows: Items<Row>,
    live: Items<Slot>,
    heads: Items<usize>,
    newest: usize,
}

impl Model for Table {
    ghost use Rattle.ps_scope.specs.InsideTables.{Stacked, Serves, trails, trail_at};

    ghost Value = { Stacked };

    ghost view = { λ t. record { live = trail_at (trails t.rows) t.newest; trails = trails t.rows } };

    ghost invariant = { λ t. Serves t.rows t.live t.heads t.newest (trail_at (trails t.rows) t.newest) };
}

impl Table {
    /// No rows.
    ///
    /// # Errors
    ///
    /// `AllocError` where memory ran out.
    pub fn new(alloc: Global) -> Result<Table, AllocError>
        ensures live { IfOk result (λ t. t.live ≡ []) }
        ensures trails { IfOk result (λ t. t.trails ≡ [] ∷ []) }
    {
        let heads = zeros(alloc, BUCKETS)?;
        Ok(Table {
            alloc,
            rows: Items::new(alloc),
            live: Items::new(alloc),
            heads,
            newest: 0,
        })
    }

    /// How many rows are live.
    pub fn len(&self) -> usize
        ensures { result ≡ length self.now.live }
    {
        self.live.len()
    }

    /// Binds an identifier of an owner, on top of what is live.
    ///
    /// # Errors
    ///
    /// `AllocError` where memory ran out; then nothing has changed.
    pub fn push(
        &mut self,
        owner: u32,
        name: Name,
        stamps: &[u64],
        binding: Binding,
    ) -> Result<(), AllocError>
        ensures live { OnOk result (self.new.live ≡ entry_of owner (word name stamps.now) binding ∷ self.old.live) }
        ensures trails { OnOk result (self.new.trails ≡ self.old.trails ++ self.new.live ∷ []) }
        ensures few { OnOk result (length self.new.live ≤ usize.MAX) }
        ensures unchanged { OnErr result (self.new ≡ self.old) }
    {
        let b = bucket(owner, name, stamps);
        let stamps = Items::from_slice(self.alloc, stamps)?;
        let row = self.rows.len();
        let place = self.live.len();
        let next = self.heads.as_slice()[b];
        let parent = self.newest;
        self.rows.push(Row {
            owner,
            name,
            stamps,
            binding,
            parent,
            place,
        })?;
        match self.live.push(Slot { row, next }) {
            Ok(()) => {
                self.newest = self.rows.len();
                let height = self.live.len();
                self.heads.set(b, height);
                Ok(())
            }
            Err(e) => {
                forget_last(&mut self.rows);
                Err(e)
            }
        }
    }

    /// Takes the newest live row off the stack, and answers what it says.
    pub fn pop(&mut self) -> Option<Binding>
        ensures live { self.new.live ≡ drop 1 self.old.live }
        ensures trails { self.new.trails ≡ self.old.trails }
        ensures binding { result ≡ first_binding self.old.live }
    {
        match self.live.pop() {
            None => None,
            Some(slot) => {
                let row = row_at(self.rows.as_slice(), slot.row);
                let b = bucket(row.owner, row.name, row.stamps.as_slice());
                let parent = row.parent;
                let binding = row.binding;
                self.heads.set(b, slot.next);
                self.newest = parent;
                Some(binding)
            }
        }
    }

    /// What an identifier of an owner stands for.
    pub fn find(&self, owner: u32, name: Name, stamps: &[u64]) -> Option<Binding>
        ensures { result ≡ defined self.now.live owner (word name stamps.now) }
    {
        self.find_below(self.len(), owner, name, stamps)
    }

    /// How high the newest live row of an identifier of an owner stands, counted from 1, or 0.
    pub fn height(&self, owner: u32, name: Name, stamps: &[u64]) -> usize
        ensures { result ≡ height self.now.live owner (word name stamps.now) }
    {
        self.height_below(self.len(), owner, name, stamps)
    }

    /// A number by which what is live now is found again.
    pub fn mark(&self) -> usize
        ensures is { trail_at self.now.trails result ≡ self.now.live }
        ensures within { result < length self.now.trails }
    {
        self.newest
    }

    /// What an identifier of an owner stood for when a number was given.
    pub fn find_at(&self, mark: usize, owner: u32, name: Name, stamps: &[u64]) -> Option<Binding>
        ensures { result ≡ defined (trail_at self.now.trails mark) owner (word name stamps.now) }
    {
        match self.live_height(mark) {
            Some(height) => self.find_below(height, owner, name, stamps),
            None => find_along(self.rows.as_slice(), mark, owner, name, stamps),
        }
    }

    // How high a row stands that is still live.
    fn live_height(&self, mark: usize) -> Option<usize>
        ensures { IfSome result (λ h. trail_at self.now.trails mark ≡ oldest h self.now.live) }
    {
        let rows = self.rows.as_slice();
        let live = self.live.as_slice();
        if mark == 0 {
            return Some(0);
        }
        let row = at(rows, mark - 1)?;
        if row.place < live.len() && live[row.place].row == mark - 1 {
            Some(row.place + 1)
        } else {
            None
        }
    }

    // What the newest of the lowest live rows, as many as a height says, stands for.
    fn find_below(&self, below: usize, owner: u32, name: Name, stamps: &[u64]) -> Option<Binding>
        ensures { result ≡ defined (oldest below self.now.live) owner (word name stamps.now) }
    {
        let height = self.height_below(below, owner, name, stamps);
        if height == 0 {
            return None;
        }
        let slot = slot_at(self.live.as_slice(), height);
        Some(row_at(self.rows.as_slice(), slot.row).binding)
    }

    // How high the newest of the lowest live rows of an identifier stands, by the chain of its bucket.
    fn height_below(&self, below: usize, owner: u32, name: Name, stamps: &[u64]) -> usize
        ensures { result ≡ height (oldest below self.now.live) owner (word name stamps.now) }
    {
        let rows = self.rows.as_slice();
        let live = self.live.as_slice();
        let b = bucket(owner, name, stamps);
        let mut height = self.heads.as_slice()[b];
        'chain: while height > 0 {
            let slot = slot_at(live, height);
            if height <= below && is_same(owner, name, stamps, row_at(rows, slot.row)) {
                return height;
            }
            height = slot.next;
        }
        0
    }
}

// The live row at a height.
fn slot_at(live: &[Slot], height: usize) -> Slot
    requires above { 0 < height }
    requires within { height ≤ length live.now }
    ensures { slice_get live.now (height - 1) ≡ Some result }
{
    live[height - 1]
}

fn row_at(rows: &[Row], number: usize) -> &Row
    requires { number < length rows.now }
    ensures { slice_get rows.now number ≡ Some result.now }
{
    &rows[number]
}

// In which bucket an identifier of an owner is.
fn bucket(owner: u32, name: Name, stamps: &[u64]) -> usize
    ensures { result ≡ bucket_of owner (word name stamps.now) }
{
    let latest = match stamps {
        [] => 0,
        [latest, ..] => *latest,
    };
    let spread = (latest % 65536) as usize * 40503 + (owner % 65536) as usize * 25717;
    (name.0 as usize + spread) % 65536
}

fn is_same(owner: u32, name: Name, stamps: &[u64], row: &Row) -> bool
    ensures { result ≡ is_of owner (word name stamps.now) (entry row.now) }
{
    owner == row.owner && has_word(name, stamps, row)
}

fn has_word(name: Name, stamps: &[u64], row: &Row) -> bool
    ensures { result ≡ bytes_eq (word name stamps.now) (word row.now.name row.now.stamps) }
{
    name.0 == row.name.0 && stamps == row.stamps.as_slice()
}

// What an identifier stands for, by the rows from one down.
fn find_along(rows: &[Row], mark: usize, owner: u32, name: Name, stamps: &[u64]) -> Option<Binding>
    requires { AreLaid rows.now }
    ensures { result ≡ defined (trail_at (trails rows.now) mark) owner (word name stamps.now) }
{
    let mut below = mark;
    'rows: while below > 0 {
        match at(rows, below - 1) {
            None => return None,
            Some(row) => {
                if is_same(owner, name, stamps, row) {
                    return Some(row.binding);
                }
                below = row.parent;
            }
        }
    }
    None
}

fn zeros(alloc: Global, count: usize) -> Result<Items<usize>, AllocError>
    ensures many { IfOk result (λ r. length r ≡ count) }
    ensures zero { IfOk result (λ r. (k : ℕ) → k < count → slice_index r k ≡ 0) }
{
    let mut all = Items::new(alloc);
    for i in 0..count {
        let _ = i;
        all.push(0)?;
    }
    Ok(all)
}

fn forget_last(rows: &mut Items<Row>)
    ensures { (rs : List Row) (r : Row) → rows.old ≡ rs ++ r ∷ [] → rows.new ≡ rs }
{
    match rows.pop() {
        None => {}
        Some(_row) => {}
    }
}
