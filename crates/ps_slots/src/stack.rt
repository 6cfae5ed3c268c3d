//! The stack of cells.

ghost use Rattle.std.specs.Prelude.{◌≡◌, ◌==◌, [], ◌∷◌, ◌++◌, length, slice_get, MatchOption, MatchResult};
ghost use Rattle.ps_runs.specs.Locals.{found};
ghost use Rattle.ps_slots.specs.declared.cell.Cell.TheVariants.{Entered, Local, Waits};
ghost use Rattle.ps_slots.specs.Scope.{PutsIf, scope};
ghost use Rattle.ps_slots.specs.InsideLinks.{is_local, local_at, put_slot};

use crate::cell::Cell;
use crate::tops::{make_room, set_top, top_of};
use byte_store::Value;
use ps_base::NoMemory;
use std::alloc::{Allocator, Global};
use std::marker::Model;

// A cell as it is kept. A number of a cell is one more than its place, or 0 for none.
#[derive(Clone, Copy)]
enum Kept<J: Copy> {
    // A frame begins, and the number where the frame below begins.
    Entered(usize),
    // A slot, and the number of the topmost slot of the same local below it.
    Local(u32, Value, usize),
    Waits(J),
}

/// The cells of all frames, the last on top.
#[derive(Drop)]
pub struct Stack<J: Copy, A: Allocator = Global> {
    cells: Vec<Kept<J>, A>,
    base: usize,
    tops: Vec<usize, A>,
}

impl<J: Copy, A: Allocator> Model for Stack<J, A> {
    ghost use Rattle.std.specs.Prelude.{List, map};
    ghost use Rattle.ps_slots.specs.declared.cell.Cell.{Cell};
    ghost use Rattle.ps_slots.specs.InsideLinks.{IsLinked, plain};

    ghost Value = { List (Cell J) };

    ghost view = { λ s. map plain s.cells.items };

    ghost invariant = { λ s. IsLinked s.cells.items s.base s.tops.items };
}

// The value in a slot.
fn value_at<J: Copy>(cells: &[Kept<J>], i: usize) -> Option<Value>
    ensures { result ≡ local_at (slice_get cells.now i) }
{
    match cells.get(i) {
        Some(Kept::Local(_, v, _)) => Some(*v),
        Some(Kept::Entered(_)) => None,
        Some(Kept::Waits(_)) => None,
        None => None,
    }
}

// A slot has another value.
fn put_at<J: Copy, A: Allocator>(cells: &mut Vec<Kept<J>, A>, i: usize, v: Value) -> bool
    ensures is { result ≡ is_local (slice_get cells.old.items i) }
    ensures puts { cells.new.items ≡ put_slot i v (slice_get cells.old.items i) cells.old.items }
{
    if cells.as_slice().len() <= i {
        return false;
    }
    match cells.as_slice()[i] {
        Kept::Local(x, _, below) => {
            cells[i] = Kept::Local(x, v, below);
            true
        }
        Kept::Entered(_) => false,
        Kept::Waits(_) => false,
    }
}

impl<J: Copy, A: Allocator> Stack<J, A> {
    /// A frame begins on top.
    ///
    /// # Errors
    ///
    /// `NoMemory` where memory runs out. The stack is then as it was.
    pub fn enter(&mut self) -> Result<(), NoMemory>
        ensures { MatchResult result (λ done. self.new ≡ self.old ++ Entered ∷ []) (λ e. self.new ≡ self.old) }
    {
        self.cells.push(Kept::Entered(self.base))?;
        self.base = self.cells.as_slice().len();
        Ok(())
    }

    /// A local has a slot with its value on top.
    ///
    /// # Errors
    ///
    /// `NoMemory` where memory runs out. The stack is then as it was.
    pub fn bind(&mut self, x: u32, v: Value) -> Result<(), NoMemory>
        ensures { MatchResult result (λ done. self.new ≡ self.old ++ Local x v ∷ []) (λ e. self.new ≡ self.old) }
    {
        make_room(&mut self.tops, x)?;
        let below = top_of(self.tops.as_slice(), x);
        self.cells.push(Kept::Local(x, v, below))?;
        let top = self.cells.as_slice().len();
        set_top(&mut self.tops, x, top);
        Ok(())
    }

    /// This waits on top.
    ///
    /// # Errors
    ///
    /// `NoMemory` where memory runs out. The stack is then as it was.
    pub fn wait(&mut self, job: J) -> Result<(), NoMemory>
        ensures { MatchResult result (λ done. self.new ≡ self.old ++ Waits job ∷ []) (λ e. self.new ≡ self.old) }
    {
        Ok(self.cells.push(Kept::Waits(job))?)
    }

    /// The cell on top is taken off, if there is one.
    pub fn pop(&mut self) -> Option<Cell<J>>
        ensures { MatchOption result ((self.old ≡ []) × (self.new ≡ [])) (λ cell. self.old ≡ self.new ++ cell ∷ []) }
    {
        match self.cells.pop() {
            None => None,
            Some(Kept::Entered(below)) => {
                self.base = below;
                Some(Cell::Entered)
            }
            Some(Kept::Local(x, v, below)) => {
                set_top(&mut self.tops, x, below);
                Some(Cell::Local(x, v))
            }
            Some(Kept::Waits(job)) => Some(Cell::Waits(job)),
        }
    }

    /// The value of a local that is in scope on top.
    pub fn found(&self, x: u32) -> Option<Value>
        ensures { result ≡ found x (scope self.now) }
    {
        let top = top_of(self.tops.as_slice(), x);
        if top <= self.base {
            return None;
        }
        value_at(self.cells.as_slice(), top - 1)
    }

    /// A local that is in scope on top has another value in its slot. False says that it is not in scope: then nothing changes.
    pub fn put(&mut self, x: u32, v: Value) -> bool
        ensures { PutsIf x v result self.old self.new }
    {
        let top = top_of(self.tops.as_slice(), x);
        if top <= self.base {
            return false;
        }
        put_at(&mut self.cells, top - 1, v)
    }

    /// Whether there is no cell.
    pub fn is_empty(&self) -> bool
        ensures { result ≡ (length self.now == 0) }
    {
        self.cells.is_empty()
    }
}

impl<J: Copy, A: Allocator + Copy> Stack<J, A> {
    /// No cells, over this allocator.
    pub fn new(alloc: A) -> Self
        ensures { result ≡ [] }
    {
        Stack {
            cells: Vec::new(alloc),
            base: 0,
            tops: Vec::new(alloc),
        }
    }
}
