//! The environment here, and those that were kept.

ghost use Rattle.std.specs.Prelude.{◌≡◌, [], ◌∷◌, ◌++◌, length, drop, IfOk, OnOk, OnErr};
ghost use Rattle.ps_scope.specs.Environments.{word, pair_of, found, is_among, has_local, kept_at};

use crate::counts::{count_in, count_of, count_out, make_room};
use crate::table::Table;
use ps_base::Name;
use ps_pattern::Binding;
use sqlite_items::{Items, at};
use std::alloc::{AllocError, Global};
use std::marker::Model;

/// The environment here, and environments that were kept. Contracts see them as lists of pairs, the newest first.
#[derive(Drop)]
pub struct Scopes {
    table: Table,
    kept: Items<usize>,
    locals: Items<usize>,
}

impl Model for Scopes {
    ghost use Rattle.std.specs.Prelude.{map};
    ghost use Rattle.ps_scope.specs.Environments.{Frames};
    ghost use Rattle.ps_scope.specs.InsideTables.{trail_at};
    ghost use Rattle.ps_scope.specs.InsideScopes.{pairs, AreRows, AreCounted};

    ghost Value = { Frames };

    ghost view = { λ s. record { here = pairs s.table.live; kept = map (λ n. pairs (trail_at s.table.trails n)) s.kept } };

    ghost invariant = { λ s. AreRows s.table.trails s.kept × AreCounted (pairs s.table.live) s.locals };
}

impl Scopes {
    /// An empty environment, and none that were kept.
    ///
    /// # Errors
    ///
    /// `AllocError` where memory ran out.
    pub fn new(alloc: Global) -> Result<Scopes, AllocError>
        ensures here { IfOk result (λ s. s.here ≡ []) }
        ensures kept { IfOk result (λ s. s.kept ≡ []) }
    {
        let table = Table::new(alloc)?;
        Ok(Scopes {
            table,
            kept: Items::new(alloc),
            locals: Items::new(alloc),
        })
    }

    /// Binds an identifier here. Numbers of locals are indices of a table, which grows with the greatest of them.
    ///
    /// # Errors
    ///
    /// `AllocError` where memory ran out; then nothing is bound.
    pub fn bind(&mut self, name: Name, stamps: &[u64], binding: Binding) -> Result<(), AllocError>
        ensures here { OnOk result (self.new.here ≡ pair_of (word name stamps.now) binding ∷ self.old.here) }
        ensures kept { OnOk result (self.new.kept ≡ self.old.kept) }
        ensures unchanged { OnErr result (self.new ≡ self.old) }
    {
        make_room(&mut self.locals, binding)?;
        self.table.push(0, name, stamps, binding)?;
        count_in(&mut self.locals, binding);
        Ok(())
    }

    /// Leaves the newest `count` pairs, or all where there are no more.
    pub fn leave(&mut self, count: usize)
        ensures here { self.new.here ≡ drop count self.old.here }
        ensures kept { self.new.kept ≡ self.old.kept }
    {
        let all = self.len();
        let count = if count < all { count } else { all };
        for i in 0..count {
            let _ = i;
            self.leave_one();
        }
    }

    fn leave_one(&mut self)
        ensures here { self.new.here ≡ drop 1 self.old.here }
        ensures kept { self.new.kept ≡ self.old.kept }
    {
        match self.table.pop() {
            None => {}
            Some(binding) => count_out(&mut self.locals, binding),
        }
    }

    /// What an identifier stands for here.
    pub fn find(&self, name: Name, stamps: &[u64]) -> Option<Binding>
        ensures { result ≡ found self.now.here (word name stamps.now) }
    {
        self.table.find(0, name, stamps)
    }

    /// How many pairs there are here.
    pub fn len(&self) -> usize
        ensures { result ≡ length self.now.here }
    {
        self.table.len()
    }

    /// Whether an identifier is bound by one of the newest `count` pairs.
    pub fn is_among(&self, count: usize, name: Name, stamps: &[u64]) -> bool
        ensures { result ≡ is_among count self.now.here (word name stamps.now) }
    {
        let older = self.table.len().saturating_sub(count);
        older < self.table.height(0, name, stamps)
    }

    /// Whether some pair here is bound to the local of a number.
    pub fn has_local(&self, local: u32) -> bool
        ensures { result ≡ has_local self.now.here local }
    {
        0 < count_of(self.locals.as_slice(), local)
    }

    /// Keeps the environment here, and answers its number. It is not copied.
    ///
    /// # Errors
    ///
    /// `AllocError` where memory ran out; then nothing is kept.
    pub fn keep(&mut self) -> Result<usize, AllocError>
        ensures number { IfOk result (λ n. n ≡ length self.old.kept) }
        ensures here { OnOk result (self.new.here ≡ self.old.here) }
        ensures kept { OnOk result (self.new.kept ≡ self.old.kept ++ self.old.here ∷ []) }
        ensures unchanged { OnErr result (self.new ≡ self.old) }
    {
        let number = self.kept.len();
        let mark = self.table.mark();
        self.kept.push(mark)?;
        Ok(number)
    }

    /// What an identifier stands for in the environment that was kept under a number; nothing where none was.
    pub fn find_kept(&self, number: usize, name: Name, stamps: &[u64]) -> Option<Binding>
        ensures { result ≡ found (kept_at self.now.kept number) (word name stamps.now) }
    {
        let mark = at(self.kept.as_slice(), number)?;
        self.table.find_at(*mark, 0, name, stamps)
    }
}
