//! The world that a program runs in, and what it does there.

ghost use Rattle.std.specs.Prelude.{◌≡◌};
ghost use Rattle.byte_store.specs.Worlds.{next_byte, next_grant, rest_of};

use ps_base::{Bytes, Flags};
use std::marker::Model;

/// The input of a program, and for each of its allocations in order whether it is granted.
#[derive(Drop)]
pub struct World {
    input: Bytes,
    read: usize,
    grants: Flags,
    asked: usize,
}

impl Model for World {
    ghost use Rattle.std.specs.Prelude.{drop};
    ghost use Rattle.byte_store.specs.Worlds.{Surroundings};

    ghost Value = { Surroundings };

    ghost view = { λ w. record { input = drop w.read w.input; grants = drop w.asked w.grants } };
}

impl World {
    /// A world with this input, where the allocations are granted as `grants` says. Past its end they are refused.
    pub fn new(input: Bytes, grants: Flags) -> World
        ensures { result ≡ record { input = input; grants = grants } }
    {
        World {
            input,
            read: 0,
            grants,
            asked: 0,
        }
    }

    /// The next byte of the input, or -1 at its end. It stays there.
    pub fn peek(&self) -> i64
        ensures { result ≡ next_byte self.now.input }
    {
        let input = self.input.as_slice();
        if self.read < input.len() {
            i64::from(input[self.read])
        } else {
            -1
        }
    }

    /// Takes the next byte of the input, or answers -1 at its end.
    pub fn read(&mut self) -> i64
        ensures byte { result ≡ next_byte self.old.input }
        ensures rest { self.new ≡ record self.old { input = rest_of self.old.input } }
    {
        let input = self.input.as_slice();
        if self.read < input.len() {
            let byte = input[self.read];
            self.read += 1;
            i64::from(byte)
        } else {
            -1
        }
    }

    /// Whether the next allocation is granted. Past the end of the grants it is refused.
    pub fn granted(&self) -> bool
        ensures { result ≡ next_grant self.now.grants }
    {
        let grants = self.grants.as_slice();
        self.asked < grants.len() && grants[self.asked]
    }

    /// Uses the next grant.
    pub fn use_grant(&mut self)
        ensures { self.new ≡ record self.old { grants = rest_of self.old.grants } }
    {
        if self.asked < self.grants.len() {
            self.asked += 1;
        }
    }
}
