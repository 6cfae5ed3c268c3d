//! A source in memory.

ghost use Rattle.std.specs.Prelude.{◌≡◌, ℕ, ◌+◌, ◌-◌, ◌<◌, ◌≤◌, ◌^◌, drop, length};

use crate::source::{Piece, Source};
use ps_base::{Bytes, Calls};
use std::marker::Model;

/// A source that gives bytes of its own, at most so many a call, and fails at the calls that are listed.
#[derive(Drop)]
pub struct MemorySource {
    bytes: Bytes,
    at: usize,
    step: usize,
    failing: Calls,
    calls: u64,
    given: u64,
    faults: u64,
}

impl Model for MemorySource {
    ghost use Rattle.std.specs.Prelude.{ℕ, ◌<◌, ◌≤◌, drop, length};
    ghost use Rattle.ps_edge.specs.Tapes.{Tape};

    ghost Value = { Tape };

    ghost view = { λ s. record { left = drop s.at s.bytes; step = s.step; failing = s.failing; calls = s.calls; given = s.given; faults = s.faults } };

    ghost invariant = { λ s. (s.at ≤ length s.bytes) × (0 < s.step) };
}

impl MemorySource {
    /// A source of these bytes, which gives at most `step` of them a call, and fails at the calls whose numbers, counted
    /// from 0, are in `failing`. The count of calls stands still at the last number of 64 bits.
    pub fn new(bytes: Bytes, step: usize, failing: Calls) -> MemorySource
        requires { 0 < step }
        ensures { result ≡ record { left = bytes; step = step; failing = failing; calls = 0; given = 0; faults = 0 } }
    {
        MemorySource {
            bytes,
            at: 0,
            step,
            failing,
            calls: 0,
            given: 0,
            faults: 0,
        }
    }
}

impl Source for MemorySource {
    ghost use Rattle.std.specs.Prelude.{◌≡◌, ◌<◌, length};
    ghost use Rattle.ps_edge.specs.Sources.{Gives};
    ghost use Rattle.ps_edge.specs.Tapes.{next_piece, tape_after, tape_shows};

    ghost shows = { tape_shows };

    /// Fails where this call is listed, and otherwise gives as many bytes as the step, `into` and what is left allow:
    /// the end, where nothing is left.
    fn read(&mut self, into: &mut [u8]) -> Piece
        requires { 0 < length into.old }
        ensures gives { Gives (tape_shows self.old) (tape_shows self.new) into.new result }
        ensures answer { result ≡ next_piece self.old (length into.old) }
        ensures after { self.new ≡ tape_after self.old result }
    {
        let call = self.calls;
        self.calls = call.saturating_add(1);
        if self.failing.as_slice().contains(&call) {
            self.faults = self.faults.saturating_add(1);
            return Piece::Failed;
        }
        let (_, left) = self.bytes.as_slice().split_at(self.at);
        let k = self.step.min(into.len()).min(left.len());
        if k == 0 {
            return Piece::End;
        }
        let (front, _) = left.split_at(k);
        into[..k].copy_from_slice(front);
        self.at += k;
        self.given = self.given.saturating_add(k as u64);
        Piece::Bytes(k)
    }
}
