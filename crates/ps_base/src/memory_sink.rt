//! A sink in memory.

ghost use Rattle.std.specs.Prelude.{◌≡◌, ℕ, ◌<◌, ◌≤◌, ◌+◌, ◌-◌, ◌^◌, List, [], length, IfOk};

use crate::items::Calls;
use crate::memory::NoMemory;
use crate::sink::{Sink, SinkFault, Taken};
use std::alloc::Global;
use std::marker::Model;

/// A sink that keeps the bytes that it takes, at most so many a call and so many in all, and fails at the calls that are
/// listed. All its memory is taken when it is made.
#[derive(Drop)]
pub struct MemorySink {
    taken: Vec<u8>,
    room: usize,
    step: usize,
    failing: Calls,
    calls: u64,
    faults: u64,
}

impl Model for MemorySink {
    ghost use Rattle.std.specs.Prelude.{ℕ, ◌<◌, ◌≤◌, length, vec_capacity};
    ghost use Rattle.ps_base.specs.Logs.{Log};

    ghost Value = { Log };

    ghost view = { λ s. record { taken = s.taken.items; room = s.room; step = s.step; failing = s.failing; calls = s.calls; faults = s.faults } };

    ghost invariant = { λ s. (length s.taken.items ≤ s.room) × (0 < s.step) × (s.room ≤ vec_capacity s.taken) };
}

impl MemorySink {
    /// A sink with room for `room` bytes, which takes at most `step` of them a call, and fails at the calls whose numbers,
    /// counted from 0, are in `failing`. The count of calls stands still at the last number of 64 bits.
    ///
    /// # Errors
    ///
    /// `NoMemory` where memory for the room runs out.
    pub fn new(
        alloc: Global,
        room: usize,
        step: usize,
        failing: Calls,
    ) -> Result<MemorySink, NoMemory>
        requires { 0 < step }
        ensures { IfOk result (λ s. s ≡ record { taken = []; room = room; step = step; failing = failing; calls = 0; faults = 0 }) }
    {
        let taken = Vec::with_capacity(alloc, room)?;
        Ok(MemorySink {
            taken,
            room,
            step,
            failing,
            calls: 0,
            faults: 0,
        })
    }

    /// The bytes that were taken.
    pub fn bytes(&self) -> &[u8]
        ensures { result.now ≡ self.now.taken }
    {
        self.taken.as_slice()
    }
}

impl Sink for MemorySink {
    ghost use Rattle.std.specs.Prelude.{◌≡◌, ◌<◌, length, refl, Ok};
    ghost use Rattle.ps_base.specs.Sinks.{Takes, Flushes};
    ghost use Rattle.ps_base.specs.Logs.{log_shows, next_taken, log_after};

    ghost shows = { log_shows };

    ghost tells_number = { λ _. refl };

    /// Fails where this call is listed or no room is left, and otherwise takes as many bytes as the step, the piece and
    /// the room allow.
    fn write(&mut self, piece: &[u8]) -> Taken
        requires { 0 < length piece.now }
        ensures takes { Takes (log_shows self.old) (log_shows self.new) piece.now result }
        ensures answer { result ≡ next_taken self.old (length piece.now) }
        ensures after { self.new ≡ log_after self.old piece.now result }
    {
        let call = self.calls;
        self.calls = call.saturating_add(1);
        let room = self.room - self.taken.len();
        if room == 0 || self.failing.as_slice().contains(&call) {
            self.faults = self.faults.saturating_add(1);
            return Taken::Failed;
        }
        let k = self.step.min(piece.len()).min(room);
        let (front, _) = piece.split_at(k);
        if self.taken.extend_from_slice(front).is_err() {
            unreachable!();
        }
        Taken::Bytes(k)
    }

    /// Nothing is ever held back.
    fn flush(&mut self) -> Result<(), SinkFault>
        ensures flushes { Flushes (log_shows self.old) (log_shows self.new) result }
        ensures answer { result ≡ Ok tt }
        ensures after { self.new ≡ self.old }
    {
        Ok(())
    }
}
