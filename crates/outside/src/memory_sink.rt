ghost use Rattle.std.specs.Prelude.{◌≡◌, ℕ, ◌+◌, ◌^◌, ◌<◌, ◌≤◌, ◌||◌, [], ◌++◌, IfOk, Some, length, min, nat_le, vec_len, vec_capacity};
ghost use Rattle.outside.specs.Faults.{Rose};
ghost use Rattle.outside.specs.Sink.{Gives};
ghost use Rattle.outside.specs.MemorySink.{SinkMemory, after_give, answer_of};

use crate::faults::{counted, stands_in};
use crate::sink::{Given, Sink};
use cbase::{List, NoMemory};
use std::alloc::Global;
use std::marker::Model;

/// A sink in memory, which tells the bytes that were written and fails where it was told to.
///
/// It takes at most `step` bytes a call, and no more than are free. The calls of `give` are numbered from 1,
/// and those whose numbers stand in `failing` fail, as does a call where no byte is free. The counts of
/// calls and of faults stand still at 2^64 - 1. `give` takes no memory.
#[derive(Drop)]
pub struct MemorySink {
    bytes: Vec<u8>,
    step: u32,
    room: u32,
    failing: List<u32>,
    calls: u64,
    faults: u64,
}

impl Model for MemorySink {
    ghost use Rattle.std.specs.Prelude.{◌≤◌, vec_len, vec_capacity};
    ghost use Rattle.outside.specs.MemorySink.{SinkMemory};

    ghost Value = { SinkMemory };

    ghost view = { λ s. record { written = s.bytes.items; step = s.step; room = s.room; failing = s.failing; calls = s.calls; faults = s.faults } };

    ghost invariant = { λ s. (1 ≤ s.step) × (s.room ≤ vec_capacity s.bytes) × (vec_len s.bytes ≤ s.room) };
}

impl MemorySink {
    /// A sink with `room` free bytes, which are reserved here, once.
    pub fn new(
        alloc: Global,
        step: u32,
        room: u32,
        failing: List<u32>,
    ) -> Result<MemorySink, NoMemory>
        requires { 1 ≤ step }
        ensures { IfOk result (λ sink. sink ≡ record { written = []; step = step; room = room; failing = failing; calls = 0; faults = 0 }) }
    {
        Ok(MemorySink {
            bytes: Vec::with_capacity(alloc, room as usize)?,
            step,
            room,
            failing,
            calls: 0,
            faults: 0,
        })
    }

    /// The bytes that were written, in order.
    pub fn bytes(&self) -> &[u8]
        ensures { result.now ≡ self.now.written }
    {
        self.bytes.as_slice()
    }
}

impl Sink for MemorySink {
    ghost use Rattle.std.specs.Prelude.{Some};

    ghost written = { λ s. Some s.written };

    ghost faults = { λ s. s.faults };

    fn give(&mut self, piece: &[u8]) -> Given
        requires { 0 < length piece.now }
        ensures answer { result ≡ answer_of self.old piece.now }
        ensures after { self.new ≡ after_give self.old piece.now }
        ensures bytes { Gives (Some self.old.written) (Some self.new.written) piece.now result }
        ensures counted { self.new.faults < 2 ^ 64 }
        ensures later { self.old.faults ≤ self.new.faults }
        ensures cause { result ≡ Given.Failed → Rose self.old.faults self.new.faults }
    {
        let free = self.room as usize - self.bytes.len();
        self.calls = counted(self.calls);
        if free == 0 || stands_in(self.calls, self.failing.as_slice()) {
            self.faults = counted(self.faults);
            return Given::Failed;
        }
        let count = piece.len().min(self.step as usize).min(free);
        append_within(&mut self.bytes, &piece[..count]);
        Given::Bytes(count)
    }
}

/// Puts `piece` behind `bytes`, for which there is room.
fn append_within(bytes: &mut Vec<u8>, piece: &[u8])
    requires { vec_len bytes.old + length piece.now ≤ vec_capacity bytes.old }
    ensures items { bytes.new.items ≡ bytes.old.items ++ piece.now }
    ensures capacity { vec_capacity bytes.old ≤ vec_capacity bytes.new }
{
    match bytes.extend_from_slice(piece) {
        Ok(()) => {}
        Err(_) => unreachable!(),
    }
}
