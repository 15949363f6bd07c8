//! Ends in memory, which tell their bytes and fail at given calls.
ghost use Rattle.std.specs.Prelude.{◌≡◌, ℕ, List, [], ◌<◌, ◌≤◌, ◌↔◌, ◌⊎◌, ◌-◌, min, length, take, Contains, IfOk, IsErr, OnErr, Ok};
ghost use Rattle.std.specs.Io.{ReadsAtMost, WritesAtMost};
ghost use Rattle.std.specs.Io.KnownBytes.{ReadConsumes, WriteAppends};
ghost use Rattle.io_edge.specs.Faults.{Rose, StaysTold};
ghost use Rattle.io_edge.specs.Memory.{after_read, after_write, source_of, sink_of};

use crate::edge::{Failed, Sink, Source};
use std::alloc::Global;
use std::marker::Model;

/// Want of memory.
#[derive(Clone, Copy, Debug, PartialEq, Eq)]
pub struct NoMemory;

// Copies the first bytes, as many as there is room for and at most `most`.
fn give(left: &[u8], room: &mut [u8], most: usize) -> usize
    ensures count { result ≡ min (min most (length room.old)) (length left.now) }
    ensures given { take result room.new ≡ take result left.now }
{
    let count = most.min(room.len()).min(left.len());
    room[..count].copy_from_slice(&left[..count]);
    count
}

/// Bytes in memory, given a few at a time. It is seen as a record of the bytes left, the most that one read gives, the calls
/// that fail by their numbers from 0, and how many calls were made and failed.
#[derive(Drop)]
pub struct MemSource {
    bytes: Vec<u8>,
    at: usize,
    step: usize,
    fails: Vec<u64>,
    calls: u64,
    faults: u64,
}

impl Model for MemSource {
    ghost use Rattle.std.specs.Prelude.{◌<◌, ◌≤◌, drop, length};
    ghost use Rattle.io_edge.specs.Memory.{SourceState};

    ghost Value = { SourceState };

    ghost view = { λ s. record {
      left = drop s.at s.bytes.items;
      step = s.step;
      fails = s.fails.items;
      calls = s.calls;
      faults = s.faults;
    } };

    ghost invariant = { λ s. (s.at ≤ length s.bytes.items) × (0 < s.step) };
}

impl MemSource {
    /// A source of these bytes, which gives at most `step` of them at a read, and fails at the calls whose numbers, from 0, are
    /// in `fails`.
    pub fn of(bytes: Vec<u8>, step: usize, fails: Vec<u64>) -> MemSource
        requires { 0 < step }
        ensures { result ≡ source_of bytes.items step fails.items }
    {
        MemSource {
            bytes,
            at: 0,
            step,
            fails,
            calls: 0,
            faults: 0,
        }
    }
}

impl Source for MemSource {
    ghost use Rattle.std.specs.Prelude.{Some};

    ghost left = { λ s. Some s.left };

    ghost faults = { λ s. s.faults };

    /// Fails exactly at the calls of `fails`; else gives as much as the step, the room and the bytes left admit.
    fn read(&mut self, room: &mut [u8]) -> Result<usize, Failed>
        ensures bound { ReadsAtMost result room.new }
        ensures bytes { ReadConsumes (Some self.old.left) (Some self.new.left) result room.new }
        ensures later { self.old.faults ≤ self.new.faults }
        ensures cause { OnErr result (Rose self.old.faults self.new.faults) }
        ensures fails { IsErr result ↔ Contains self.old.fails self.old.calls }
        ensures count { IfOk result (λ n. n ≡ min (min self.old.step (length room.old)) (length self.old.left)) }
        ensures after { self.new ≡ after_read self.old result }
    {
        let call = self.calls;
        self.calls = self.calls.saturating_add(1);
        if self.fails.contains(&call) {
            self.faults = self.faults.saturating_add(1);
            return Err(Failed);
        }
        let count = give(&self.bytes[self.at..], room, self.step);
        self.at += count;
        Ok(count)
    }
}

/// Bytes taken into memory, a few at a time. It is seen as a record of the bytes taken, the room for all of them, the most that
/// one write takes, the calls that fail by their numbers from 0, and how many calls were made and failed.
#[derive(Drop)]
pub struct MemSink {
    bytes: Vec<u8>,
    room: usize,
    step: usize,
    fails: Vec<u64>,
    calls: u64,
    faults: u64,
}

impl Model for MemSink {
    ghost use Rattle.std.specs.Prelude.{◌<◌, ◌≤◌, length};
    ghost use Rattle.std.specs.Vec.{vec_capacity};
    ghost use Rattle.io_edge.specs.Memory.{SinkState};

    ghost Value = { SinkState };

    ghost view = { λ s. record {
      held = s.bytes.items;
      room = s.room;
      step = s.step;
      fails = s.fails.items;
      calls = s.calls;
      faults = s.faults;
    } };

    ghost invariant = { λ s. (length s.bytes.items ≤ s.room) × (0 < s.step) × (s.room ≤ vec_capacity s.bytes) };
}

impl MemSink {
    /// A sink with room for that many bytes, taken at once, which takes at most `step` of them at a write, and fails at the
    /// calls whose numbers, from 0, are in `fails`.
    pub fn of(alloc: Global, room: usize, step: usize, fails: Vec<u64>) -> Result<MemSink, NoMemory>
        requires { 0 < step }
        ensures { IfOk result (λ s. s ≡ sink_of room step fails.items) }
    {
        let Ok(bytes) = Vec::with_capacity(alloc, room) else {
            return Err(NoMemory);
        };
        Ok(MemSink {
            bytes,
            room,
            step,
            fails,
            calls: 0,
            faults: 0,
        })
    }

    /// The bytes taken.
    pub fn bytes(&self) -> &[u8]
        ensures { result.now ≡ self.now.held }
    {
        self.bytes.as_slice()
    }
}

impl Sink for MemSink {
    ghost use Rattle.std.specs.Prelude.{Some};

    ghost holds = { λ s. Some s.held };

    ghost faults = { λ s. s.faults };

    /// Fails exactly at the calls of `fails`, and for a piece that is not empty where the room is used up; else takes as much as
    /// the step, the piece and the room admit. It takes no memory.
    fn write(&mut self, piece: &[u8]) -> Result<usize, Failed>
        ensures bound { WritesAtMost result piece.now }
        ensures some { 0 < length piece.now → IfOk result (λ n. 0 < n) }
        ensures bytes { WriteAppends (Some self.old.held) (Some self.new.held) result piece.now }
        ensures later { self.old.faults ≤ self.new.faults }
        ensures cause { OnErr result (Rose self.old.faults self.new.faults) }
        ensures fails { IsErr result ↔ (Contains self.old.fails self.old.calls ⊎ ((0 < length piece.now)
            × (self.old.room ≤ length self.old.held))) }
        ensures count { IfOk result (λ n. n ≡ min (min self.old.step (length piece.now)) (self.old.room - length self.old.held)) }
        ensures after { self.new ≡ after_write self.old piece.now result }
    {
        let call = self.calls;
        self.calls = self.calls.saturating_add(1);
        let free = self.room - self.bytes.len();
        if self.fails.contains(&call) || (!piece.is_empty() && free == 0) {
            self.faults = self.faults.saturating_add(1);
            return Err(Failed);
        }
        let count = self.step.min(piece.len()).min(free);
        match self.bytes.extend_from_slice(&piece[..count]) {
            Ok(()) => Ok(count),
            Err(_) => unreachable!(),
        }
    }
}

/// Bytes in memory that are given as far as the room reaches, with no fault. It is seen as the bytes left.
#[derive(Drop)]
pub struct QuietSource {
    bytes: Vec<u8>,
    at: usize,
}

impl Model for QuietSource {
    ghost use Rattle.std.specs.Prelude.{ℕ, List, ◌≤◌, drop, length};

    ghost Value = { List ℕ };

    ghost view = { λ s. drop s.at s.bytes.items };

    ghost invariant = { λ s. s.at ≤ length s.bytes.items };
}

impl QuietSource {
    /// A source of these bytes.
    pub fn of(bytes: Vec<u8>) -> QuietSource
        ensures { result ≡ bytes.items }
    {
        QuietSource { bytes, at: 0 }
    }
}

impl Source for QuietSource {
    ghost use Rattle.std.specs.Prelude.{Some};

    ghost left = { λ s. Some s };

    ghost faults = { λ _. 0 };

    /// Never fails, and gives as much as the room and the bytes left admit.
    fn read(&mut self, room: &mut [u8]) -> Result<usize, Failed>
        ensures bound { ReadsAtMost result room.new }
        ensures bytes { ReadConsumes (Some self.old) (Some self.new) result room.new }
        ensures count { result ≡ Ok (min (length room.old) (length self.old)) }
    {
        let count = give(&self.bytes[self.at..], room, usize::MAX);
        self.at += count;
        Ok(count)
    }
}
