// A source and a sink in memory, which fail when they are told to.
ghost use Rattle.std.specs.Prelude.{◌≡◌, ◌≤◌, ◌<◌, length, Some, IfOk, [], drop};
ghost use Rattle.ds_base.specs.Outside.{Reads, Writes, ReadFaults, WriteFaults};
ghost use Rattle.ds_base.specs.Memory.{MemoryRest, MemoryHeld, read_answer, after_read, write_answer, after_write};

use crate::copying::copy_front;
use crate::{Got, NoMemory, Put, Sink, Source};
use std::alloc::Global;
use std::marker::Model;

/// A source over bytes in memory. Its reads are numbered from 0; those whose number is in `fails` fail.
#[derive(Drop)]
pub struct MemorySource {
    bytes: Vec<u8>,
    taken: usize,
    fails: Vec<u64>,
    chunk: usize,
    calls: u64,
    faults: u64,
}

impl Model for MemorySource {
    ghost use Rattle.std.specs.Prelude.{◌≤◌, ◌<◌, ◌^◌, drop, vec_len};
    ghost use Rattle.ds_base.specs.Memory.{MemoryRest};

    ghost Value = { MemoryRest };

    ghost view = { λ s. record { rest = drop s.taken s.bytes.items; fails = s.fails.items; chunk = s.chunk; calls = s.calls; faults = s.faults } };

    ghost invariant = { λ s. (s.taken ≤ vec_len s.bytes) × (1 ≤ s.chunk) };
}

impl MemorySource {
    /// A source of these bytes, of which a read moves at most `chunk`.
    pub fn build(bytes: Vec<u8>, fails: Vec<u64>, chunk: usize) -> MemorySource
        requires { 1 ≤ chunk }
        ensures rest { result.rest ≡ bytes.items }
        ensures fails { result.fails ≡ fails.items }
        ensures chunk { result.chunk ≡ chunk }
        ensures calls { result.calls ≡ 0 }
        ensures faults { result.faults ≡ 0 }
    {
        MemorySource {
            bytes,
            taken: 0,
            fails,
            chunk,
            calls: 0,
            faults: 0,
        }
    }

    /// The bytes that no read has given yet.
    pub fn unread(&self) -> &[u8]
        ensures { result.now ≡ self.now.rest }
    {
        &self.bytes[self.taken..]
    }
}

impl Source for MemorySource {
    ghost rest = { λ s. Some s.rest };

    ghost faults = { λ s. s.faults };

    fn read(&mut self, buf: &mut [u8]) -> Got
        requires { 0 < length buf.old }
        ensures bytes { Reads (Some self.old.rest) (Some self.new.rest) result buf.new }
        ensures cause { ReadFaults self.old.faults self.new.faults result }
        ensures answer { result ≡ read_answer self.old (length buf.old) }
        ensures after { self.new ≡ after_read self.old result }
    {
        let number = self.calls;
        self.calls = self.calls.saturating_add(1);
        if self.fails.contains(&number) {
            self.faults = self.faults.saturating_add(1);
            return Got::Failed;
        }
        let left = self.bytes.len() - self.taken;
        if left == 0 {
            return Got::End;
        }
        let count = copy_front(&self.bytes[self.taken..], buf, self.chunk);
        self.taken += count;
        Got::Bytes(count)
    }
}

/// A sink that holds bytes in memory. Its writes are numbered from 0; one fails where its number is in `fails`, or where no room is left.
#[derive(Drop)]
pub struct MemorySink {
    held: Vec<u8>,
    room: usize,
    fails: Vec<u64>,
    chunk: usize,
    calls: u64,
    faults: u64,
}

impl Model for MemorySink {
    ghost use Rattle.std.specs.Prelude.{◌≤◌, vec_len, vec_capacity};
    ghost use Rattle.ds_base.specs.Memory.{MemoryHeld};

    ghost Value = { MemoryHeld };

    ghost view = { λ s. record { bytes = s.held.items; room = s.room; fails = s.fails.items; chunk = s.chunk; calls = s.calls; faults = s.faults } };

    ghost invariant = { λ s. (vec_len s.held ≤ s.room) × (s.room ≤ vec_capacity s.held) × (1 ≤ s.chunk) };
}

impl MemorySink {
    /// A sink with room for this many bytes, of which a write moves at most `chunk`. All its memory is taken here.
    pub fn build(
        alloc: Global,
        room: usize,
        fails: Vec<u64>,
        chunk: usize,
    ) -> Result<MemorySink, NoMemory>
        requires { 1 ≤ chunk }
        ensures bytes { IfOk result (λ s. s.bytes ≡ []) }
        ensures room { IfOk result (λ s. s.room ≡ room) }
        ensures fails { IfOk result (λ s. s.fails ≡ fails.items) }
        ensures chunk { IfOk result (λ s. s.chunk ≡ chunk) }
        ensures calls { IfOk result (λ s. s.calls ≡ 0) }
        ensures faults { IfOk result (λ s. s.faults ≡ 0) }
    {
        let held = Vec::with_capacity(alloc, room)?;
        Ok(MemorySink {
            held,
            room,
            fails,
            chunk,
            calls: 0,
            faults: 0,
        })
    }

    /// The bytes that writes have moved here.
    pub fn bytes(&self) -> &[u8]
        ensures { result.now ≡ self.now.bytes }
    {
        self.held.as_slice()
    }
}

impl Sink for MemorySink {
    ghost written = { λ s. Some s.bytes };

    ghost faults = { λ s. s.faults };

    fn write(&mut self, piece: &[u8]) -> Put
        requires { 0 < length piece.now }
        ensures bytes { Writes (Some self.old.bytes) (Some self.new.bytes) result piece.now }
        ensures cause { WriteFaults self.old.faults self.new.faults result }
        ensures answer { result ≡ write_answer self.old (length piece.now) }
        ensures after { self.new ≡ after_write self.old piece.now result }
    {
        let number = self.calls;
        self.calls = self.calls.saturating_add(1);
        let left = self.room - self.held.len();
        if left == 0 || self.fails.contains(&number) {
            self.faults = self.faults.saturating_add(1);
            return Put::Failed;
        }
        let count = self.chunk.min(piece.len()).min(left);
        self.held.extend_from_slice(&piece[..count]).unwrap();
        Put::Took(count)
    }
}
