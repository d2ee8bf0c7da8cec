// A source and a sink that never fail.
ghost use Rattle.std.specs.Prelude.{◌≡◌, ◌+◌, ◌-◌, ◌<◌, ◌≤◌, ◌^◌, min, length, None, Some};
ghost use Rattle.ds_base.specs.Outside.{Reads, Writes, ReadFaults, WriteFaults};
ghost use Rattle.ds_base.specs.Memory.{QuietRest, quiet_answer, after_quiet};

use crate::copying::copy_front;
use crate::{Got, Put, Sink, Source};
use std::marker::Model;

/// A source over bytes in memory that never fails.
#[derive(Drop)]
pub struct QuietSource {
    bytes: Vec<u8>,
    taken: usize,
    chunk: usize,
}

impl Model for QuietSource {
    ghost use Rattle.std.specs.Prelude.{◌≤◌, drop, vec_len};
    ghost use Rattle.ds_base.specs.Memory.{QuietRest};

    ghost Value = { QuietRest };

    ghost view = { λ s. record { rest = drop s.taken s.bytes.items; chunk = s.chunk } };

    ghost invariant = { λ s. (s.taken ≤ vec_len s.bytes) × (1 ≤ s.chunk) };
}

impl QuietSource {
    /// A source of these bytes, of which a read moves at most `chunk`.
    pub fn build(bytes: Vec<u8>, chunk: usize) -> QuietSource
        requires { 1 ≤ chunk }
        ensures rest { result.rest ≡ bytes.items }
        ensures chunk { result.chunk ≡ chunk }
    {
        QuietSource {
            bytes,
            taken: 0,
            chunk,
        }
    }
}

impl Source for QuietSource {
    ghost rest = { λ s. Some s.rest };

    ghost faults = { λ _. 0 };

    fn read(&mut self, buf: &mut [u8]) -> Got
        requires { 0 < length buf.old }
        ensures bytes { Reads (Some self.old.rest) (Some self.new.rest) result buf.new }
        ensures cause { ReadFaults 0 0 result }
        ensures answer { result ≡ quiet_answer self.old (length buf.old) }
        ensures after { self.new ≡ after_quiet self.old result }
    {
        let left = self.bytes.len() - self.taken;
        if left == 0 {
            return Got::End;
        }
        let count = copy_front(&self.bytes[self.taken..], buf, self.chunk);
        self.taken += count;
        Got::Bytes(count)
    }
}

/// A sink that takes each piece whole, counts its bytes and keeps none.
#[derive(Drop)]
pub struct QuietSink {
    taken: u64,
}

impl Model for QuietSink {
    ghost use Rattle.std.specs.Prelude.{ℕ};

    ghost Value = { ℕ };

    ghost view = { λ s. s.taken };
}

impl QuietSink {
    /// A sink that has taken nothing.
    pub fn build() -> QuietSink
        ensures { result ≡ 0 }
    {
        QuietSink { taken: 0 }
    }

    /// How many bytes it has taken. The number stays at its last value.
    pub fn taken(&self) -> u64
        ensures { result ≡ self.now }
    {
        self.taken
    }
}

impl Sink for QuietSink {
    ghost written = { λ _. None };

    ghost faults = { λ _. 0 };

    fn write(&mut self, piece: &[u8]) -> Put
        requires { 0 < length piece.now }
        ensures bytes { Writes None None result piece.now }
        ensures cause { WriteFaults 0 0 result }
        ensures answer { result ≡ Put.Took (length piece.now) }
        ensures taken { self.new ≡ min (self.old + length piece.now) (2 ^ 64 - 1) }
    {
        self.taken = self.taken.saturating_add(piece.len() as u64);
        Put::Took(piece.len())
    }
}
