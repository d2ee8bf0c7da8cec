// What a program is handed: a source of bytes, a sink for bytes, and a gate.
ghost use Rattle.std.specs.Prelude.{◌≡◌, ◌<◌, ℕ, List, length};
ghost use Rattle.std.specs.declared.option.Option.{Option};
ghost use Rattle.ds_base.specs.Outside.{Reads, Writes, ReadFaults, WriteFaults};

use std::alloc::{AllocError, AllocFailed};

/// What a read gave.
#[derive(Clone, Copy, Debug, PartialEq, Eq)]
pub enum Got {
    Bytes(usize),
    End,
    Failed,
}

/// What a write did.
#[derive(Clone, Copy, Debug, PartialEq, Eq)]
pub enum Put {
    Took(usize),
    Failed,
}

pub trait Source {
    /// The bytes that reads will give from here on, where the source tells them.
    ghost rest: { Self → Option (List ℕ) };

    /// How often it has failed. The count stays at its last value, 2^64 - 1.
    ghost faults: { Self → ℕ };

    /// Reads into the front of `buf`.
    fn read(&mut self, buf: &mut [u8]) -> Got
        requires { 0 < length buf.old }
        ensures bytes { Reads (rest self.old) (rest self.new) result buf.new }
        ensures cause { ReadFaults (faults self.old) (faults self.new) result };
}

pub trait Sink {
    /// The bytes that the sink holds, where it tells them.
    ghost written: { Self → Option (List ℕ) };

    /// How often it has failed. The count stays at its last value, 2^64 - 1.
    ghost faults: { Self → ℕ };

    /// Writes bytes from the front of `piece`.
    fn write(&mut self, piece: &[u8]) -> Put
        requires { 0 < length piece.now }
        ensures bytes { Writes (written self.old) (written self.new) result piece.now }
        ensures cause { WriteFaults (faults self.old) (faults self.new) result };
}

/// A moment of an entry that runs beside others.
#[derive(Clone, Copy, Debug, PartialEq, Eq)]
pub enum Moment {
    /// Before the entry's first turn.
    Begin,
    /// After the first of a cell's two words was advanced, before the second one follows.
    BetweenWords,
    /// After the entry ended.
    Ended,
}

/// Asked at certain moments of a run on several workers: a test may hold a worker there. It answers nothing and returns.
pub trait Gate: Sync {
    fn at(&self, entry: u32, moment: Moment);
}

/// The gate that holds nobody.
#[derive(Clone, Copy)]
pub struct OpenGate;

impl Gate for OpenGate {
    fn at(&self, _entry: u32, _moment: Moment) {}
}

/// Want of memory. Nothing else is ever told by it.
#[derive(Clone, Copy, Debug, PartialEq, Eq)]
pub struct NoMemory;

impl From<AllocError> for NoMemory {
    fn from(_: AllocError) -> Self {
        NoMemory
    }
}

impl<T: Drop> From<AllocFailed<T>> for NoMemory {
    fn from(_: AllocFailed<T>) -> Self {
        NoMemory
    }
}
