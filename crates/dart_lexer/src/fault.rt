//! Why no more tokens can be taken, with places as they are told inside of the crate.

ghost use Rattle.std.specs.Prelude.{◌≡◌};
ghost use Rattle.dart_lexer.specs.declared.fault.Fault.TheVariants.{NoMemory};

use std::alloc::{AllocError, AllocFailed};

/// A place is told by how many bytes the text has from there on.
#[derive(Clone, Copy, Debug, PartialEq, Eq)]
pub enum Fault {
    NoMemory,
    BadChar(usize),
    UnclosedString(usize),
    UnclosedComment(usize),
    WideInteger(usize),
    ReservedWord(usize),
}

impl From<AllocError> for Fault {
    ghost from_gives = { λ _ e. e ≡ NoMemory };

    fn from(_e: AllocError) -> Fault {
        Fault::NoMemory
    }
}

impl<T: Drop> From<AllocFailed<T>> for Fault {
    ghost from_gives = { λ _ e. e ≡ NoMemory };

    fn from(_e: AllocFailed<T>) -> Fault {
        Fault::NoMemory
    }
}
