// Why a built-in member gave no value.
ghost use Rattle.std.specs.Prelude.{◌≡◌};

use ds_base::NoMemory;
use program::Text;
use std::alloc::{AllocError, AllocFailed};

/// What ends an isolate.
#[derive(Debug, Drop)]
pub enum Trap {
    /// A value of another kind than is needed.
    TypeFault,
    /// An index that is not there.
    RangeFault,
    DivideByZero,
    /// A shift by a negative count.
    NegativeShift,
    /// Object's `noSuchMethod`, with the name in its Invocation.
    NoSuchMethod(Text),
    /// `throw`, with the text of what is thrown.
    Thrown(Text),
}

#[derive(Debug, Drop)]
pub enum Fault {
    Trap(Trap),
    NoMemory,
}

impl From<Trap> for Fault {
    ghost use Rattle.dart_values.specs.declared.fault.Fault.TheVariants.{Trap as Trapped};

    ghost from_gives = { λ t f. f ≡ Trapped t };

    fn from(trap: Trap) -> Self {
        Fault::Trap(trap)
    }
}

impl From<NoMemory> for Fault {
    ghost use Rattle.dart_values.specs.declared.fault.Fault.TheVariants.{NoMemory as Wanting};

    ghost from_gives = { λ _ f. f ≡ Wanting };

    fn from(_: NoMemory) -> Self {
        Fault::NoMemory
    }
}

impl From<AllocError> for Fault {
    ghost use Rattle.dart_values.specs.declared.fault.Fault.TheVariants.{NoMemory as Wanting};

    ghost from_gives = { λ _ f. f ≡ Wanting };

    fn from(_: AllocError) -> Self {
        Fault::NoMemory
    }
}

impl<T: Drop> From<AllocFailed<T>> for Fault {
    ghost use Rattle.dart_values.specs.declared.fault.Fault.TheVariants.{NoMemory as Wanting};

    ghost from_gives = { λ _ f. f ≡ Wanting };

    fn from(_: AllocFailed<T>) -> Self {
        Fault::NoMemory
    }
}
