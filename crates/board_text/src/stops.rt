//! Errors that end a run, before its fault line is written.
ghost use Rattle.std.specs.Prelude.{◌≡◌};
ghost use Rattle.board_text.specs.Output.{fault_of, stop_of};
ghost use Rattle.board_text.specs.Text.{fault_at};
ghost use Rattle.board_text.specs.declared.stops.Stop.TheVariants.{OutOfMemory};

use crate::faults::Fault;
use council_core::Refusal;
use std::alloc::{AllocError, AllocFailed};
use thiserror::Error;

/// What ends a run, before the line of its fault is written: out of memory, a failed device, or any
/// other fault.
#[derive(Clone, Copy, Debug, PartialEq, Eq, Error)]
pub enum Stop {
    /// Out of memory.
    #[error("out of memory")]
    OutOfMemory,
    /// A read of the input failed, or was interrupted after the last retry.
    #[error("the input could not be read")]
    ReadFault,
    /// A write failed, accepted nothing, or was interrupted after the last retry. No fault line is
    /// written after it.
    #[error("the output could not be written")]
    WriteFault,
    /// Any other fault: of the limits, of the input, a closed gate, or a mismatch. Its place is the
    /// number of a record, or 0.
    #[error("{0}")]
    Fault(Fault),
}

impl Stop {
    /// The fault of this refusal at the number of a record, or at 0.
    pub fn at(why: Refusal, number: u32) -> Stop
        ensures same { result ≡ Stop.Fault (fault_at why number) }
    {
        Stop::Fault(Fault::new(why, number))
    }

    /// The fault whose line is to be written; `None` after a failed write. Out of memory and a
    /// failed read are faults at 0.
    pub fn to_fault(self) -> Option<Fault>
        ensures same { result ≡ fault_of self }
    {
        match self {
            Stop::OutOfMemory => Some(Fault::new(Refusal::OutOfMemory, 0)),
            Stop::ReadFault => Some(Fault::new(Refusal::ReadFault, 0)),
            Stop::WriteFault => None,
            Stop::Fault(fault) => Some(fault),
        }
    }
}

impl From<AllocError> for Stop {
    ghost from_gives = { λ _ stop. stop ≡ OutOfMemory };

    fn from(_: AllocError) -> Stop {
        Stop::OutOfMemory
    }
}

impl<T: Drop> From<AllocFailed<T>> for Stop {
    ghost from_gives = { λ _ stop. stop ≡ OutOfMemory };

    fn from(_: AllocFailed<T>) -> Stop {
        Stop::OutOfMemory
    }
}

impl From<Refusal> for Stop {
    ghost from_gives = { λ why stop. stop ≡ stop_of why };

    /// The stop of a refusal that ends a run: out of memory, or a fault at 0.
    fn from(why: Refusal) -> Stop {
        match why {
            Refusal::OutOfMemory => Stop::OutOfMemory,
            why => Stop::at(why, 0),
        }
    }
}
