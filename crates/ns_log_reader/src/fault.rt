//! The faults of texts that are not logs, and of their lines.

ghost use Rattle.std.specs.Prelude.{◌≡◌};
ghost use Rattle.ns_log_reader.specs.declared.fault.LineFault.TheVariants as LineFault;
ghost use Rattle.ns_log_reader.specs.declared.fault.LogFault.TheVariants as LogFault;
ghost use Rattle.ns_log_reader.specs.Reading.{accepted, fault_of};

use ns_types::refusal::Refusal;
use std::alloc::AllocError;
use thiserror::Error;

/// Why a text is not a log.
#[derive(Clone, Copy, Debug, PartialEq, Eq, Error)]
pub enum LogFault {
    /// The first bad line, counted from 1.
    #[error("line {0} is bad")]
    Line(u64),
    #[error("out of memory")]
    Memory,
}

impl From<AllocError> for LogFault {
    ghost from_gives = { λ _ e. e ≡ LogFault.Memory };

    fn from(_error: AllocError) -> LogFault {
        LogFault::Memory
    }
}

/// Why a line was not read.
#[derive(Clone, Copy, Debug, PartialEq, Eq)]
pub enum LineFault {
    Bad,
    Memory,
}

impl From<AllocError> for LineFault {
    ghost from_gives = { λ _ e. e ≡ LineFault.Memory };

    fn from(_error: AllocError) -> LineFault {
        LineFault::Memory
    }
}

fn fault_of(refusal: Refusal) -> LineFault
    ensures { result ≡ fault_of refusal }
{
    match refusal {
        Refusal::Memory => LineFault::Memory,
        _ => LineFault::Bad,
    }
}

/// The document that was read, or the fault of its line. A refused document makes the line bad.
pub fn accepted<T>(read: Result<T, Refusal>) -> Result<T, LineFault>
    ensures { result ≡ accepted read }
{
    match read {
        Ok(value) => Ok(value),
        Err(refusal) => Err(fault_of(refusal)),
    }
}
