//! Why receipts and a log do not settle.

ghost use Rattle.std.specs.Prelude.{◌≡◌};
ghost use Rattle.ns_log.specs.declared.receipts.fault.SettleFault.TheVariants.{Memory};

use std::alloc::AllocError;
use thiserror::Error;

#[derive(Clone, Copy, Debug, PartialEq, Eq, Error)]
pub enum SettleFault {
    /// The first receipt that does not fit: its seat, and the place that it names. If each fits: the number of the seats, and
    /// the first place of the log that no receipt names.
    #[error("at seat {seat} the receipts and the log differ, at place {place}")]
    Mismatch { seat: u64, place: u64 },
    #[error("out of memory")]
    Memory,
}

impl From<AllocError> for SettleFault {
    ghost from_gives = { λ _ e. e ≡ Memory };

    fn from(_error: AllocError) -> SettleFault {
        SettleFault::Memory
    }
}
