//! Why a worker's turn made no step.

ghost use Rattle.std.specs.Prelude.{◌≡◌};
ghost use Rattle.ns_workers.specs.declared.halt.Halt.TheVariants as Halt;
ghost use Rattle.ns_workers.specs.Halting.{halt_of};

use ns_types::refusal::Refusal;
use std::alloc::AllocError;

#[derive(Clone, Copy, PartialEq, Eq)]
pub enum Halt {
    /// Another thread was faster. The worker looks again at once, since the server has changed.
    Late,
    /// No memory was left. The worker gives its evaluation back, and goes on after a pause.
    Memory,
    /// The log is full. The worker ends, unless the log is rotated and the applier has not ended: then it goes on after a
    /// pause.
    Full,
    /// The worker gives its evaluation back if it may, and ends.
    Leaves,
    /// The worker ends.
    Ends,
}

impl From<AllocError> for Halt {
    ghost from_gives = { λ _ halt. halt ≡ Halt.Memory };

    fn from(_: AllocError) -> Halt {
        Halt::Memory
    }
}

impl From<Refusal> for Halt {
    ghost from_gives = { λ refusal halt. halt ≡ halt_of refusal };

    fn from(refusal: Refusal) -> Halt {
        match refusal {
            Refusal::NotEnabled => Halt::Late,
            Refusal::Memory => Halt::Memory,
            Refusal::LogFull => Halt::Full,
            Refusal::Foreign => Halt::Leaves,
            _ => Halt::Ends,
        }
    }
}
