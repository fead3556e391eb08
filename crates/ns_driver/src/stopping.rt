//! Why a driven worker stops.

use ns_types::refusal::Refusal;
use std::alloc::AllocError;

#[derive(Clone, Copy, PartialEq, Eq)]
pub enum Stop {
    /// The worker is idle, and nothing is ready.
    Rests,
    /// The round has made as many steps as it may.
    Limit,
    /// The next step could not be made, or was refused. After `Memory` the worker goes on in the next round.
    Refused(Refusal),
}

impl From<Refusal> for Stop {
    ghost use Rattle.std.specs.Prelude.{◌≡◌};
    ghost use Rattle.ns_driver.specs.declared.stopping.Stop.TheVariants.{Refused};

    ghost from_gives = { λ refusal stop. stop ≡ Refused refusal };

    fn from(refusal: Refusal) -> Stop {
        Stop::Refused(refusal)
    }
}

impl From<AllocError> for Stop {
    ghost use Rattle.std.specs.Prelude.{◌≡◌};
    ghost use Rattle.ns_types.specs.declared.refusal.Refusal.TheVariants.{Memory};
    ghost use Rattle.ns_driver.specs.declared.stopping.Stop.TheVariants.{Refused};

    ghost from_gives = { λ _ stop. stop ≡ Refused Memory };

    fn from(_: AllocError) -> Stop {
        Stop::Refused(Refusal::Memory)
    }
}
