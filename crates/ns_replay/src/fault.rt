//! Why a log can't be replayed beside a namespace alone.

ghost use Rattle.std.specs.Prelude.{◌≡◌};
ghost use Rattle.ns_replay.specs.declared.fault.ReplayFault.TheVariants.{Memory};

use crate::rerun::RerunFault;
use std::alloc::AllocError;
use thiserror::Error;

/// The first fault of a log. Places count entries from 0.
#[derive(Clone, Copy, Debug, PartialEq, Eq, Error)]
pub enum ReplayFault {
    /// The namespace does not have its pools and its quotas to itself before or after the entry, or the entry is an own put
    /// whose table is full on the whole server.
    #[error("a premise fails at place {0}")]
    Premise(u64),
    /// The server that holds the namespace alone does not make the step, or its reply is not the logged one.
    #[error("the namespace alone differs from the log at place {0}")]
    Differs(u64),
    /// The whole server does not make the step, or its reply is not the logged one.
    #[error("the log is no run at place {0}")]
    NotARun(u64),
    #[error("out of memory")]
    Memory,
}

impl From<AllocError> for ReplayFault {
    ghost from_gives = { λ _ e. e ≡ Memory };

    fn from(_error: AllocError) -> ReplayFault {
        ReplayFault::Memory
    }
}

impl From<RerunFault> for ReplayFault {
    ghost use Rattle.ns_replay.specs.Replay.{replay_fault};

    ghost from_gives = { λ fault result. result ≡ replay_fault fault };

    fn from(fault: RerunFault) -> ReplayFault {
        match fault {
            RerunFault::NotARun(place) => ReplayFault::NotARun(place),
            RerunFault::Memory => ReplayFault::Memory,
        }
    }
}
