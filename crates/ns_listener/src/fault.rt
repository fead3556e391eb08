//! Why a server ended badly.

ghost use Rattle.std.specs.Prelude.{◌≡◌};
ghost use Rattle.ns_http.specs.declared.engine.ConnFault.TheVariants as ConnFault;

use ns_http::ConnFault;
use ns_log::receipts::SettleFault;
use std::alloc::AllocError;

/// Why threads did not serve to the end.
#[derive(Clone, Copy, Debug, PartialEq, Eq)]
pub enum HostFault {
    /// No more connections could be accepted.
    Accept,
    Memory,
}

impl From<AllocError> for HostFault {
    ghost use Rattle.ns_listener.specs.declared.fault.HostFault.TheVariants as HostFault;

    ghost from_gives = { λ _ fault. fault ≡ HostFault.Memory };

    fn from(_: AllocError) -> HostFault {
        HostFault::Memory
    }
}

/// Why a server ended badly.
#[derive(Clone, Copy, Debug, PartialEq, Eq)]
pub enum ServeFault {
    /// A fault of the connections, of the writer, or want of memory.
    Conn(ConnFault),
    /// The log did not settle: its segments leave a gap, it differs from the receipts of the threads, or it is no run.
    Mismatch,
}

impl From<HostFault> for ServeFault {
    ghost use Rattle.ns_listener.specs.Faults.{host_fault};

    ghost from_gives = { λ fault result. result ≡ host_fault fault };

    fn from(fault: HostFault) -> ServeFault {
        match fault {
            HostFault::Accept => ServeFault::Conn(ConnFault::Read),
            HostFault::Memory => ServeFault::Conn(ConnFault::Memory),
        }
    }
}

impl From<SettleFault> for ServeFault {
    ghost use Rattle.ns_listener.specs.Faults.{settle_fault};

    ghost from_gives = { λ fault result. result ≡ settle_fault fault };

    fn from(fault: SettleFault) -> ServeFault {
        match fault {
            SettleFault::Mismatch { .. } => ServeFault::Mismatch,
            SettleFault::Memory => ServeFault::Conn(ConnFault::Memory),
        }
    }
}

impl From<ConnFault> for ServeFault {
    ghost use Rattle.std.specs.Prelude.{◌≡◌};
    ghost use Rattle.ns_listener.specs.declared.fault.ServeFault.TheVariants.{Conn};

    ghost from_gives = { λ fault result. result ≡ Conn fault };

    fn from(fault: ConnFault) -> ServeFault {
        ServeFault::Conn(fault)
    }
}

impl From<AllocError> for ServeFault {
    ghost use Rattle.std.specs.Prelude.{◌≡◌};
    ghost use Rattle.ns_http.specs.declared.engine.ConnFault.TheVariants as ConnFault;
    ghost use Rattle.ns_listener.specs.declared.fault.ServeFault.TheVariants.{Conn};

    ghost from_gives = { λ _ fault. fault ≡ Conn ConnFault.Memory };

    fn from(_: AllocError) -> ServeFault {
        ServeFault::Conn(ConnFault::Memory)
    }
}
