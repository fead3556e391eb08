//! The server from which a log is replayed.

ghost use Rattle.std.specs.Prelude.{IfErr, IfOk};
ghost use Rattle.ns_types.specs.Steps.{opening};
ghost use Rattle.ns_json.specs.Replies.{IsKept};
ghost use Rattle.ns_pipe.specs.Outcome.{IsBaseFault};

use ns_core::Core;
use ns_log::Entry;
use ns_replay::ReplayFault;
use ns_replay::rerun::rerun;
use ns_types::name::Secret;
use std::alloc::Global;

/// A new server with that bootstrap secret, which has made the steps of the entries. Each answer
/// must be the logged one: the first that is not is the fault. Want of memory is the only other
/// error.
pub fn base_of(alloc: Global, secret: &Secret, entries: &[Entry]) -> Result<Core, ReplayFault>
    ensures base { IfOk result (λ base. IsKept (opening secret.now) entries.now base) }
    ensures fault { IfErr result (IsBaseFault (opening secret.now) entries.now) }
{
    let mut base = Core::new(alloc, secret)?;
    match rerun(alloc, &mut base, entries) {
        Ok(()) => Ok(base),
        Err(fault) => {
            drop(base);
            Err(fault.into())
        }
    }
}
