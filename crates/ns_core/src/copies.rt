//! Copies of a server: with all that it holds, or with what one namespace has.

ghost use Rattle.std.specs.Prelude.{◌≡◌, IfOk, true};
ghost use Rattle.ns_types.specs.Access.Sharing.{is_apart};
ghost use Rattle.ns_types.specs.Isolation.{alone, part_of};
ghost use Rattle.ns_core.specs.Held.{IsKept};
ghost use Rattle.ns_core.specs.Viewed.{state_of, world_of};

use crate::parts::Parts;
use crate::server::Core;
use ns_copies::live_of;
use ns_queues::Turns;
use ns_types::text::Text;
use std::alloc::{AllocError, Global};

impl Parts {
    /// A copy of the parts. Want of memory is the only error.
    fn copy(&self, alloc: Global) -> Result<Parts, AllocError>
        requires { IsKept self.now }
        ensures same { IfOk result (λ copy. state_of copy ≡ state_of self.now) }
        ensures kept { IfOk result IsKept }
    {
        let acl = self.acl.copy(alloc)?;
        let tables = ns_copies::copy(alloc, &self.tables)?;
        let live = live_of(alloc, &tables)?;
        let turns = Turns::unknown(alloc);
        Ok(Parts {
            acl,
            tables,
            live,
            turns,
        })
    }

    /// The parts of a server that holds that namespace alone, with these pools and these quotas. Want of memory is the only
    /// error.
    fn alone(
        &self,
        alloc: Global,
        namespace: &Text,
        pools: &[Text],
        quotas: &[Text],
    ) -> Result<Parts, AllocError>
        requires kept { IsKept self.now }
        requires apart { is_apart (world_of self.now) namespace.now pools.now quotas.now ≡ true }
        ensures part { let part = part_of namespace.now pools.now quotas.now in
            IfOk result (λ copy. state_of copy ≡ alone part (state_of self.now)) }
        ensures kept { IfOk result IsKept }
    {
        let acl = self.acl.copy(alloc)?;
        let tables = ns_copies::alone(alloc, &self.tables, namespace, pools, quotas)?;
        let live = live_of(alloc, &tables)?;
        let turns = Turns::unknown(alloc);
        Ok(Parts {
            acl,
            tables,
            live,
            turns,
        })
    }
}

impl Core {
    /// A second server in the same state. Want of memory is the only error.
    pub fn copy(&self, alloc: Global) -> Result<Core, AllocError>
        ensures { IfOk result (λ copy. copy ≡ self.now) }
    {
        let parts = self.parts.copy(alloc)?;
        Ok(Core { parts })
    }

    /// A server that holds that namespace alone, with these pools and these quotas: their rows, its entries in the lists, and
    /// all access lists. Want of memory is the only error.
    pub fn alone(
        &self,
        alloc: Global,
        namespace: &Text,
        pools: &[Text],
        quotas: &[Text],
    ) -> Result<Core, AllocError>
        requires { is_apart self.now.world namespace.now pools.now quotas.now ≡ true }
        ensures { let part = part_of namespace.now pools.now quotas.now in
            IfOk result (λ core. core ≡ alone part self.now) }
    {
        let parts = self.parts.alone(alloc, namespace, pools, quotas)?;
        Ok(Core { parts })
    }
}
