//! All that a core holds: the access lists, the tables of the whole world, the index of live allocations, with the nodes that
//! snapshots share, and the index of the queues.

ghost use Rattle.std.specs.Prelude.{◌≡◌, IfOk, None, Ok, option_map};
ghost use Rattle.std.specs.FinMap.{get};
ghost use Rattle.ns_types.specs.Steps.{opening};
ghost use Rattle.ns_core.specs.Answering.{MakesPrepared};
ghost use Rattle.ns_core.specs.Held.{IsIndexed, IsKept};
ghost use Rattle.ns_core.specs.Viewed.{state_of, world_of};

use ns_acl::Acl;
use ns_change::Prepared;
use ns_live_index::Live;
use ns_queues::Turns;
use ns_settlement::conclude;
use ns_tables::Tables;
use ns_types::refusal::Refusal;
use ns_types::reply::{Content, Reply};
use ns_types::text::Text;
use std::alloc::{AllocError, Global};

pub struct Parts {
    pub acl: Acl,
    pub tables: Tables,
    pub live: Live,
    pub turns: Turns,
}

impl Drop for Parts {
    fn drop(self) {
        let Parts {
            acl: _acl,
            tables: _tables,
            live: _live,
            turns: _turns,
        } = self;
    }
}

impl Parts {
    /// The parts of a server that has just begun.
    pub fn opening(alloc: Global, bootstrap: &Text) -> Result<Parts, AllocError>
        ensures state { IfOk result (λ parts. state_of parts ≡ opening bootstrap.now) }
        ensures index { IfOk result IsIndexed }
    {
        Ok(Parts {
            acl: Acl::new(alloc, bootstrap)?,
            tables: ns_admin::opening(alloc)?,
            live: Live::new(alloc),
            turns: Turns::new(alloc),
        })
    }

    /// Settles the change, or leaves the parts as they are.
    pub fn make_prepared(&mut self, prepared: Prepared) -> Result<Content, Refusal>
        requires { IsKept self.old }
        ensures made { MakesPrepared (Ok prepared) self.old result self.new }
        ensures index { IsIndexed self.new }
    {
        let Prepared { content, change } = prepared;
        let concluded = conclude(&mut self.tables, &mut self.live, &mut self.turns, change);
        if let Err(refusal) = concluded {
            drop(content);
            return Err(refusal);
        }
        Ok(content)
    }

    /// Settles the change that was prepared for a step, or leaves the parts as they are.
    pub fn make(&mut self, prepared: Result<Prepared, Refusal>) -> Result<Content, Refusal>
        requires { IsKept self.old }
        ensures made { MakesPrepared prepared self.old result self.new }
        ensures index { IsIndexed self.new }
    {
        match prepared {
            Ok(prepared) => self.make_prepared(prepared),
            Err(refusal) => Err(refusal),
        }
    }

    /// The namespace's index, if the namespace exists.
    pub fn index(&self, namespace: &Text) -> Option<u64>
        ensures { result
            ≡ option_map (λ t. t.index) (get (world_of self.now).tenants namespace.now) }
    {
        match self.tables.tenants.get(namespace) {
            Some(tenant) => Some(tenant.index),
            None => None,
        }
    }
}

/// The reply to a step that shows no index.
pub fn plain(content: Content) -> Reply
    ensures { result ≡ record { index = None; content = content } }
{
    Reply {
        index: None,
        content,
    }
}
