//! The present state as one value, which contracts see as its world.

ghost use Rattle.std.specs.Prelude.{◌≡◌};
ghost use Rattle.ns_live_index.specs.Index.{IsRight};
ghost use Rattle.ns_tables.specs.World.{world_of};

use crate::view::looking;
use ns_live_index::Live;
use ns_plan::View;
use ns_tables::Tables;
use ns_types::allocation::Allocation;
use ns_types::job::Job;
use ns_types::node::Node;
use ns_types::resources::{Limits, Resources};
use ns_types::text::Text;
use std::marker::Model;

/// The tables of the world with an index of live allocations that is right for them. Contracts see the world.
///
/// Each look-up costs what the tables' look-ups do: the index keeps the load of each node, and what each quota has in use.
#[derive(Drop)]
pub struct Present<'a> {
    tables: &'a Tables,
    live: &'a Live,
}

impl<'a> Model for Present<'a> {
    ghost use Rattle.std.specs.Coded.{codes};
    ghost use Rattle.std.specs.FinMap.{code};
    ghost use Rattle.ns_live_index.specs.Index.{IsRight};
    ghost use Rattle.ns_types.specs.State.Rows.{World};
    ghost use Rattle.ns_tables.specs.World.{world_of};

    ghost Value = { World };

    ghost coded = { Prim.hlevel (codes, code) };

    ghost view = { λ p. world_of p.tables.now };

    ghost invariant = { λ p. IsRight (world_of p.tables.now) p.live.now };
}

impl<'a> Present<'a> {
    /// Joins the tables with an index that is right for them. It takes no memory.
    pub fn new(tables: &'a Tables, live: &'a Live) -> Present<'a>
        requires { IsRight (world_of tables.now) live.now }
        ensures { result ≡ world_of tables.now }
    {
        Present { tables, live }
    }
}

impl<'a> View for Present<'a> {
    ghost world = { λ w. w };

    fn allocation(&self, namespace: &Text, number: u64) -> Option<&Allocation> {
        self.tables.allocation(namespace, number)
    }

    fn node(&self, pool: &Text, name: &Text) -> Option<&Node> {
        self.tables.node(pool, name)
    }

    fn job(&self, namespace: &Text, id: &Text) -> Option<&Job> {
        looking::job(self.tables, namespace, id)
    }

    fn load(&self, pool: &Text, node: &Text) -> Resources {
        self.live.load(pool, node)
    }

    fn quota(&self, namespace: &Text) -> Option<&Text> {
        self.tables.quota_named(namespace)
    }

    fn limits(&self, quota: &Text) -> Limits {
        looking::limits(self.tables, quota)
    }

    fn used(&self, quota: &Text) -> Resources {
        self.live.quota_use(quota)
    }
}
