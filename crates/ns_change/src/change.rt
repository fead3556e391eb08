//! Changed rows, by namespace or pool. A slot with a row holds the row's new value; a vacant slot removes the row.

ghost use Rattle.std.specs.Prelude.{◌≡◌, []};
ghost use Rattle.ns_change.specs.Changed.{view};
ghost use Rattle.ns_tables.specs.World.{world_of};
ghost use Rattle.ns_tables.specs.declared.tables.Tables.{Tables};

use keyed::{NameTable, NumberTable};
use ns_types::allocation::Allocation;
use ns_types::evaluation::Evaluation;
use ns_types::event::Event;
use ns_types::job::Job;
use ns_types::key::EvalKey;
use ns_types::node::{Class, Node};
use ns_types::records::Quota;
use ns_types::reply::Content;
use ns_types::rows::Rows;
use ns_types::text::Text;
use ns_types::worker::Worker;
use std::alloc::Global;

/// What a step changes of one namespace. The numbers are those after the step.
#[derive(Drop)]
pub struct TenantChange {
    pub evaluation_number: u64,
    pub allocation_number: u64,
    pub jobs: NameTable<Job>,
    pub evaluations: NumberTable<Evaluation>,
    pub allocations: NumberTable<Allocation>,
    pub workers: NumberTable<Worker>,
}

/// What a step changes of one pool.
#[derive(Drop)]
pub struct PoolChange {
    pub nodes: NameTable<Node>,
}

/// What leaves a list, and what is appended to it.
#[derive(Drop)]
pub struct ListChange {
    pub taken: Rows<EvalKey>,
    pub added: Rows<EvalKey>,
}

/// All that a step itself changes, before the step ends. A vacant slot of a namespace or pool changes nothing, and neither
/// does the record of a quota that does not exist.
#[derive(Drop)]
pub struct Change {
    pub tenants: NameTable<TenantChange>,
    pub pools: NameTable<PoolChange>,
    /// New records of quotas, which replace the old ones.
    pub quotas: NameTable<Quota>,
    pub ready: ListChange,
    pub plans: ListChange,
    pub blocked: ListChange,
}

impl ListChange {
    fn new(alloc: Global) -> ListChange
        ensures { result ≡ record { taken = []; added = [] } }
    {
        ListChange {
            taken: Rows::new(alloc),
            added: Rows::new(alloc),
        }
    }
}

impl Change {
    /// An empty change.
    pub fn new(alloc: Global) -> Change
        ensures { (tables : Tables) → view tables result ≡ world_of tables }
    {
        Change {
            tenants: NameTable::new(alloc),
            pools: NameTable::new(alloc),
            quotas: NameTable::new(alloc),
            ready: ListChange::new(alloc),
            plans: ListChange::new(alloc),
            blocked: ListChange::new(alloc),
        }
    }
}

/// The content of a command's reply, and the change that the command would make.
#[derive(Drop)]
pub struct Prepared {
    pub content: Content,
    pub change: Change,
}

/// What a step changes of one namespace. The changed rows have their indexes.
#[derive(Drop)]
pub struct SettledTenant {
    pub rows: TenantChange,
    /// The events of the changed rows. None: no row that replies show has changed, so the namespace's index stays.
    pub events: Option<Rows<Event>>,
}

/// All that a step changes, with what the end of the step adds.
#[derive(Drop)]
pub struct Settled {
    pub tenants: NameTable<SettledTenant>,
    pub pools: NameTable<PoolChange>,
    /// New records of quotas, which replace the old ones.
    pub quotas: NameTable<Quota>,
    pub ready: ListChange,
    pub plans: ListChange,
    pub blocked: ListChange,
    /// Released classes, each with its pool, in any order and perhaps twice.
    pub rooms: Rows<(Text, Class)>,
    /// Released quotas, in any order and perhaps twice: those whose limits change, and those of namespaces in which a live
    /// allocation ended.
    pub released: Rows<Text>,
}
