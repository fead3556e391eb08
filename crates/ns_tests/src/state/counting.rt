// Which stops of a plan count in the present state, and which allocations the committed nodes evict. A stop counts if its
// allocation is live. An eviction counts if, after the stops that count, its allocation is still live on that node with that
// priority.
ghost use Rattle.std.specs.Prelude.{◌≡◌, ◌<◌, length};
ghost use Rattle.std.specs.List.{All};

use crate::state::made::{each, only, text};
use crate::state::missing::only_row;
use crate::state::plans::{allocation, looked};
use keyed::{NumberSlot, NumberTable, OwnerTable};
use ns_admin::opening;
use ns_applier::view::Present;
use ns_copies::live_of;
use ns_place::marking::Places;
use ns_plan::{live_stops, victims};
use ns_tables::{AllocationTable, Tables};
use ns_types::allocation::{Allocation, ClientStatus};
use ns_types::live_rows::LiveRows;
use ns_types::node::{Node, NodeStatus, Offer};
use ns_types::plan::{Eviction, Placement, Placing, Plan};
use ns_types::rows::Rows;
use ns_types::shared::Shared;
use ns_types::snapshot::{PoolNode, Snapshot};
use std::alloc::Global;
use std::process::Abort;

// ---- the present state

fn slot(rt: &impl Abort, alloc: Global, number: u64, client: ClientStatus) -> NumberSlot<Allocation>
    ensures { result.0 ≡ number }
{
    let mut row = allocation(rt, alloc);
    row.client = client;
    (number, Some(row))
}

/// The allocations 2, 3 and 4 are live, and 5 has ended.
fn rows(rt: &impl Abort, alloc: Global) -> NumberTable<Allocation> {
    let slots = [
        slot(rt, alloc, 2, ClientStatus::Pending),
        slot(rt, alloc, 3, ClientStatus::Running),
        slot(rt, alloc, 4, ClientStatus::Running),
        slot(rt, alloc, 5, ClientStatus::Complete),
    ];
    NumberTable::from_slots(Vec::from_array(alloc, slots).expect(rt, "memory"))
}

fn fill(rt: &impl Abort, table: &mut AllocationTable, rows: NumberTable<Allocation>) {
    table.reserve_all(&rows).expect(rt, "memory");
    table.apply(rows);
}

/// The only namespace is `ta`, which has these allocations.
fn tables(rt: &impl Abort, alloc: Global) -> Tables {
    let mut tables = opening(alloc).expect(rt, "memory");
    let tenant = tables.tenants.take(&text(rt, alloc, "default"));
    let mut tenant = tenant.expect(rt, "the first namespace");
    fill(rt, &mut tenant.allocations, rows(rt, alloc));
    tables.tenants = OwnerTable::from_table(only_row(rt, alloc, "ta", tenant));
    tables
}

// ---- the plan

fn node(rt: &impl Abort, alloc: Global) -> PoolNode {
    let offer = Offer {
        class: text(rt, alloc, "linux"),
        attributes: Rows::new(alloc),
        capacity: each(1000),
    };
    let row = Node {
        offer,
        status: NodeStatus::Ready,
        eligible: true,
        places: 5,
    };
    PoolNode {
        name: text(rt, alloc, "n"),
        row,
        live: LiveRows::new(alloc),
    }
}

/// The snapshot to plan from, with one node.
fn kept(rt: &impl Abort, alloc: Global) -> Snapshot
    ensures { length result.nodes ≡ 1 }
{
    let node = Shared::new(alloc, node(rt, alloc)).expect(rt, "memory");
    let mut kept = looked(rt, alloc, &[]);
    kept.pool = text(rt, alloc, "p");
    kept.nodes = only(rt, alloc, node);
    kept
}

/// Numbers and priorities of the allocations of `ta` to evict.
const EVICTIONS: [(u64, u64); 6] = [(4, 50), (5, 50), (3, 50), (2, 40), (2, 50), (3, 50)];

fn evictions(rt: &impl Abort, alloc: Global) -> Rows<Eviction> {
    let mut rows = Rows::new(alloc);
    for (number, priority) in &EVICTIONS {
        let namespace = text(rt, alloc, "ta");
        let (number, priority) = (*number, *priority);
        let eviction = Eviction {
            namespace,
            number,
            priority,
        };
        rows.push(eviction).expect(rt, "memory");
    }
    rows
}

/// The plan stops allocation 4, and places one on the node, which evicts the allocations of `EVICTIONS`.
fn plan(rt: &impl Abort, alloc: Global) -> Plan
    ensures { All (λ placement. placement.node < 1) result.placing.placements }
{
    let placement = Placement {
        group: 0,
        node: 0,
        size: each(300),
        evictions: evictions(rt, alloc),
    };
    let placing = Placing {
        placements: only(rt, alloc, placement),
        quota_limited: false,
        class_limited: false,
    };
    Plan {
        stops: Rows::from_slice(alloc, &[4]).expect(rt, "memory"),
        placing,
    }
}

fn are_third_and_second(victims: &[&Eviction]) -> bool {
    match victims {
        [first, second] => first.number == 3 && second.number == 2,
        _ => false,
    }
}

/// Whether allocations 3 and 2 are evicted if the node is committed, and none otherwise.
fn evicts(rt: &impl Abort, alloc: Global, present: &Present<'_>) -> bool {
    let kept = kept(rt, alloc);
    let plan = plan(rt, alloc);
    let evicted = victims(alloc, present, &kept, &plan, &Places::new(&[0])).expect(rt, "memory");
    let nobody = victims(alloc, present, &kept, &plan, &Places::new(&[])).expect(rt, "memory");
    are_third_and_second(evicted.as_slice()) && nobody.as_slice().is_empty()
}

// ---- tests

#[test]
fn stops_of_live_allocations_count(rt: HostRuntime) {
    let alloc = rt.alloc();
    let tables = tables(&rt, alloc);
    let live = live_of(alloc, &tables).expect(&rt, "memory");
    let present = Present::new(&tables, &live);
    let namespace = text(&rt, alloc, "ta");
    let stops = live_stops(alloc, &present, &namespace, &[8, 4, 5, 3]).expect(&rt, "memory");
    assert!(rt; stops.as_slice() == [4, 3].as_slice());
}

#[test]
fn live_allocations_are_evicted_once(rt: HostRuntime) {
    let alloc = rt.alloc();
    let tables = tables(&rt, alloc);
    let live = live_of(alloc, &tables).expect(&rt, "memory");
    let present = Present::new(&tables, &live);
    assert!(rt; evicts(&rt, alloc, &present));
}

#[test]
fn rows_of_a_slice(rt: HostRuntime) {
    let rows = Rows::from_slice(rt.alloc(), &[3, 1, 3]).expect(&rt, "memory");
    assert!(rt; rows.as_slice() == [3, 1, 3].as_slice());
}
