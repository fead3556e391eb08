// Which node is chosen: one with room, or one where allocations are preempted. What is expected follows from the rules alone.
//
// With room: of the nodes that the job may use and that have enough left of each resource, the one with the least CPU left
// afterwards, then the least memory, then the least disk, then the lesser name. Without room: the allocations on a node are
// preempted in their order, as few as make room. Of the nodes that can make room it is the one where the highest priority of
// those allocations is least, then the one with the fewest of them, then the lesser name.
ghost use Rattle.std.specs.Prelude.{◌≡◌};
ghost use Rattle.ns_types.specs.declared.resources.Resources.{Resources};

use crate::state::made::{each, text};
use ns_place::{Candidate, best_node};
use ns_preempt::Ranking;
use ns_types::resources::Resources;
use ns_types::shared::Shared;
use ns_types::snapshot::LiveAllocation;
use ns_types::text::Text;
use std::alloc::Global;
use std::process::Abort;

/// A node: its name, whether the job may use it, what is left of its CPU, memory and disk, and the priorities of its two
/// evictable allocations, in the order in which they are preempted.
type Site<'a> = (&'a str, bool, [u16; 3], [u64; 2]);

/// Two nodes, and the place of the one that has to be chosen.
type Case<'a> = (Site<'a>, Site<'a>, Option<usize>);

/// An allocation of this priority, which takes 100 of each resource.
fn allocation(rt: &impl Abort, alloc: Global, priority: u64) -> LiveAllocation
    ensures { let taken : Resources = record { cpu = 100; memory = 100; disk = 100 } in
        result.size ≡ taken }
{
    let namespace = Shared::new(alloc, text(rt, alloc, "ta"));
    LiveAllocation {
        namespace: namespace.expect(rt, "memory"),
        number: 1,
        priority,
        size: Resources {
            cpu: 100,
            memory: 100,
            disk: 100,
        },
    }
}

/// The node, with these two allocations on it.
fn node<'a>(
    rt: &impl Abort,
    alloc: Global,
    name: &'a Text,
    site: Site<'_>,
    first: &'a LiveAllocation,
    second: &'a LiveAllocation,
) -> Candidate<'a>
    requires first { let taken : Resources = record { cpu = 100; memory = 100; disk = 100 } in
        first.now.size ≡ taken }
    requires second { let taken : Resources = record { cpu = 100; memory = 100; disk = 100 } in
        second.now.size ≡ taken }
{
    let (_, is_feasible, [cpu, memory, disk], _) = site;
    let left = Resources {
        cpu: u64::from(cpu),
        memory: u64::from(memory),
        disk: u64::from(disk),
    };
    let evictable = Vec::from_array(alloc, [first, second]);
    Candidate::new(name, is_feasible, left, evictable.expect(rt, "memory"))
}

/// The place of the node that has room for 200 of each resource, and of the node that makes room for 250 of each by preemption.
fn chosen(
    rt: &impl Abort,
    alloc: Global,
    here: Site<'_>,
    there: Site<'_>,
) -> (Option<usize>, Option<usize>) {
    let ((name, _, _, [first, second]), (other, _, _, [third, fourth])) = (here, there);
    let (name, other) = (text(rt, alloc, name), text(rt, alloc, other));
    let first = allocation(rt, alloc, first);
    let second = allocation(rt, alloc, second);
    let third = allocation(rt, alloc, third);
    let fourth = allocation(rt, alloc, fourth);
    let nodes = [
        node(rt, alloc, &name, here, &first, &second),
        node(rt, alloc, &other, there, &third, &fourth),
    ];
    let mut ranking = Ranking::new(alloc);
    let giving_way = ranking.take_best(&nodes, each(250));
    (
        best_node(&nodes, each(200)),
        giving_way.expect(rt, "memory"),
    )
}

/// There is room on a node. No priority counts.
static WITH_ROOM: [Case; 9] = [
    (
        ("a", true, [400, 200, 200], [1, 1]),
        ("b", true, [300, 900, 900], [1, 1]),
        Some(1),
    ),
    (
        ("a", true, [300, 500, 200], [1, 1]),
        ("b", true, [300, 400, 900], [1, 1]),
        Some(1),
    ),
    (
        ("a", true, [300, 400, 900], [1, 1]),
        ("b", true, [300, 400, 800], [1, 1]),
        Some(1),
    ),
    (
        ("b", true, [300, 400, 500], [1, 1]),
        ("a", true, [300, 400, 500], [1, 1]),
        Some(1),
    ),
    (
        ("a", true, [300, 400, 500], [1, 1]),
        ("b", true, [300, 400, 500], [1, 1]),
        Some(0),
    ),
    (
        ("a", false, [200, 200, 200], [1, 1]),
        ("b", true, [900, 900, 900], [1, 1]),
        Some(1),
    ),
    (
        ("a", true, [200, 200, 200], [1, 1]),
        ("b", true, [900, 199, 900], [1, 1]),
        Some(0),
    ),
    (
        ("a", true, [199, 900, 900], [1, 1]),
        ("b", true, [900, 900, 199], [1, 1]),
        None,
    ),
    (
        ("a", false, [900, 900, 900], [1, 1]),
        ("b", true, [900, 199, 900], [1, 1]),
        None,
    ),
];

/// There is no room without preemption. A node with 50 left has to preempt both allocations, and one with 150 left only the
/// first.
static GIVING_WAY: [Case; 10] = [
    (
        ("a", true, [150, 150, 150], [30, 30]),
        ("b", true, [50, 50, 50], [10, 20]),
        Some(1),
    ),
    (
        ("a", true, [50, 50, 50], [10, 20]),
        ("b", true, [150, 150, 150], [20, 90]),
        Some(1),
    ),
    (
        ("b", true, [150, 150, 150], [20, 20]),
        ("a", true, [150, 150, 150], [20, 90]),
        Some(1),
    ),
    (
        ("a", true, [50, 50, 50], [20, 20]),
        ("b", true, [50, 50, 50], [10, 20]),
        Some(0),
    ),
    (
        ("a", true, [50, 150, 150], [10, 40]),
        ("b", true, [150, 150, 150], [30, 30]),
        Some(1),
    ),
    (
        ("a", true, [250, 250, 250], [40, 40]),
        ("b", true, [150, 150, 150], [10, 10]),
        Some(0),
    ),
    (
        ("a", true, [50, 49, 50], [10, 10]),
        ("b", true, [150, 150, 150], [90, 90]),
        Some(1),
    ),
    (
        ("a", false, [150, 150, 150], [10, 10]),
        ("b", true, [50, 50, 50], [40, 40]),
        Some(1),
    ),
    (
        ("a", true, [49, 250, 250], [10, 10]),
        ("b", true, [250, 250, 49], [10, 10]),
        None,
    ),
    (
        ("a", false, [50, 50, 50], [10, 10]),
        ("b", false, [900, 900, 900], [10, 10]),
        None,
    ),
];

#[test]
fn the_fullest_node_with_room_is_chosen(rt: HostRuntime) {
    for (number, case) in WITH_ROOM.iter().enumerate() {
        let (best, _) = chosen(&rt, rt.alloc(), case.0, case.1);
        assert!(rt; best == case.2, "case {number}");
    }
}

#[test]
fn the_lowest_and_fewest_give_way(rt: HostRuntime) {
    for (number, case) in GIVING_WAY.iter().enumerate() {
        let (_, best) = chosen(&rt, rt.alloc(), case.0, case.1);
        assert!(rt; best == case.2, "case {number}");
    }
}
