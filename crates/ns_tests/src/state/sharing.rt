// Workers that take snapshots one after another share the nodes that did not change. A node that changed is made anew, and an
// older snapshot keeps it as it was. A job's document is kept once, for its row and for all snapshots.

ghost use Rattle.std.specs.Prelude.{IsTrue};
ghost use Rattle.ns_types.specs.declared.name.NameKind.TheVariants as NameKind;
ghost use Rattle.ns_types.specs.State.Name.{is_name};

use crate::state::jobs::registers_all;
use crate::state::made::text;
use crate::state::nodes::{eligibility, refusal, registration};
use crate::state::server::with_core;
use crate::state::workers::{look, take};
use ns_core::Core;
use ns_types::resources::Resources;
use ns_types::shared::Shared;
use ns_types::snapshot::Snapshot;
use ns_types::text::Text;
use std::alloc::Global;
use std::process::Abort;

/// How many owners the only node of the snapshot has, and whether it is eligible. None: there is not exactly one node.
fn only_node(seen: &Shared<Snapshot>) -> Option<(usize, bool)> {
    match seen.get().nodes.as_slice() {
        [node] => Some((node.owners(), node.get().row.eligible)),
        _ => None,
    }
}

/// The snapshot of a worker that dequeues the evaluation with this number.
fn sees(
    rt: &impl Abort,
    core: &mut Core,
    worker: u64,
    namespace: &Text,
    number: u64,
) -> Shared<Snapshot> {
    assert!(rt; take(core, worker, namespace, number) == Ok(Some(number)));
    look(core, worker, namespace).expect(rt, "a snapshot")
}

/// Whether the snapshot has the job, and this many owners share the job's document.
fn has_document_of(seen: &Shared<Snapshot>, owners: usize) -> bool {
    match &seen.get().job {
        Some(job) => job.document.owners() == owners,
        None => false,
    }
}

/// Whether the snapshot has only one node, with this many owners and this eligibility.
fn is_only(seen: &Shared<Snapshot>, owners: usize, eligible: bool) -> bool {
    only_node(seen) == Some((owners, eligible))
}

/// Makes the node ineligible. Returns whether that was done.
fn shuts(rt: &impl Abort, core: &mut Core, root: &Text, default: &Text, node: &Text) -> bool {
    let shut = eligibility(rt, node, false);
    let refusal = refusal(core, root, default, &shut);
    drop(shut);
    refusal.is_none()
}

/// Whether three workers that take snapshots one after another share the node until it is made ineligible.
fn looks_share(rt: &impl Abort, core: &mut Core, root: &Text, default: &Text, node: &Text) -> bool {
    let first = sees(rt, core, 0, default, 1);
    let mut right = is_only(&first, 2, true) & has_document_of(&first, 2);
    let second = sees(rt, core, 1, default, 2);
    right &= is_only(&first, 3, true) & is_only(&second, 3, true);
    right &= shuts(rt, core, root, default, node);
    let third = sees(rt, core, 2, default, 3);
    right & is_only(&first, 2, true) & is_only(&third, 2, false)
}

/// Whether a node and three jobs are registered. The evaluation of each job has the number of the job.
fn registers(
    rt: &impl Abort,
    alloc: Global,
    core: &mut Core,
    root: &Text,
    default: &Text,
    node: &Text,
) -> bool
    requires { IsTrue (is_name NameKind.Node node.now) }
{
    let capacity = Resources {
        cpu: 400,
        memory: 500,
        disk: 600,
    };
    let offer = registration(rt, alloc, node, capacity);
    let refusal = refusal(core, root, default, &offer);
    drop(offer);
    refusal.is_none() && registers_all(rt, alloc, core, root, default, 4)
}

fn shares(rt: &impl Abort, alloc: Global, core: &mut Core, root: &Text) -> bool {
    let default = text(rt, alloc, "default");
    let node = text(rt, alloc, "n1");
    registers(rt, alloc, core, root, &default, &node)
        && looks_share(rt, core, root, &default, &node)
}

#[test]
fn snapshots_share_what_did_not_change(rt: HostRuntime) {
    let alloc = rt.alloc();
    assert!(rt; with_core(&rt, alloc, shares));
}
