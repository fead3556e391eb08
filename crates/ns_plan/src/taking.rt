//! Whether a node can do its part of a plan.

ghost use Rattle.std.specs.Prelude.{◌≡◌, ◌<◌, length, option_copied, true};
ghost use Rattle.std.specs.Option.{option_map_or};
ghost use Rattle.ns_types.specs.declared.resources.Resources.{Resources};
ghost use Rattle.ns_types.specs.Placing.Plan.{constraints_of};
ghost use Rattle.ns_types.specs.State.Resources.{is_within, limits_allow, plus};
ghost use Rattle.ns_types.specs.Working.Commit.{node_name};
ghost use Rattle.ns_types.specs.State.Resources.{amount_of};
ghost use Rattle.ns_plan.specs.Looks.{limits_of};
ghost use Rattle.ns_plan.specs.Reader.{accepts_left, takes_left};

use crate::leaving::Left;
use crate::view::View;
use ns_place::feasible;
use ns_types::job::{Constraint, Job};
use ns_types::node::Node;
use ns_types::resources::{Amount, Resources, add, amount_of, is_below, limits_allow_sum};
use ns_types::snapshot::Snapshot;
use ns_types::text::Text;

/// The name of the node at the place of the snapshot.
pub(crate) fn node_name(snapshot: &Snapshot, node: u64) -> &Text
    requires { node < length snapshot.now.nodes }
    ensures { result.now ≡ node_name snapshot.now node }
{
    &snapshot.nodes.as_slice()[node as usize].get().name
}

fn constraints_of(job: &Option<Job>) -> &[Constraint]
    ensures { result.now ≡ constraints_of job.now }
{
    match job {
        Some(job) => job.document.get().constraints.as_slice(),
        None => &[],
    }
}

fn has_room(load: Resources, size: Amount, node: &Node) -> bool
    ensures { (r : Resources) → size ≡ amount_of r → result ≡
        is_within (plus load r) node.now.offer.capacity }
{
    is_below(add(amount_of(load), size), node.offer.capacity)
}

/// Whether the quota, if there is one, allows that much more beside what is in use.
fn allows<V: View>(view: &V, quota: Option<&Text>, used: Resources, more: Amount) -> bool
    ensures { (r : Resources) → more ≡ amount_of r → result ≡ option_map_or
        (λ q. limits_allow (limits_of (V.world view.now) q) (plus used r))
        (option_copied quota.entry) true }
{
    match quota {
        Some(quota) => limits_allow_sum(view.limits(quota), add(amount_of(used), more)),
        None => true,
    }
}

fn accepts<V: View>(
    view: &V,
    snapshot: &Snapshot,
    quota: Option<&Text>,
    name: &Text,
    left: Left,
    size: Amount,
    placed: Amount,
    node: &Node,
) -> bool
    ensures { (r p : Resources) → size ≡ amount_of r → placed ≡ amount_of p → result ≡
        accepts_left snapshot.now (V.world view.now) (option_copied quota.entry) name.now left r p
        node.now }
{
    feasible(constraints_of(&snapshot.job), name, node)
        && has_room(left.load, size, node)
        && allows(view, quota, left.used, add(placed, size))
}

/// Whether the node can take placements of that size and the quota allows them beside what is placed, by what is left of both.
pub(crate) fn takes<V: View>(
    view: &V,
    snapshot: &Snapshot,
    quota: Option<&Text>,
    name: &Text,
    left: Left,
    size: Amount,
    placed: Amount,
) -> bool
    ensures { (r p : Resources) → size ≡ amount_of r → placed ≡ amount_of p → result ≡
        takes_left snapshot.now (V.world view.now) (option_copied quota.entry) name.now left r p }
{
    match view.node(&snapshot.pool, name) {
        Some(node) => accepts(view, snapshot, quota, name, left, size, placed, node),
        None => false,
    }
}
