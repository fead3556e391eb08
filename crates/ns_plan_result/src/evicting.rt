//! The victims of a plan.

ghost use Rattle.std.specs.Prelude.{◌≡◌, ◌++◌, IfOk, OnOk, filter, map};
ghost use Rattle.ns_types.specs.Working.Commit.{counts, evict_all, victims_in, victims_of};
ghost use Rattle.ns_types.specs.Working.Parts.{placed_on};
ghost use Rattle.ns_change.specs.Changed.{Does, view};

use crate::committed::Committed;
use crate::looking::node_name;
use ns_change::{Change, allocation, is_live_on, set_desired};
use ns_equality::same_number;
use ns_tables::Tables;
use ns_types::allocation::DesiredStatus;
use ns_types::key::EvalKey;
use ns_types::plan::{Eviction, Placement};
use ns_types::snapshot::Snapshot;
use ns_types::text::Text;
use std::alloc::AllocError;

/// Whether the eviction counts on the node, in the state that the change leaves.
#[tactic(auto, unfolding(ns_types::specs::Working::Commit::counts))]
fn counts(tables: &Tables, change: &Change, pool: &Text, node: &Text, eviction: &Eviction) -> bool
    ensures { result ≡ counts (view tables.now change.now) pool.now node.now eviction.now }
{
    match allocation(tables, change, &eviction.namespace, eviction.number) {
        Some(row) => is_live_on(pool, node, row) && same_number(row.priority, eviction.priority),
        None => false,
    }
}

fn add_counting<'a>(
    victims: &mut Vec<&'a Eviction>,
    tables: &Tables,
    change: &Change,
    pool: &Text,
    node: &Text,
    evictions: &'a [Eviction],
) -> Result<(), AllocError>
    ensures { OnOk result (map (λ e. e.now) victims.new.items ≡ map (λ e. e.now) victims.old.items
        ++ filter (counts (view tables.now change.now) pool.now node.now) evictions.now) }
{
    for eviction in evictions {
        if counts(tables, change, pool, node, eviction) {
            victims.push(eviction)?;
        }
    }
    Ok(())
}

fn add_victims<'a>(
    victims: &mut Vec<&'a Eviction>,
    tables: &Tables,
    change: &Change,
    snapshot: &Snapshot,
    placement: &'a Placement,
) -> Result<(), AllocError>
    ensures { OnOk result (map (λ e. e.now) victims.new.items ≡ map (λ e. e.now) victims.old.items
        ++ victims_in (view tables.now change.now) snapshot.now placement.now) }
{
    let nameless = Text::from_string(String::new(tables.alloc));
    let name = node_name(snapshot, placement.node, &nameless);
    let evictions = placement.evictions.as_slice();
    add_counting(victims, tables, change, &snapshot.pool, name, evictions)
}

/// The evictions of the nodes that do their part, if they count in the state that the change leaves. They are in the plan's
/// order, and two of them may name the same allocation. It costs a look-up for each eviction of these nodes.
pub(crate) fn victims<'a>(
    committed: &Committed<'a>,
    change: &Change,
) -> Result<Vec<&'a Eviction>, AllocError>
    ensures { let placements = committed.now.plan.now.placing.placements in
        let placed = placed_on committed.now.nodes.now placements in
        let w = view committed.now.tables.now change.now in
        IfOk result (λ victims. map (λ e. e.now) victims.items
        ≡ victims_of w committed.now.snapshot.now placed) }
{
    let mut victims = Vec::new(committed.tables.alloc);
    for placement in committed.plan.placing.placements.as_slice() {
        if committed.nodes.has(placement.node) {
            add_victims(
                &mut victims,
                committed.tables,
                change,
                committed.snapshot,
                placement,
            )?;
        }
    }
    Ok(victims)
}

/// Evicts the allocations that the evictions name and that exist. Each costs a look-up and the copy of a row.
pub(crate) fn evict(
    tables: &Tables,
    change: &mut Change,
    victims: &[&Eviction],
) -> Result<(), AllocError>
    ensures { Does result tables.now change.old change.new
        (λ w. evict_all w (map (λ e. e.now) victims.now)) }
{
    for victim in victims {
        let key = EvalKey::new(victim.namespace.clone()?, victim.number);
        set_desired(tables, change, &key, DesiredStatus::Evict)?;
    }
    Ok(())
}
