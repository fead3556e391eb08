//! The answer of an Apply, and the row of its worker afterwards.

ghost use Rattle.std.specs.Prelude.{◌≡◌, ◌+◌, ◌<◌, ◌^◌, ◌++◌, ◌||◌, not, false, IfOk, OnOk, fold, length, map};
ghost use Rattle.std.specs.FinMap.{empty, get};
ghost use Rattle.std.specs.List.{list_any};
ghost use Rattle.std.specs.Option.{option_map_or};
ghost use Rattle.ns_types.specs.State.Lists.{is_empty};
ghost use Rattle.ns_types.specs.State.Names.{has_number};
ghost use Rattle.ns_types.specs.State.Rows.{is_live};
ghost use Rattle.ns_tables.specs.World.{tenant_of};
ghost use Rattle.ns_types.specs.declared.worker.Phase.TheVariants as Phase;
ghost use Rattle.ns_types.specs.Working.Commit.{Applied, live_stops, names_in, node_name, numbers_after, tries_after};
ghost use Rattle.ns_types.specs.Working.Work.{tries_for};
ghost use Rattle.ns_plan_result.specs.Answering.{IsEffect, marked, with_name};
ghost use Rattle.ns_types.specs.Working.Parts.{placed_on};
ghost use Rattle.ns_change.specs.Changed.{Does};

use crate::committed::Committed;
use crate::looking::node_name;
use crate::stopping::is_live;
use keyed::{NameSlot, NameTable};
use ns_change::{Change, put_row, take_plan};
use ns_place::marking::Places;
use ns_tables::{Tables, TenantRows};
use ns_types::evaluation::Evaluation;
use ns_types::job::JobKind;
use ns_types::key::EvalKey;
use ns_types::plan::Placement;
use ns_types::rows::Rows;
use ns_types::snapshot::Snapshot;
use ns_types::text::Text;
use ns_types::worker::Worker;
use std::alloc::{AllocError, Global};

// ---- the answer

/// The numbers of the new allocations, in the plan's order. `last` is the namespace's last number before.
pub(crate) fn numbers_made(committed: &Committed, last: u64) -> Result<Rows<u64>, AllocError>
    requires { let placements = committed.now.plan.now.placing.placements in
        last + length (placed_on committed.now.nodes.now placements) < 2 ^ 64 }
    ensures { let placements = committed.now.plan.now.placing.placements in
        let placed = placed_on committed.now.nodes.now placements in
        IfOk result (λ numbers. numbers ≡ numbers_after last placed) }
{
    let mut numbers = Rows::new(committed.tables.alloc);
    let mut number = last;
    for placement in committed.plan.placing.placements.as_slice() {
        if committed.nodes.has(placement.node) {
            number += 1;
            numbers.push(number)?;
        }
    }
    Ok(numbers)
}

fn add_name(table: &mut NameTable<()>, name: &Text) -> Result<(), AllocError>
    ensures { OnOk result (table.new ≡ with_name table.old name.now) }
{
    table.reserve(name)?;
    table.set(name, ());
    Ok(())
}

fn table_of_names(
    alloc: Global,
    snapshot: &Snapshot,
    places: &[u16],
) -> Result<NameTable<()>, AllocError>
    ensures { IfOk result (λ table. table
        ≡ fold (λ m k. with_name m (node_name snapshot.now k)) empty places.now) }
{
    let nameless = Text::from_string(String::new(alloc));
    let mut table = NameTable::new(alloc);
    for place in places {
        add_name(
            &mut table,
            node_name(snapshot, u64::from(*place), &nameless),
        )?;
    }
    Ok(table)
}

fn keys_of(alloc: Global, slots: &[NameSlot<()>]) -> Result<Rows<Text>, AllocError>
    ensures { IfOk result (λ names. names ≡ map (λ e. e.0) slots.now) }
{
    let mut names = Rows::new(alloc);
    for slot in slots {
        names.push(slot.0.clone()?)?;
    }
    Ok(names)
}

/// The names of the nodes at those places of the snapshot, in their order, each once.
pub(crate) fn names_in(
    alloc: Global,
    snapshot: &Snapshot,
    places: &[u16],
) -> Result<Rows<Text>, AllocError>
    ensures { IfOk result (λ names. names ≡ names_in snapshot.now places.now) }
{
    let table = table_of_names(alloc, snapshot, places)?;
    keys_of(alloc, table.as_slice())
}

// ---- the worker

/// Whether something of a plan was done, and whether something was not.
#[derive(Clone, Copy)]
pub(crate) struct Effect {
    pub(crate) has_committed: bool,
    pub(crate) has_dropped: bool,
}

/// A worker whose plan is applied, with its number and its evaluation.
#[derive(Clone, Copy)]
pub struct Turn<'a> {
    pub number: u64,
    pub worker: &'a Worker,
    pub evaluation: &'a Evaluation,
}

fn any_live(tenant: &TenantRows, stops: &[u64]) -> bool
    ensures { let rows = (tenant_of tenant.now).allocations in
        result ≡ list_any (λ n. option_map_or is_live (get rows n) false) stops.now }
{
    stops.iter().any(|number| is_live(tenant, *number))
}

fn any_placed(nodes: &Places<'_>, placements: &[Placement]) -> bool
    ensures { result ≡ list_any (λ p. has_number nodes.now p.node) placements.now }
{
    placements.iter().any(|placement| nodes.has(placement.node))
}

/// The effect of a plan that stands and of which these nodes are dropped.
pub(crate) fn effect_of(committed: &Committed, tenant: &TenantRows, dropped: &[u16]) -> Effect
    ensures { let p = committed.now.plan.now in
        let placed = placed_on committed.now.nodes.now p.placing.placements in
        let stops = live_stops (tenant_of tenant.now) p.stops in
        result ≡ record {
          has_committed = not (is_empty stops) || not (is_empty placed);
          has_dropped = not (is_empty dropped.now);
        } }
{
    let plan = committed.plan;
    Effect {
        has_committed: any_live(tenant, plan.stops.as_slice())
            || any_placed(committed.nodes, plan.placing.placements.as_slice()),
        has_dropped: !dropped.is_empty(),
    }
}

fn tries_for(kind: JobKind) -> u64
    ensures { result ≡ tries_for kind }
{
    match kind {
        JobKind::Service => 5,
        JobKind::Batch => 2,
    }
}

/// The worker's tries afterwards. If something was done, they are reset; if nothing was and something was dropped, one is used.
fn tries_after(turn: &Turn, effect: Effect) -> u64
    ensures { (a : Applied) → IsEffect a effect →
        result ≡ tries_after a turn.now.worker.now turn.now.evaluation.now }
{
    if effect.has_committed {
        tries_for(turn.evaluation.kind)
    } else if effect.has_dropped {
        turn.worker.tries().saturating_sub(1)
    } else {
        turn.worker.tries()
    }
}

/// Marks the worker's plan as applied: the worker's row gets its new phase and the tries that remain, and the plan leaves the
/// list of plans.
pub(crate) fn mark(
    tables: &Tables,
    change: &mut Change,
    namespace: &Text,
    turn: &Turn,
    effect: Effect,
) -> Result<(), AllocError>
    requires { turn.now.worker.now.phase ≡ Phase.Submitted }
    ensures { (a : Applied) → IsEffect a effect → Does result tables.now change.old change.new
        (marked turn.now.number namespace.now turn.now.worker.now turn.now.evaluation.now a) }
{
    let row = turn
        .worker
        .applied(effect.has_dropped, tries_after(turn, effect))?;
    put_row(tables, change, namespace, turn.number, row)?;
    let key = EvalKey::new(namespace.clone()?, turn.worker.evaluation());
    take_plan(tables.alloc, change, &key)
}
