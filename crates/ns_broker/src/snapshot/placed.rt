//! The live allocations of a node, in the order in which they were placed. Those that the node had when it was last shown are
//! copied from there, where they are still the same; the others come behind them.

ghost use Rattle.std.specs.Prelude.{◌≡◌, ◌≤◌, ◌+◌, ◌++◌, [], IfOk, OnOk, fold, length, map, option_copied, take};
ghost use Rattle.std.specs.FinMap.{empty, entries};
ghost use Rattle.keyed.specs.Table.{row_list, rows};
ghost use Rattle.ns_types.specs.Working.Snapshot.{seen_live};
ghost use Rattle.ns_live_index.specs.Index.{IsRight};
ghost use Rattle.ns_live_index.specs.Until.{last_number};
ghost use Rattle.ns_broker.specs.Seen.{AreSeenOn, FitsKeys, FollowsBase, add_namespace, add_number, add_past, add_seen};
ghost use Rattle.ns_broker.specs.Seen.{base_last, base_rows, key_count, keys_among, past_among, past_at, past_in, past_of};
ghost use Rattle.ns_broker.specs.Seen.{placed_after, seen_row};
ghost use Rattle.ns_tables.specs.World.{world_of};

use keyed::{KeySet, NameSlot, NumberSlot, NumberTable};
use ns_live_index::{Live, SeenNode, is_past};
use ns_tables::Tables;
use ns_types::allocation::Allocation;
use ns_types::live_rows::LiveRows;
use ns_types::node::Node;
use ns_types::shared::Shared;
use ns_types::snapshot::{LiveAllocation, PoolNode};
use ns_types::text::Text;
use std::alloc::{AllocError, Global};

/// Live allocations by their place on the node.
type ByPlace = NumberTable<LiveAllocation>;

/// The live allocations of a node, with the place of the last, if there is one.
#[derive(Drop)]
pub(crate) struct SeenRows {
    rows: LiveRows,
    last: Option<u64>,
}

impl SeenRows {
    /// The node with these live allocations.
    pub(crate) fn into_node(
        self,
        alloc: Global,
        name: Text,
        row: Node,
    ) -> Result<SeenNode, AllocError>
        ensures { IfOk result (λ seen. seen ≡ record {
          node = record { name = name; row = row; live = self.rows };
          last = self.last;
        }) }
    {
        let SeenRows { rows, last } = self;
        let node = PoolNode {
            name,
            row,
            live: rows,
        };
        let node = Shared::new(alloc, node)?;
        Ok(SeenNode { node, last })
    }
}

fn seen_live(
    namespace: &Shared<Text>,
    number: u64,
    row: &Allocation,
) -> Result<LiveAllocation, AllocError>
    ensures { IfOk result (λ shown. shown ≡ seen_live (namespace.now, (number, row.now))) }
{
    Ok(LiveAllocation {
        namespace: namespace.share()?,
        number,
        priority: row.priority,
        size: row.size,
    })
}

/// Adds a live allocation at its place, unless there is one at that place already.
fn add_seen(
    seen: &mut ByPlace,
    namespace: &Shared<Text>,
    number: u64,
    row: &Allocation,
) -> Result<(), AllocError>
    ensures { OnOk result (rows seen.new
        ≡ add_seen (rows seen.old) (seen_row namespace.now number row.now)) }
{
    seen.add(row.place, seen_live(namespace, number, row)?)
}

/// Adds a live allocation only if its place is after the last one.
fn add_past(
    seen: &mut ByPlace,
    last: Option<u64>,
    namespace: &Shared<Text>,
    number: u64,
    row: &Allocation,
) -> Result<(), AllocError>
    ensures { OnOk result (rows seen.new
        ≡ add_past last (rows seen.old) (seen_row namespace.now number row.now)) }
{
    if is_past(last, row.place) {
        add_seen(seen, namespace, number, row)
    } else {
        Ok(())
    }
}

fn add_number(
    seen: &mut ByPlace,
    last: Option<u64>,
    namespace: &Shared<Text>,
    allocations: &NumberTable<Allocation>,
    slot: &NumberSlot<()>,
) -> Result<(), AllocError>
    ensures { OnOk result (rows seen.new
        ≡ add_number last namespace.now allocations.now (rows seen.old) slot.now) }
{
    if slot.1.is_none() {
        return Ok(());
    }
    match allocations.get(slot.0) {
        Some(row) => add_past(seen, last, namespace, slot.0, row),
        None => Ok(()),
    }
}

fn add_numbers(
    seen: &mut ByPlace,
    last: Option<u64>,
    namespace: &Shared<Text>,
    allocations: &NumberTable<Allocation>,
    slots: &[NumberSlot<()>],
) -> Result<(), AllocError>
    ensures { OnOk result (rows seen.new
        ≡ fold (add_number last namespace.now allocations.now) (rows seen.old) slots.now) }
{
    for slot in slots {
        add_number(seen, last, namespace, allocations, slot)?;
    }
    Ok(())
}

/// One, if an allocation at the number is placed after the last one, and otherwise zero.
fn past_at(last: Option<u64>, allocations: &NumberTable<Allocation>, slot: &NumberSlot<()>) -> usize
    ensures { result ≡ past_at last allocations.now slot.now }
{
    if slot.1.is_none() {
        return 0;
    }
    match allocations.get(slot.0) {
        Some(row) => { if is_past(last, row.place) { 1 } else { 0 } }
        None => 0,
    }
}

/// A slot before which no row is placed after the last one. It looks from the end on until it has found `left` rows that are,
/// and lowers `left` by each: the rows that came last have the highest numbers.
fn start_of(
    last: Option<u64>,
    allocations: &NumberTable<Allocation>,
    slots: &[NumberSlot<()>],
    left: &mut usize,
) -> usize
    requires { past_in last allocations.now slots.now ≤ left.old }
    ensures most { result ≤ length slots.now }
    ensures none { past_in last allocations.now (take result slots.now) ≡ 0 }
    ensures fewer { left.new + past_in last allocations.now slots.now ≡ left.old }
{
    let mut start = slots.len();
    while start > 0 && *left > 0 {
        start -= 1;
        *left -= past_at(last, allocations, &slots[start]);
    }
    start
}

/// Adds the rows of the slots that are placed after the last one: at most `left`, which is lowered by each. The rows that are
/// added share one copy of the namespace's name.
fn add_from(
    seen: &mut ByPlace,
    left: &mut usize,
    last: Option<u64>,
    alloc: Global,
    namespace: &Text,
    allocations: &NumberTable<Allocation>,
    slots: &[NumberSlot<()>],
) -> Result<(), AllocError>
    requires { past_in last allocations.now slots.now ≤ left.old }
    ensures added { OnOk result (rows seen.new
        ≡ fold (add_number last namespace.now allocations.now) (rows seen.old) slots.now) }
    ensures fewer { OnOk result
        (left.new + past_in last allocations.now slots.now ≡ left.old) }
{
    let start = start_of(last, allocations, slots, left);
    if start == slots.len() {
        return Ok(());
    }
    let namespace = Shared::new(alloc, namespace.clone()?)?;
    add_numbers(seen, last, &namespace, allocations, &slots[start..])
}

/// Adds the rows of a namespace that are placed after the last one, and lowers `left` by each.
fn add_namespace(
    seen: &mut ByPlace,
    left: &mut usize,
    last: Option<u64>,
    tables: &Tables,
    slot: &NameSlot<NumberTable<()>>,
) -> Result<(), AllocError>
    requires { past_of last tables.now.tenants slot.now ≤ left.old }
    ensures added { OnOk result (rows seen.new
        ≡ add_namespace last tables.now.tenants (rows seen.old) slot.now) }
    ensures fewer { OnOk result
        (left.new + past_of last tables.now.tenants slot.now ≡ left.old) }
{
    let Some(numbers) = &slot.1 else {
        return Ok(());
    };
    let Some(tenant) = tables.tenants.get(&slot.0) else {
        return Ok(());
    };
    add_from(
        seen,
        left,
        last,
        tables.alloc,
        &slot.0,
        tenant.allocations.rows(),
        numbers.as_slice(),
    )
}

/// Adds the rows of all these namespaces that are placed after the last one, which are at most `most` rows.
fn add_namespaces(
    seen: &mut ByPlace,
    most: usize,
    last: Option<u64>,
    tables: &Tables,
    slots: &[NameSlot<NumberTable<()>>],
) -> Result<(), AllocError>
    requires { past_among last tables.now.tenants slots.now ≤ most }
    ensures { OnOk result (rows seen.new
        ≡ fold (add_namespace last tables.now.tenants) (rows seen.old) slots.now) }
{
    let mut left = most;
    for slot in slots {
        add_namespace(seen, &mut left, last, tables, slot)?;
    }
    Ok(())
}

/// The rows, and behind them those of the slots, in their order.
fn appended(
    rows: LiveRows,
    last: Option<u64>,
    slots: Vec<NumberSlot<LiveAllocation>>,
) -> Result<SeenRows, AllocError>
    ensures rows { IfOk result (λ seen. seen.rows
        ≡ rows ++ map (λ e. e.1) (row_list slots.items)) }
    ensures last { IfOk result (λ seen. seen.last ≡ last_number last (row_list slots.items)) }
{
    let mut shown = rows;
    let mut place = last;
    for (number, slot) in slots {
        if let Some(row) = slot {
            shown.push(row)?;
            place = Some(number);
        }
    }
    Ok(SeenRows {
        rows: shown,
        last: place,
    })
}

fn key_count(slot: &NameSlot<NumberTable<()>>) -> usize
    ensures { result ≡ key_count slot.now }
{
    match &slot.1 {
        Some(numbers) => numbers.len(),
        None => 0,
    }
}

/// How many keys these namespaces have. More than a `usize` can count is want of memory.
fn keys_among(slots: &[NameSlot<NumberTable<()>>]) -> Result<usize, AllocError>
    ensures { IfOk result (λ count. count ≡ keys_among slots.now) }
{
    let mut count: usize = 0;
    for slot in slots {
        count = count.checked_add(key_count(slot)).ok_or(AllocError)?;
    }
    Ok(count)
}

/// No rows, with memory for `most` rows.
fn no_rows(alloc: Global, most: usize) -> Result<ByPlace, AllocError>
    ensures { IfOk result (λ seen. seen ≡ empty) }
{
    let slots = Vec::with_capacity(alloc, most)?;
    Ok(NumberTable::from_slots(slots))
}

/// The allocations at the keys that are placed after the last one, each at its place. There are at most `most` of them.
fn by_place(
    tables: &Tables,
    keys: &KeySet,
    last: Option<u64>,
    most: usize,
) -> Result<ByPlace, AllocError>
    requires { past_among last tables.now.tenants (entries keys.now.numbers) ≤ most }
    ensures { IfOk result (λ seen. rows seen ≡ placed_after last tables.now.tenants keys.now) }
{
    let mut seen = no_rows(tables.alloc, most)?;
    add_namespaces(&mut seen, most, last, tables, keys.as_slice())?;
    Ok(seen)
}

/// The place of the last allocation of the base, if there is one.
fn last_of(base: Option<&SeenNode>) -> Option<u64>
    ensures { result ≡ base_last (option_copied base.entry) }
{
    match base {
        Some(base) => base.last,
        None => None,
    }
}

/// How many allocations the base has.
fn count_of(base: Option<&SeenNode>) -> usize
    ensures { result ≡ length (base_rows (option_copied base.entry)) }
{
    match base {
        Some(base) => base.node.get().live.as_slice().len(),
        None => 0,
    }
}

/// The allocations of the base, with memory for `more` further ones.
fn copied_base(alloc: Global, base: Option<&SeenNode>, more: usize) -> Result<LiveRows, AllocError>
    ensures { IfOk result (λ rows. rows ≡ base_rows (option_copied base.entry)) }
{
    match base {
        Some(base) => base.node.get().live.copied(alloc, more),
        None => LiveRows::with_capacity(alloc, more),
    }
}

/// The allocations of the base, and behind them those at the keys that are placed after its last. It goes through no other
/// allocations, if the new ones have the highest numbers of their namespaces.
fn after_base(
    tables: &Tables,
    keys: &KeySet,
    base: Option<&SeenNode>,
) -> Result<SeenRows, AllocError>
    requires { FitsKeys tables.now.tenants keys.now (option_copied base) }
    ensures { IfOk result (λ seen. FollowsBase tables.now.tenants keys.now
        (option_copied base.entry) seen.rows seen.last) }
{
    let last = last_of(base);
    let most = keys_among(keys.as_slice())?.saturating_sub(count_of(base));
    let fresh = by_place(tables, keys, last, most)?;
    let rows = copied_base(tables.alloc, base, fresh.len())?;
    appended(rows, last, fresh.into_slots())
}

/// The live allocations of all namespaces on the node, if the index is right for the tables.
pub(crate) fn live_on(
    tables: &Tables,
    live: &Live,
    pool: &Text,
    node: &Text,
) -> Result<SeenRows, AllocError>
    requires { IsRight (world_of tables.now) live.now }
    ensures { IfOk result (λ seen. AreSeenOn (world_of tables.now) pool.now node.now
        seen.rows seen.last) }
{
    let Some(keys) = live.keys_on(pool, node) else {
        return Ok(SeenRows {
            rows: LiveRows::new(tables.alloc),
            last: None,
        });
    };
    after_base(tables, keys, live.base_of(pool, node))
}
