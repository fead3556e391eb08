//! The live allocations on all nodes and what they take, the nodes as they were last shown, and which namespaces name which
//! quota, with what they use.

ghost use Rattle.std.specs.Prelude.{◌≡◌, ◌≤◌, ℕ, false, IfOk, IsTrue, None, OnErr, OnOk, Option, Some, is_some};
ghost use Rattle.std.specs.Prelude.{option_copied};
ghost use Rattle.std.specs.Option.{option_map_or};
ghost use Rattle.keyed.specs.Over.{over};
ghost use Rattle.keyed.specs.Table.{row_at, rows};
ghost use Rattle.ns_types.specs.declared.allocation.Allocation.{Allocation};
ghost use Rattle.ns_types.specs.declared.resources.Resources.{Resources};
ghost use Rattle.ns_types.specs.State.Names.{Key, Name, same_key, same_name};
ghost use Rattle.ns_types.specs.State.Resources.{IsCounted};
ghost use Rattle.ns_types.specs.State.Rows.{World, is_live, is_live_on};
ghost use Rattle.ns_types.specs.State.Sums.{names_quota, node_load, quota_use};
ghost use Rattle.ns_types.specs.State.Tables.{any_row};
ghost use Rattle.ns_types.specs.Working.Snapshot.{namespaces_naming};
ghost use Rattle.ns_tables.specs.Allocations.{live_use, rows_use};
ghost use Rattle.ns_live_index.specs.Index.{AddsRow, HasRoomFor, HasRoomForAll, Indexes, IsEmpty, IsRight};
ghost use Rattle.ns_live_index.specs.Index.{KeepsKeys, KeepsRoom};
ghost use Rattle.ns_live_index.specs.Index.{has_room, holds, with_changes, with_row};
ghost use Rattle.keyed.specs.Levels.{Adds, Drops, Keeps, holds_key, same_at};
ghost use Rattle.ns_live_index.specs.Levels.{holds_in_pool, has_pool_room, load_at};
ghost use Rattle.ns_live_index.specs.Moving.{AddsLoad, LeavesInPool, MovesInPool, taken};
ghost use Rattle.ns_live_index.specs.Naming.{AreKept, AreNamed, HasNameRoom, HoldsSame, KeepsNames, KeepsNodes};
ghost use Rattle.ns_live_index.specs.Naming.{PutsQuota, with_use};
ghost use Rattle.ns_live_index.specs.Shown.{ForgetsNodes, HidesRow, KeepsShown, ShowsSame, ShowsThere, ShowsUnmoved, base_at};
ghost use Rattle.ns_live_index.specs.Shown.{shown_at, shown_so};
ghost use Rattle.ns_live_index.specs.declared.shown.ShownNodes.{ShownNodes};

use crate::naming::{QuotaNames, copied_names, has_name};
use crate::pool_keys::PoolKeys;
use crate::shown::{SeenNode, ShownNodes};
use keyed::{KeySet, NameTable, NumberTable};
use ns_tables::AllocationTable;
use ns_types::allocation::Allocation;
use ns_types::node::Node;
use ns_types::resources::{Resources, none};
use ns_types::rows::Rows;
use ns_types::shared::Shared;
use ns_types::snapshot::PoolNode;
use ns_types::text::{Text, same_text};
use std::alloc::{AllocError, Global};

/// The keys of all live allocations, by the pool and the node that they are on, with what those of each node take together,
/// the nodes that are shown, and the names of the namespaces, by the quota that they name, with the total of what they use.
pub struct Live {
    alloc: Global,
    pools: NameTable<PoolKeys>,
    shown: ShownNodes,
    quotas: QuotaNames,
}

impl Drop for Live {
    fn drop(self) {
        let Live {
            alloc: _,
            pools: _pools,
            shown: _shown,
            quotas: _quotas,
        } = self;
    }
}

fn is_live_on(row: Option<&Allocation>, pool: &Text, node: &Text) -> bool
    ensures { result ≡
        option_map_or (is_live_on pool.now node.now) (option_copied row.entry) false }
{
    match row {
        Some(row) => row.is_live() && same_text(pool, &row.pool) && same_text(node, &row.node),
        None => false,
    }
}

/// What the row takes on the node: nothing if it is not live there.
fn size_on(row: Option<&Allocation>, pool: &Text, node: &Text) -> Resources
    ensures { result ≡ taken pool.now node.now (option_copied row.entry) }
{
    match row {
        Some(allocation) => {
            if is_live_on(row, pool, node) {
                allocation.size
            } else {
                none()
            }
        }
        None => none(),
    }
}

/// Whether `last` is live on the node of `row`, at the place of `row` or an earlier one. True if there is no `row`.
fn is_beside(last: Option<&Allocation>, row: Option<&Allocation>) -> bool
    ensures { IsTrue result → (shown : ShownNodes) → HidesRow (option_copied last.entry) shown →
        HidesRow (option_copied row.entry) shown }
{
    match row {
        Some(row) => is_live_on(last, &row.pool, &row.node) && is_placed_by(last, row.place),
        None => true,
    }
}

/// Whether the row, if there is one, has that place or an earlier one.
fn is_placed_by(row: Option<&Allocation>, place: u64) -> bool
    ensures { (its : Allocation) → option_copied row.entry ≡ Some its →
        IsTrue result → its.place ≤ place }
{
    match row {
        Some(row) => row.place <= place,
        None => true,
    }
}

impl Live {
    /// No keys and no names, and no node is shown. It takes no memory.
    pub fn new(alloc: Global) -> Live
        ensures { IsEmpty result }
    {
        Live {
            alloc,
            pools: NameTable::new(alloc),
            shown: ShownNodes::new(alloc),
            quotas: QuotaNames::new(alloc),
        }
    }

    /// Makes room for the row under this key, if it is live. Want of memory is the only error.
    pub fn reserve(
        &mut self,
        namespace: &Text,
        number: u64,
        row: &Allocation,
    ) -> Result<(), AllocError>
        ensures same { KeepsKeys self.old self.new }
        ensures shown { KeepsShown self.old self.new }
        ensures room { KeepsRoom self.old self.new }
        ensures ok { OnOk result (HasRoomFor self.new (namespace.now, number) (Some row.now)) }
    {
        if row.is_live() {
            self.reserve_at(&row.pool, &row.node, namespace, number)?;
        }
        Ok(())
    }

    /// The row under this key was `before` and is `after` from now on. It takes no memory: for a live row there has to be
    /// room. Other keys keep their room. A node on which one of the two rows is live is not shown any more; it is kept as a
    /// base if that row is placed after the node's last one.
    pub fn put(
        &mut self,
        namespace: &Text,
        number: u64,
        before: Option<&Allocation>,
        after: Option<&Allocation>,
    )
        requires { HasRoomFor self.old (namespace.now, number) (option_copied after) }
        ensures index { (row_of : Key → Option Allocation) → Indexes row_of self.old →
            row_of (namespace.now, number) ≡ option_copied before.entry →
            Indexes (with_row (namespace.now, number) (option_copied after.entry) row_of) self.new }
        ensures shown { (row_of : Key → Option Allocation) →
            row_of (namespace.now, number) ≡ option_copied before.entry →
            ShowsUnmoved row_of
            (with_row (namespace.now, number) (option_copied after.entry) row_of)
            self.old self.new }
        ensures names { KeepsNames self.old self.new }
        ensures room { (pool : Name) (node : Name) (key : Key) →
            same_key key (namespace.now, number) ≡ false →
            IsTrue (has_room self.old pool node key) → IsTrue (has_room self.new pool node key) }
    {
        self.put_after(None, namespace, number, before, after);
    }

    /// As `put`, after the row `last` was put, if there is one: if it is live, its node is not shown any more.
    fn put_after(
        &mut self,
        last: Option<&Allocation>,
        namespace: &Text,
        number: u64,
        before: Option<&Allocation>,
        after: Option<&Allocation>,
    )
        requires room { HasRoomFor self.old (namespace.now, number) (option_copied after) }
        requires last { HidesRow (option_copied last) self.old.shown }
        ensures index { (row_of : Key → Option Allocation) → Indexes row_of self.old →
            row_of (namespace.now, number) ≡ option_copied before.entry →
            Indexes (with_row (namespace.now, number) (option_copied after.entry) row_of) self.new }
        ensures shown { (row_of : Key → Option Allocation) →
            row_of (namespace.now, number) ≡ option_copied before.entry →
            ShowsUnmoved row_of
            (with_row (namespace.now, number) (option_copied after.entry) row_of)
            self.old self.new }
        ensures names { KeepsNames self.old self.new }
        ensures room { (pool : Name) (node : Name) (key : Key) →
            same_key key (namespace.now, number) ≡ false →
            IsTrue (has_room self.old pool node key) → IsTrue (has_room self.new pool node key) }
        ensures last { HidesRow (option_copied after.entry) self.new.shown }
    {
        self.put_key(namespace, number, before, after);
        self.shown.forget_row(before);
        if !is_beside(last, after) {
            self.shown.forget_row(after);
        }
    }

    /// As `put`, of the keys and loads alone: what is shown stays.
    fn put_key(
        &mut self,
        namespace: &Text,
        number: u64,
        before: Option<&Allocation>,
        after: Option<&Allocation>,
    )
        requires { HasRoomFor self.old (namespace.now, number) (option_copied after) }
        ensures index { (row_of : Key → Option Allocation) → Indexes row_of self.old →
            row_of (namespace.now, number) ≡ option_copied before.entry →
            Indexes (with_row (namespace.now, number) (option_copied after.entry) row_of) self.new }
        ensures shown { KeepsShown self.old self.new }
        ensures room { (pool : Name) (node : Name) (key : Key) →
            same_key key (namespace.now, number) ≡ false →
            IsTrue (has_room self.old pool node key) → IsTrue (has_room self.new pool node key) }
    {
        self.add(namespace, number, before, after);
        if let Some(row) = before {
            if !is_live_on(after, &row.pool, &row.node) {
                let size = size_on(before, &row.pool, &row.node);
                self.remove(&row.pool, &row.node, namespace, number, size);
            }
        }
    }

    /// Makes room for all changed rows of a namespace. Want of memory is the only error.
    pub fn reserve_all(
        &mut self,
        namespace: &Text,
        changes: &NumberTable<Allocation>,
    ) -> Result<(), AllocError>
        ensures same { KeepsKeys self.old self.new }
        ensures shown { KeepsShown self.old self.new }
        ensures room { KeepsRoom self.old self.new }
        ensures ok { OnOk result (HasRoomForAll self.new namespace.now changes.now) }
    {
        for slot in changes.as_slice() {
            self.reserve_row(namespace, slot.0, slot.1.as_ref())?;
        }
        Ok(())
    }

    /// The namespace's rows are those of the table, and these changes are made to them: as `put`, row by row. Totals of quotas
    /// do not follow.
    pub fn put_all(
        &mut self,
        namespace: &Text,
        table: &NumberTable<Allocation>,
        changes: &NumberTable<Allocation>,
    )
        requires { HasRoomForAll self.old namespace.now changes.now }
        ensures index { (row_of : Key → Option Allocation) → Indexes row_of self.old →
            ((n : ℕ) → row_of (namespace.now, n) ≡ row_at table.now n) →
            Indexes (with_changes namespace.now changes.now row_of) self.new }
        ensures shown { (row_of : Key → Option Allocation) →
            ((n : ℕ) → row_of (namespace.now, n) ≡ row_at table.now n) →
            ShowsUnmoved row_of (with_changes namespace.now changes.now row_of) self.old self.new }
        ensures names { KeepsNames self.old self.new }
        ensures room { (pool : Name) (node : Name) (key : Key) →
            same_name key.0 namespace.now ≡ false →
            IsTrue (has_room self.old pool node key) → IsTrue (has_room self.new pool node key) }
    {
        let mut last = None;
        for slot in changes.as_slice() {
            let after = slot.1.as_ref();
            self.put_after(last, namespace, slot.0, table.get(slot.0), after);
            last = after;
        }
    }

    /// As `put_all`, of a namespace's table of allocations. The total of the quota that it names follows, if it names one.
    pub fn put_changes(
        &mut self,
        namespace: &Text,
        quota: Option<&Text>,
        table: &AllocationTable,
        changes: &NumberTable<Allocation>,
    )
        requires { HasRoomForAll self.old namespace.now changes.now }
        ensures index { (row_of : Key → Option Allocation) → Indexes row_of self.old →
            ((n : ℕ) → row_of (namespace.now, n) ≡ row_at table.now.slots n) →
            Indexes (with_changes namespace.now changes.now row_of) self.new }
        ensures shown { (row_of : Key → Option Allocation) →
            ((n : ℕ) → row_of (namespace.now, n) ≡ row_at table.now.slots n) →
            ShowsUnmoved row_of (with_changes namespace.now changes.now row_of) self.old self.new }
        ensures quotas { (quota_of : Name → Option Name) (use_of : Name → Resources) →
            AreKept quota_of use_of self.old.quotas →
            quota_of namespace.now ≡ option_copied quota.entry →
            use_of namespace.now ≡ live_use table.now.slots →
            let used = rows_use (over (rows table.now.slots) changes.now) in
            AreKept quota_of (with_use namespace.now used use_of) self.new.quotas }
        ensures room { (pool : Name) (node : Name) (key : Key) →
            same_name key.0 namespace.now ≡ false →
            IsTrue (has_room self.old pool node key) → IsTrue (has_room self.new pool node key) }
    {
        self.put_all(namespace, table.rows(), changes);
        if let Some(quota) = quota {
            let before = table.live_total();
            let after = table.total_with(changes);
            self.quotas.put_use(quota, before, after);
        }
    }

    /// The changed nodes of the pool are not shown any more: those that still exist are kept as bases. It takes no memory.
    pub fn forget_all(&mut self, pool: &Text, changes: &NameTable<Node>)
        ensures keys { KeepsKeys self.old self.new }
        ensures shown { ForgetsNodes pool.now changes.now self.old self.new }
        ensures names { KeepsNames self.old self.new }
    {
        for slot in changes.as_slice() {
            self.shown.forget(pool, &slot.0, slot.1.is_some());
        }
    }

    /// The node as it was last shown, unless it changed since.
    pub fn shown_at(&self, pool: &Text, name: &Text) -> Option<&Shared<PoolNode>>
        ensures { option_copied result ≡ shown_at self.now pool.now name.now }
    {
        self.shown.get(pool, name)
    }

    /// The node as it was last shown, even if it changed since: up to its last place the live allocations are the same.
    pub fn base_of(&self, pool: &Text, name: &Text) -> Option<&SeenNode>
        ensures { option_copied result ≡ base_at self.now pool.now name.now }
    {
        self.shown.base_of(pool, name)
    }

    /// Shows the node as `seen` from now on. Want of memory is the only error.
    pub fn show(&mut self, pool: &Text, name: &Text, seen: SeenNode) -> Result<(), AllocError>
        ensures keys { KeepsKeys self.old self.new }
        ensures names { KeepsNames self.old self.new }
        ensures ok { OnOk result (
            ShowsThere pool.now name.now (shown_so seen) self.old.shown self.new.shown) }
        ensures err { OnErr result (ShowsSame self.old.shown self.new.shown) }
    {
        self.shown.put(self.alloc, pool, name, seen)
    }

    /// The keys of the live allocations on this node, if there are some.
    pub fn keys_on(&self, pool: &Text, node: &Text) -> Option<&KeySet>
        ensures { (key : Key) →
            option_map_or (λ keys. holds_key keys key) (option_copied result) false
            ≡ holds self.now pool.now node.now key }
    {
        match self.pools.get(pool) {
            Some(nodes) => nodes.keys_on(node),
            None => None,
        }
    }

    /// What the live allocations on this node take together. It is kept, so no allocation is read. It wraps, unless the load
    /// fits 64 bits, as it does in a valid world: its nodes have room for what is on them.
    pub fn load(&self, pool: &Text, node: &Text) -> Resources
        ensures { (w : World) → IsRight w self.now → IsCounted (node_load w pool.now node.now) →
            result ≡ node_load w pool.now node.now }
    {
        match self.pools.get(pool) {
            Some(nodes) => nodes.load_on(node),
            None => none(),
        }
    }

    // ---- which namespaces name which quota

    /// Makes room for the namespace at the quota that it names, if any. Want of memory is the only error.
    pub fn reserve_quota(
        &mut self,
        namespace: &Text,
        quota: Option<&Text>,
    ) -> Result<(), AllocError>
        ensures nodes { KeepsNodes self.old self.new }
        ensures same { HoldsSame self.old.quotas self.new.quotas }
        ensures ok { OnOk result (
            HasNameRoom self.new.quotas namespace.now (option_copied quota.entry)) }
    {
        self.quotas.reserve(self.alloc, namespace, quota)
    }

    /// The namespace, which uses `used`, named the quota `before`, and names `after` from now on: the total of `before` loses
    /// what it uses, and that of `after` gains it. It takes no memory: there has to be room.
    pub fn put_quota(
        &mut self,
        namespace: &Text,
        before: Option<&Text>,
        after: Option<&Text>,
        used: Resources,
    )
        requires { HasNameRoom self.old.quotas namespace.now (option_copied after) }
        ensures nodes { KeepsNodes self.old self.new }
        ensures names { PutsQuota namespace.now (option_copied before.entry)
            (option_copied after.entry) used self.old.quotas self.new.quotas }
    {
        self.quotas.put(namespace, before, after, used);
    }

    /// The namespaces that name the quota, by name. It reads no other. Want of memory is the only error.
    pub fn namespaces_naming(&self, quota: &Text) -> Result<Rows<Text>, AllocError>
        ensures { (w : World) → AreNamed w self.now →
            IfOk result (λ names. names ≡ namespaces_naming w quota.now) }
    {
        match self.quotas.names_of(quota) {
            Some(names) => copied_names(self.alloc, names),
            None => Ok(Rows::new(self.alloc)),
        }
    }

    /// Whether a namespace names the quota. It reads no other.
    pub fn is_named(&self, quota: &Text) -> bool
        ensures { (w : World) → AreNamed w self.now →
            result ≡ any_row (λ _ tenant. names_quota quota.now tenant.namespace) w.tenants }
    {
        match self.quotas.names_of(quota) {
            Some(names) => has_name(names),
            None => false,
        }
    }

    /// What the live allocations of all namespaces that name the quota take together. It is a total that is kept, exact if
    /// names and totals are right for the world and the sums fit 64 bits. It takes no memory.
    pub fn quota_use(&self, quota: &Text) -> Resources
        ensures { (w : World) → AreNamed w self.now → IsCounted (quota_use w quota.now) →
            result ≡ quota_use w quota.now }
    {
        self.quotas.total_of(quota)
    }

    /// Adds the key on the node on which `after` is live, if it is: that node's load gains what `after` takes and loses what
    /// `before` took there. It takes no memory.
    fn add(
        &mut self,
        namespace: &Text,
        number: u64,
        before: Option<&Allocation>,
        after: Option<&Allocation>,
    )
        requires { HasRoomFor self.old (namespace.now, number) (option_copied after) }
        ensures added { AddsRow (namespace.now, number) (option_copied after.entry)
            self.old self.new }
        ensures loads { AddsLoad (option_copied before.entry) (option_copied after.entry)
            self.old self.new }
        ensures shown { KeepsShown self.old self.new }
    {
        if let Some(row) = after {
            if row.is_live() {
                let went = size_on(before, &row.pool, &row.node);
                self.insert(&row.pool, &row.node, namespace, number, went, row.size);
            }
        }
    }

    /// As `reserve`, of a row that may be none. Want of memory is the only error.
    fn reserve_row(
        &mut self,
        namespace: &Text,
        number: u64,
        row: Option<&Allocation>,
    ) -> Result<(), AllocError>
        ensures same { KeepsKeys self.old self.new }
        ensures shown { KeepsShown self.old self.new }
        ensures room { KeepsRoom self.old self.new }
        ensures ok { OnOk result (
            HasRoomFor self.new (namespace.now, number) (option_copied row.entry)) }
    {
        match row {
            Some(row) => self.reserve(namespace, number, row),
            None => Ok(()),
        }
    }

    /// Makes a set for the pool, unless there is one. Want of memory is the only error.
    fn open(&mut self, pool: &Text) -> Result<(), AllocError>
        ensures same { Keeps holds_in_pool has_pool_room self.old self.new }
        ensures loads { (p : Name) (n : Name) → load_at self.new p n ≡ load_at self.old p n }
        ensures shown { KeepsShown self.old self.new }
        ensures ok { OnOk result (IsTrue (is_some (row_at self.new.pools pool.now))) }
    {
        self.pools.reserve(pool)?;
        if self.pools.get(pool).is_none() {
            self.pools.set(pool, PoolKeys::new(self.alloc));
        }
        Ok(())
    }

    /// Makes room for the key on the node. Want of memory is the only error.
    fn reserve_at(
        &mut self,
        pool: &Text,
        node: &Text,
        namespace: &Text,
        number: u64,
    ) -> Result<(), AllocError>
        ensures same { Keeps holds_in_pool has_pool_room self.old self.new }
        ensures loads { (p : Name) (n : Name) → load_at self.new p n ≡ load_at self.old p n }
        ensures shown { KeepsShown self.old self.new }
        ensures ok { OnOk result (
            IsTrue (has_pool_room self.new (pool.now, (node.now, (namespace.now, number))))) }
    {
        let alloc = self.alloc;
        if let Some(nodes) = self.pools.get_mut(pool) {
            return nodes.reserve(alloc, node, namespace, number);
        }
        self.open(pool)?;
        if let Some(nodes) = self.pools.get_mut(pool) {
            nodes.reserve(alloc, node, namespace, number)?;
        }
        Ok(())
    }

    /// Adds the key on the node, whose load gains `after` and loses `before`. It takes no memory.
    fn insert(
        &mut self,
        pool: &Text,
        node: &Text,
        namespace: &Text,
        number: u64,
        before: Resources,
        after: Resources,
    )
        requires { IsTrue (has_pool_room self.old (pool.now, (node.now, (namespace.now, number)))) }
        ensures added { Adds holds_in_pool has_pool_room (same_at (same_at same_key))
            (pool.now, (node.now, (namespace.now, number))) self.old self.new }
        ensures loads { MovesInPool pool.now node.now before after self.old self.new }
        ensures shown { KeepsShown self.old self.new }
    {
        if let Some(nodes) = self.pools.get_mut(pool) {
            nodes.insert(node, namespace, number, before, after);
        }
    }

    /// Removes the key from the node, whose load loses `size`. A set without keys and room goes too. It takes no memory.
    fn remove(&mut self, pool: &Text, node: &Text, namespace: &Text, number: u64, size: Resources)
        ensures dropped { Drops holds_in_pool has_pool_room (same_at (same_at same_key))
            (pool.now, (node.now, (namespace.now, number))) self.old self.new }
        ensures loads { LeavesInPool pool.now node.now size self.old self.new }
        ensures shown { KeepsShown self.old self.new }
    {
        let Some(nodes) = self.pools.get_mut(pool) else {
            return;
        };
        nodes.remove(node, namespace, number, size);
        if nodes.is_empty() {
            self.pools.remove(pool);
        }
    }
}
