//! The nodes as they were last shown to workers. What a snapshot has of a node stays as it is: a node that changes is not
//! shown any more, and is made anew for the next snapshot. If its own row changed, or rows came that are placed after all
//! others, it is kept as a base for that.

ghost use Rattle.std.specs.Prelude.{◌≡◌, ℕ, IsTrue, None, OnErr, OnOk, Some, if◌then◌else◌, is_some, option_copied, option_map};
ghost use Rattle.std.specs.FinMap.{empty};
ghost use Rattle.keyed.specs.Table.{row_at};
ghost use Rattle.ns_types.specs.State.Names.{Name, same_name};
ghost use Rattle.ns_live_index.specs.Shown.{ForgetsRow, ShowsSame, ShowsThere, as_behind, base_in, if_shown, is_base_for};
ghost use Rattle.ns_live_index.specs.Shown.{kept_in, left_by, shown_in, shown_so};
ghost use Rattle.ns_live_index.specs.Until.{is_past};

use keyed::NameTable;
use ns_types::allocation::Allocation;
use ns_types::shared::Shared;
use ns_types::snapshot::PoolNode;
use ns_types::text::Text;
use std::alloc::{AllocError, Global};

/// A node as it was shown, with the place of the last of its live allocations, if it has one.
pub struct SeenNode {
    pub node: Shared<PoolNode>,
    pub last: Option<u64>,
}

impl Drop for SeenNode {
    fn drop(self) {
        let SeenNode {
            node: _node,
            last: _,
        } = self;
    }
}

/// A node that is kept. If it is behind, it is not shown: its own row changed, or rows came that are placed after its last.
#[derive(Drop)]
pub(crate) struct ShownNode {
    pub(crate) seen: SeenNode,
    pub(crate) is_behind: bool,
}

/// Nodes of one pool, by name.
type PoolShown = NameTable<ShownNode>;

/// Shown nodes, by pool and name.
#[derive(Drop)]
pub(crate) struct ShownNodes {
    pools: NameTable<PoolShown>,
}

/// Whether the place comes after the last one. True if there is no last one.
pub fn is_past(last: Option<u64>, place: u64) -> bool
    ensures { result ≡ is_past last place }
{
    match last {
        Some(last) => last < place,
        None => true,
    }
}

fn has_none(nodes: &PoolShown) -> bool
    ensures { IsTrue result → nodes.now ≡ empty }
{
    nodes.as_slice().is_empty()
}

/// Whether the node is kept, and the place comes after its last one.
fn is_base_for(kept: Option<&ShownNode>, place: u64) -> bool
    ensures { result ≡ is_base_for place (option_copied kept.entry) }
{
    match kept {
        Some(kept) => is_past(kept.seen.last, place),
        None => false,
    }
}

/// Marks the node as behind, if it is kept. It takes no memory.
fn mark_in(nodes: &mut PoolShown, name: &Text)
    ensures { (n : Name) → row_at nodes.new n ≡ (if same_name n name.now
        then option_map as_behind (row_at nodes.old name.now) else row_at nodes.old n) }
{
    if let Some(kept) = nodes.get_mut(name) {
        kept.is_behind = true;
    }
}

/// A row at the place came or went: the node is behind if the place comes after its last one, and forgotten if not.
fn unshow_in(nodes: &mut PoolShown, name: &Text, place: u64)
    ensures { (n : Name) → row_at nodes.new n ≡ (if same_name n name.now
        then left_by place (row_at nodes.old name.now) else row_at nodes.old n) }
{
    if is_base_for(nodes.get(name), place) {
        mark_in(nodes, name);
    } else {
        nodes.take(name);
    }
}

impl ShownNode {
    /// The node, unless it is behind.
    fn shown(&self) -> Option<&Shared<PoolNode>>
        ensures { option_copied result ≡ if_shown (Some self.now) }
    {
        if self.is_behind {
            None
        } else {
            Some(&self.seen.node)
        }
    }
}

impl ShownNodes {
    /// No node. It takes no memory.
    pub(crate) fn new(alloc: Global) -> ShownNodes
        ensures { result.pools ≡ empty }
    {
        ShownNodes {
            pools: NameTable::new(alloc),
        }
    }

    /// What is kept of the node.
    fn kept(&self, pool: &Text, name: &Text) -> Option<&ShownNode>
        ensures { option_copied result ≡ kept_in self.now pool.now name.now }
    {
        match self.pools.get(pool) {
            Some(nodes) => nodes.get(name),
            None => None,
        }
    }

    /// The node as it was last shown, unless it is behind or was forgotten.
    pub(crate) fn get(&self, pool: &Text, name: &Text) -> Option<&Shared<PoolNode>>
        ensures { option_copied result ≡ shown_in self.now pool.now name.now }
    {
        match self.kept(pool, name) {
            Some(kept) => kept.shown(),
            None => None,
        }
    }

    /// The node as it was last shown, behind or not, unless it was forgotten.
    pub(crate) fn base_of(&self, pool: &Text, name: &Text) -> Option<&SeenNode>
        ensures { option_copied result ≡ base_in self.now pool.now name.now }
    {
        match self.kept(pool, name) {
            Some(kept) => Some(&kept.seen),
            None => None,
        }
    }

    /// Makes a table for the pool, unless there is one. Want of memory is the only error.
    fn open(&mut self, alloc: Global, pool: &Text) -> Result<(), AllocError>
        ensures same { ShowsSame self.old self.new }
        ensures ok { OnOk result (IsTrue (is_some (row_at self.new.pools pool.now))) }
    {
        self.pools.reserve(pool)?;
        if self.pools.get(pool).is_none() {
            self.pools.set(pool, NameTable::new(alloc));
        }
        Ok(())
    }

    /// Keeps the node, which is not behind. Want of memory is the only error.
    pub(crate) fn put(
        &mut self,
        alloc: Global,
        pool: &Text,
        name: &Text,
        seen: SeenNode,
    ) -> Result<(), AllocError>
        ensures ok { OnOk result (ShowsThere pool.now name.now (shown_so seen) self.old self.new) }
        ensures err { OnErr result (ShowsSame self.old self.new) }
    {
        self.open(alloc, pool)?;
        if let Some(nodes) = self.pools.get_mut(pool) {
            nodes.reserve(name)?;
            let shown = ShownNode {
                seen,
                is_behind: false,
            };
            nodes.set(name, shown);
        }
        Ok(())
    }

    /// Forgets the node and takes its room away. It takes no memory. The table of a pool goes with its last node.
    fn remove(&mut self, pool: &Text, name: &Text)
        ensures { ShowsThere pool.now name.now None self.old self.new }
    {
        let Some(nodes) = self.pools.get_mut(pool) else {
            return;
        };
        nodes.remove(name);
        if has_none(nodes) {
            self.pools.remove(pool);
        }
    }

    /// Marks the node as behind, if it is kept. It takes no memory.
    fn mark(&mut self, pool: &Text, name: &Text)
        ensures { ShowsThere pool.now name.now
            (option_map as_behind (kept_in self.old pool.now name.now)) self.old self.new }
    {
        if let Some(nodes) = self.pools.get_mut(pool) {
            mark_in(nodes, name);
        }
    }

    /// A row at the place came to the node, or went: as `unshow_in`. It takes no memory, and a node that is forgotten keeps its
    /// room.
    fn unshow(&mut self, pool: &Text, name: &Text, place: u64)
        ensures { ShowsThere pool.now name.now
            (left_by place (kept_in self.old pool.now name.now)) self.old self.new }
    {
        if let Some(nodes) = self.pools.get_mut(pool) {
            unshow_in(nodes, name, place);
        }
    }

    /// The node's own row changed: if it stays in its pool, it is behind from now on; if not, it is forgotten. It takes no
    /// memory.
    pub(crate) fn forget(&mut self, pool: &Text, name: &Text, stays: bool)
        ensures { ShowsThere pool.now name.now
            (if stays then option_map as_behind (kept_in self.old pool.now name.now) else None)
            self.old self.new }
    {
        if stays {
            self.mark(pool, name);
        } else {
            self.remove(pool, name);
        }
    }

    /// The row came or went. If it is live, its node is not shown any more; the node is kept as a base if the row is placed
    /// after its last one. It takes no memory.
    pub(crate) fn forget_row(&mut self, row: Option<&Allocation>)
        ensures { ForgetsRow (option_copied row.entry) self.old self.new }
    {
        if let Some(row) = row {
            if row.is_live() {
                self.unshow(&row.pool, &row.node, row.place);
            }
        }
    }
}
