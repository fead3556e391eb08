//! The live allocations on the nodes of one pool.

ghost use Rattle.std.specs.Prelude.{◌≡◌, IsTrue, OnOk, is_some, option_copied, option_map};
ghost use Rattle.std.specs.FinMap.{empty};
ghost use Rattle.keyed.specs.Table.{row_at};
ghost use Rattle.ns_types.specs.State.Names.{Name, same_key};
ghost use Rattle.ns_types.specs.State.Resources.{none};
ghost use Rattle.keyed.specs.Levels.{Adds, Drops, Keeps, has_key_room, holds_key, same_at};
ghost use Rattle.ns_live_index.specs.Levels.{holds_on_node, has_node_room, load_on};
ghost use Rattle.ns_live_index.specs.Moving.{LeavesOnNode, MovesLoad, MovesOnNode};

use keyed::{KeySet, NameTable};
use ns_types::resources::{Resources, moved, none};
use ns_types::text::Text;
use std::alloc::{AllocError, Global};

/// The keys of the live allocations on a node, and what these take together: sums of 64 bits, which wrap.
#[derive(Drop)]
pub(crate) struct NodeKeys {
    keys: KeySet,
    load: Resources,
}

impl NodeKeys {
    /// Adds the key. The load gains `after` and loses `before`. It takes no memory: there has to be room.
    fn insert(&mut self, namespace: &Text, number: u64, before: Resources, after: Resources)
        requires { IsTrue (has_key_room self.old.keys (namespace.now, number)) }
        ensures keys { Adds holds_key has_key_room same_key (namespace.now, number)
            self.old.keys self.new.keys }
        ensures load { MovesLoad before after self.old.load self.new.load }
    {
        self.keys.insert(namespace, number);
        self.load = moved(self.load, before, after);
    }

    /// Removes the key. The load loses `size`. It takes no memory.
    fn remove(&mut self, namespace: &Text, number: u64, size: Resources)
        ensures keys { Drops holds_key has_key_room same_key (namespace.now, number)
            self.old.keys self.new.keys }
        ensures load { MovesLoad size none self.old.load self.new.load }
    {
        self.keys.remove(namespace, number);
        self.load = moved(self.load, size, none());
    }
}

/// The keys of the live allocations in a pool, by node.
#[derive(Drop)]
pub(crate) struct PoolKeys {
    nodes: NameTable<NodeKeys>,
}

impl PoolKeys {
    /// No keys. It takes no memory.
    pub(crate) fn new(alloc: Global) -> PoolKeys
        ensures { result.nodes ≡ empty }
    {
        PoolKeys {
            nodes: NameTable::new(alloc),
        }
    }

    /// Whether it holds no key and has room for none.
    pub(crate) fn is_empty(&self) -> bool
        ensures { IsTrue result → self.now.nodes ≡ empty }
    {
        self.nodes.as_slice().is_empty()
    }

    pub(crate) fn keys_on(&self, node: &Text) -> Option<&KeySet>
        ensures { option_copied result ≡
            option_map (λ on. on.keys) (row_at self.now.nodes node.now) }
    {
        match self.nodes.get(node) {
            Some(on) => Some(&on.keys),
            None => None,
        }
    }

    /// What the live allocations on the node take together. It wraps.
    pub(crate) fn load_on(&self, node: &Text) -> Resources
        ensures { result ≡ load_on self.now node.now }
    {
        match self.nodes.get(node) {
            Some(on) => on.load,
            None => none(),
        }
    }

    /// Makes a set for the node, unless there is one. Want of memory is the only error.
    fn open(&mut self, alloc: Global, node: &Text) -> Result<(), AllocError>
        ensures same { Keeps holds_on_node has_node_room self.old self.new }
        ensures loads { (name : Name) → load_on self.new name ≡ load_on self.old name }
        ensures ok { OnOk result (IsTrue (is_some (row_at self.new.nodes node.now))) }
    {
        self.nodes.reserve(node)?;
        if self.nodes.get(node).is_none() {
            let keys = KeySet::new(alloc);
            self.nodes.set(node, NodeKeys { keys, load: none() });
        }
        Ok(())
    }

    /// Makes room for the key on the node. Want of memory is the only error. A node that has keys is looked up once.
    pub(crate) fn reserve(
        &mut self,
        alloc: Global,
        node: &Text,
        namespace: &Text,
        number: u64,
    ) -> Result<(), AllocError>
        ensures same { Keeps holds_on_node has_node_room self.old self.new }
        ensures loads { (name : Name) → load_on self.new name ≡ load_on self.old name }
        ensures ok { OnOk result (
            IsTrue (has_node_room self.new (node.now, (namespace.now, number)))) }
    {
        if let Some(on) = self.nodes.get_mut(node) {
            return on.keys.reserve(alloc, namespace, number);
        }
        self.open(alloc, node)?;
        if let Some(on) = self.nodes.get_mut(node) {
            on.keys.reserve(alloc, namespace, number)?;
        }
        Ok(())
    }

    /// Adds the key on the node, whose load gains `after` and loses `before`. It takes no memory.
    pub(crate) fn insert(
        &mut self,
        node: &Text,
        namespace: &Text,
        number: u64,
        before: Resources,
        after: Resources,
    )
        requires { IsTrue (has_node_room self.old (node.now, (namespace.now, number))) }
        ensures keys { Adds holds_on_node has_node_room (same_at same_key)
            (node.now, (namespace.now, number)) self.old self.new }
        ensures loads { MovesOnNode node.now before after self.old self.new }
    {
        if let Some(on) = self.nodes.get_mut(node) {
            on.insert(namespace, number, before, after);
        }
    }

    /// Removes the key from the node, whose load loses `size`. It takes no memory.
    pub(crate) fn remove(&mut self, node: &Text, namespace: &Text, number: u64, size: Resources)
        ensures keys { Drops holds_on_node has_node_room (same_at same_key)
            (node.now, (namespace.now, number)) self.old self.new }
        ensures loads { LeavesOnNode node.now size self.old self.new }
    {
        let Some(on) = self.nodes.get_mut(node) else {
            return;
        };
        on.remove(namespace, number, size);
        if on.keys.is_empty() {
            self.nodes.remove(node);
        }
    }
}
