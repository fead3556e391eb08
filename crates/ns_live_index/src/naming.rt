//! Which namespaces name which quota, so that none has to be looked for among all namespaces, and the total of what they use,
//! so that no sum is computed when it is needed. Room for a name is made before it is needed.

ghost use Rattle.std.specs.Prelude.{◌≡◌, ◌++◌, IfOk, IsTrue, None, OnOk, Option, flat_map, is_some};
ghost use Rattle.std.specs.Prelude.{false, option_copied, option_map, true};
ghost use Rattle.std.specs.FinMap.{empty, entries};
ghost use Rattle.std.specs.List.{list_any};
ghost use Rattle.keyed.specs.Levels.{Adds, Drops, Keeps, same_at};
ghost use Rattle.keyed.specs.Table.{at_slot, row_at};
ghost use Rattle.ns_types.specs.declared.resources.Resources.{Resources};
ghost use Rattle.ns_types.specs.State.Names.{Name, same_name};
ghost use Rattle.ns_types.specs.State.Resources.{IsTotal};
ghost use Rattle.ns_live_index.specs.Naming.{AreTotals, HasNameRoom, HoldsSame, KeepsTotals, PutsQuota, PutsUse};
ghost use Rattle.ns_live_index.specs.Naming.{has_room_at, holds_at, is_quota, row_name, total_at};

use keyed::{NameSlot, NameTable};
use ns_types::resources::{Resources, moved, none};
use ns_types::rows::Rows;
use ns_types::text::{Text, same_text};
use std::alloc::{AllocError, Global};

/// The namespaces that name a quota, where a vacant slot is room for one, and the total of what they use. Its sums wrap.
#[derive(Drop)]
pub(crate) struct QuotaUse {
    names: NameTable<()>,
    total: Resources,
}

/// The names of the namespaces, by the quota that they name.
#[derive(Drop)]
pub(crate) struct QuotaNames {
    quotas: NameTable<QuotaUse>,
}

fn is_quota(named: Option<&Text>, quota: &Text) -> bool
    ensures { result ≡ is_quota (option_copied named.entry) quota.now }
{
    match named {
        Some(name) => same_text(quota, name),
        None => false,
    }
}

impl QuotaNames {
    /// No names. It takes no memory.
    pub(crate) fn new(alloc: Global) -> QuotaNames
        ensures { result.quotas ≡ empty }
    {
        QuotaNames {
            quotas: NameTable::new(alloc),
        }
    }

    /// The slots of the quota's namespaces, if it has some.
    pub(crate) fn names_of(&self, quota: &Text) -> Option<&[NameSlot<()>]>
        ensures { option_copied result
            ≡ option_map (λ held. entries held.names) (row_at self.now.quotas quota.now) }
    {
        match self.quotas.get(quota) {
            Some(held) => Some(held.names.as_slice()),
            None => None,
        }
    }

    /// The total that is kept of what the quota's namespaces use.
    pub(crate) fn total_of(&self, quota: &Text) -> Resources
        ensures { result ≡ total_at self.now quota.now }
    {
        match self.quotas.get(quota) {
            Some(held) => held.total,
            None => none(),
        }
    }

    /// Makes a table for the quota, unless there is one. Want of memory is the only error.
    fn open(&mut self, alloc: Global, quota: &Text) -> Result<(), AllocError>
        ensures same { Keeps holds_at has_room_at self.old self.new }
        ensures totals { KeepsTotals self.old self.new }
        ensures ok { OnOk result (IsTrue (is_some (row_at self.new.quotas quota.now))) }
    {
        self.quotas.reserve(quota)?;
        if self.quotas.get(quota).is_none() {
            self.quotas.set(
                quota,
                QuotaUse {
                    names: NameTable::new(alloc),
                    total: none(),
                },
            );
        }
        Ok(())
    }

    /// Makes room for the namespace at the quota. Want of memory is the only error.
    fn reserve_at(
        &mut self,
        alloc: Global,
        quota: &Text,
        namespace: &Text,
    ) -> Result<(), AllocError>
        ensures same { Keeps holds_at has_room_at self.old self.new }
        ensures totals { KeepsTotals self.old self.new }
        ensures ok { OnOk result (IsTrue (has_room_at self.new (quota.now, namespace.now))) }
    {
        self.open(alloc, quota)?;
        if let Some(held) = self.quotas.get_mut(quota) {
            held.names.reserve(namespace)?;
        }
        Ok(())
    }

    /// Makes room for the namespace at the quota that it names, if any. Want of memory is the only error.
    pub(crate) fn reserve(
        &mut self,
        alloc: Global,
        namespace: &Text,
        quota: Option<&Text>,
    ) -> Result<(), AllocError>
        ensures same { HoldsSame self.old self.new }
        ensures ok { OnOk result (
            HasNameRoom self.new namespace.now (option_copied quota.entry)) }
    {
        match quota {
            Some(quota) => self.reserve_at(alloc, quota, namespace),
            None => Ok(()),
        }
    }

    /// Adds the namespace, which uses `used`, to the quota. It takes no memory.
    fn insert(&mut self, quota: &Text, namespace: &Text, used: Resources)
        requires { IsTrue (has_room_at self.old (quota.now, namespace.now)) }
        ensures held { Adds holds_at has_room_at (same_at same_name) (quota.now, namespace.now)
            self.old self.new }
        ensures totals { (use_of : Name → Resources) → AreTotals use_of self.old →
            holds_at self.old (quota.now, namespace.now) ≡ false →
            IsTotal used (use_of namespace.now) → AreTotals use_of self.new }
    {
        if let Some(held) = self.quotas.get_mut(quota) {
            held.names.set(namespace, ());
            held.total = moved(held.total, none(), used);
        }
    }

    /// Adds the namespace, which names no quota so far and uses `used`, to the quota, if there is one. It takes no memory.
    fn add(&mut self, namespace: &Text, quota: Option<&Text>, used: Resources)
        requires { HasNameRoom self.old namespace.now (option_copied quota) }
        ensures { PutsQuota namespace.now None (option_copied quota.entry) used
            self.old self.new }
    {
        if let Some(quota) = quota {
            self.insert(quota, namespace, used);
        }
    }

    /// Removes the namespace, which uses `used`, from the quota. A table goes with its last name. It takes no memory.
    fn remove(&mut self, quota: &Text, namespace: &Text, used: Resources)
        ensures held { Drops holds_at has_room_at (same_at same_name) (quota.now, namespace.now)
            self.old self.new }
        ensures totals { (use_of : Name → Resources) → AreTotals use_of self.old →
            holds_at self.old (quota.now, namespace.now) ≡ true →
            IsTotal used (use_of namespace.now) → AreTotals use_of self.new }
    {
        let Some(held) = self.quotas.get_mut(quota) else {
            return;
        };
        held.names.remove(namespace);
        held.total = moved(held.total, used, none());
        if held.names.as_slice().is_empty() {
            self.quotas.remove(quota);
        }
    }

    /// The namespace, which uses `used`, named the quota `before` and names `after` from now on. It takes no memory.
    pub(crate) fn put(
        &mut self,
        namespace: &Text,
        before: Option<&Text>,
        after: Option<&Text>,
        used: Resources,
    )
        requires { HasNameRoom self.old namespace.now (option_copied after) }
        ensures { PutsQuota namespace.now (option_copied before.entry)
            (option_copied after.entry) used self.old self.new }
    {
        let Some(quota) = before else {
            self.add(namespace, after, used);
            return;
        };
        if !is_quota(after, quota) {
            self.remove(quota, namespace, used);
            self.add(namespace, after, used);
        }
    }

    /// A namespace that names the quota used `before`, and uses `after` from now on. It takes no memory.
    pub(crate) fn put_use(&mut self, quota: &Text, before: Resources, after: Resources)
        ensures { PutsUse quota.now before after self.old self.new }
    {
        if let Some(held) = self.quotas.get_mut(quota) {
            held.total = moved(held.total, before, after);
        }
    }
}

// ---- the namespaces of a quota

fn add_name(names: &mut Rows<Text>, slot: &NameSlot<()>) -> Result<(), AllocError>
    ensures { OnOk result (names.new ≡ names.old ++ row_name slot.now) }
{
    if slot.1.is_some() {
        names.push(slot.0.clone()?)?;
    }
    Ok(())
}

/// Whether there is a name.
pub(crate) fn has_name(slots: &[NameSlot<()>]) -> bool
    ensures { result ≡ list_any (at_slot (λ _. true)) slots.now }
{
    slots.iter().any(|slot| slot.1.is_some())
}

/// The names, in their order. Want of memory is the only error.
pub(crate) fn copied_names(alloc: Global, slots: &[NameSlot<()>]) -> Result<Rows<Text>, AllocError>
    ensures { IfOk result (λ names. names ≡ flat_map row_name slots.now) }
{
    let mut names = Rows::new(alloc);
    for slot in slots {
        add_name(&mut names, slot)?;
    }
    Ok(names)
}
