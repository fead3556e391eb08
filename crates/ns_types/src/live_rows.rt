//! The live allocations of a node, kept so that two such lists are compared at little cost.

ghost use Rattle.std.specs.Prelude.{◌≡◌, ◌++◌, ◌∷◌, ◌≤◌, [], IfOk, IfSome, OnErr, OnOk, Some, SomeIff, length, map, slice_get, take, true};
ghost use Rattle.std.specs.Bool.{OnTrue};
ghost use Rattle.ns_types.specs.Working.Owners.{IsLoad, KeepsNames, without_name};
ghost use Rattle.std.specs.List.{All};
ghost use Rattle.ns_types.specs.State.Resources.{IsCounted, plus};
ghost use Rattle.ns_types.specs.declared.resources.Resources.{Resources};

use crate::resources::{Resources, checked_plus, none};
use crate::shared::Shared;
use crate::snapshot::LiveAllocation;
use crate::text::{Text, same_text};
use std::alloc::{AllocError, Global};
use std::marker::Model;

/// How many of the last names the name of a new row is compared with.
const RECENT: usize = 8;

/// Live allocations in the order in which they were placed. Contracts see them as a list. The names of their namespaces are in
/// a list of their own, in which a name may occur twice, and each allocation has the place of its name there. If two such
/// lists have equal names and equal places, their allocations have equal namespaces, and no name is compared for each
/// allocation.
pub struct LiveRows {
    rows: Vec<LiveAllocation>,
    names: Vec<Shared<Text>>,
    owners: Vec<usize>,
    /// What the allocations take together. None if it is past 64 bits.
    load: Option<Resources>,
    /// No allocation has a lower priority.
    least: u64,
}

impl Drop for LiveRows {
    fn drop(self) {
        let LiveRows {
            rows: _rows,
            names: _names,
            owners: _owners,
            load: _,
            least: _,
        } = self;
    }
}

impl Model for LiveRows {
    ghost use Rattle.std.specs.Prelude.{List};
    ghost use Rattle.std.specs.Prelude.{◌≤◌};
    ghost use Rattle.std.specs.List.{All};
    ghost use Rattle.ns_types.specs.Working.Owners.{AreOwned, IsLoad};
    ghost use Rattle.ns_types.specs.declared.snapshot.LiveAllocation.{LiveAllocation};

    ghost Value = { List LiveAllocation };

    ghost view = { λ l. l.rows.items };

    ghost invariant = { λ l. AreOwned l.names.items l.owners.items l.rows.items
        × IsLoad l.rows.items l.load
        × All (λ a. l.least ≤ a.priority) l.rows.items };
}

/// The place of the name, if it is one of the last `RECENT`.
fn recent(names: &[Shared<Text>], name: &Text) -> Option<usize>
    ensures { IfSome result (λ place. slice_get names.now place ≡ Some name.now) }
{
    let mut place = names.len();
    let least = place.saturating_sub(RECENT);
    while least < place {
        place -= 1;
        if same_text(names[place].get(), name) {
            return Some(place);
        }
    }
    None
}

/// The place of the name, which is put at the end if it is not one of the last `RECENT`. Want of memory is the only error.
fn owner_of(names: &mut Vec<Shared<Text>>, name: &Shared<Text>) -> Result<usize, AllocError>
    ensures kept { KeepsNames names.old.items names.new.items }
    ensures ok { IfOk result (λ place. slice_get names.new.items place ≡ Some name.now) }
{
    if let Some(place) = recent(names.as_slice(), name.get()) {
        return Ok(place);
    }
    let place = names.len();
    names.push(name.share()?)?;
    Ok(place)
}

/// The same names, which get one more owner each and are not copied.
fn shared_names(alloc: Global, names: &[Shared<Text>]) -> Result<Vec<Shared<Text>>, AllocError>
    ensures { IfOk result (λ shared. shared.items ≡ names.now) }
{
    let mut shared = Vec::with_capacity(alloc, names.len())?;
    for name in names {
        shared.push(name.share()?)?;
    }
    Ok(shared)
}

fn copied_row(row: &LiveAllocation) -> Result<LiveAllocation, AllocError>
    ensures { IfOk result (λ copy. copy ≡ row.now) }
{
    Ok(LiveAllocation {
        namespace: row.namespace.share()?,
        number: row.number,
        priority: row.priority,
        size: row.size,
    })
}

/// A copy of the rows, with memory for `most` of them.
fn copied_rows(
    alloc: Global,
    rows: &[LiveAllocation],
    most: usize,
) -> Result<Vec<LiveAllocation>, AllocError>
    ensures { IfOk result (λ copy. copy.items ≡ rows.now) }
{
    let mut copy = Vec::with_capacity(alloc, most)?;
    for row in rows {
        copy.push(copied_row(row)?)?;
    }
    Ok(copy)
}

/// A copy of the places, with memory for `most` of them.
fn copied_owners(alloc: Global, owners: &[usize], most: usize) -> Result<Vec<usize>, AllocError>
    ensures { IfOk result (λ copy. copy.items ≡ owners.now) }
{
    let mut copy = Vec::with_capacity(alloc, most)?;
    copy.extend_from_slice(owners)?;
    Ok(copy)
}

/// Whether both lists have the same names in the same order.
fn same_names(a: &[Shared<Text>], b: &[Shared<Text>]) -> bool
    ensures { OnTrue result (a.now ≡ b.now) }
{
    if a.len() != b.len() {
        return false;
    }
    for i in 0..a.len() {
        if !same_text(a[i].get(), b[i].get()) {
            return false;
        }
    }
    true
}

/// Whether both have the same number, priority and size.
fn same_but_name(a: &LiveAllocation, b: &LiveAllocation) -> bool
    ensures { OnTrue result (without_name a.now ≡ without_name b.now) }
{
    a.number == b.number && a.priority == b.priority && a.size == b.size
}

/// The load with one more allocation of that size. None if it is past 64 bits.
fn with_size(load: Option<Resources>, size: Resources) -> Option<Resources>
    ensures { (sum : Resources) → SomeIff load (IsCounted sum) sum →
        SomeIff result (IsCounted (plus sum size)) (plus sum size) }
{
    match load {
        Some(load) => checked_plus(load, size),
        None => None,
    }
}

impl LiveRows {
    /// An empty list. It takes no memory.
    pub fn new(alloc: Global) -> LiveRows
        ensures { result ≡ [] }
    {
        LiveRows {
            rows: Vec::new(alloc),
            names: Vec::new(alloc),
            owners: Vec::new(alloc),
            load: Some(none()),
            least: u64::MAX,
        }
    }

    /// An empty list, with memory for `most` rows. Want of memory is the only error.
    pub fn with_capacity(alloc: Global, most: usize) -> Result<LiveRows, AllocError>
        ensures { IfOk result (λ rows. rows ≡ []) }
    {
        Ok(LiveRows {
            rows: Vec::with_capacity(alloc, most)?,
            names: Vec::new(alloc),
            owners: Vec::with_capacity(alloc, most)?,
            load: Some(none()),
            least: u64::MAX,
        })
    }

    /// A copy of the rows, with memory for `more` rows beside them. Want of memory is the only error.
    pub fn copied(&self, alloc: Global, more: usize) -> Result<LiveRows, AllocError>
        ensures { IfOk result (λ copy. copy ≡ self.now) }
    {
        let most = self.rows.len().saturating_add(more);
        Ok(LiveRows {
            rows: copied_rows(alloc, self.rows.as_slice(), most)?,
            names: shared_names(alloc, self.names.as_slice())?,
            owners: copied_owners(alloc, self.owners.as_slice(), most)?,
            load: self.load,
            least: self.least,
        })
    }

    pub fn as_slice(&self) -> &[LiveAllocation]
        ensures { result.now ≡ self.now }
    {
        self.rows.as_slice()
    }

    /// What the allocations take together. None if it is past 64 bits. It reads no allocation.
    pub fn load(&self) -> Option<Resources>
        ensures { IsLoad self.now result }
    {
        self.load
    }

    /// A priority below which no allocation is. It reads no allocation.
    pub fn least_priority(&self) -> u64
        ensures { All (λ a. result ≤ a.priority) self.now }
    {
        self.least
    }

    /// Puts a row at the end. Want of memory is the only error.
    pub fn push(&mut self, row: LiveAllocation) -> Result<(), AllocError>
        ensures ok { OnOk result (self.new ≡ self.old ++ row ∷ []) }
        ensures err { OnErr result (self.new ≡ self.old) }
    {
        let owner = match owner_of(&mut self.names, &row.namespace) {
            Ok(owner) => owner,
            Err(refused) => {
                drop(row);
                return Err(refused);
            }
        };
        if self.owners.reserve(1).is_err() {
            drop(row);
            return Err(AllocError);
        }
        let (size, priority) = (row.size, row.priority);
        self.rows.push(row)?;
        self.owners.push_reserved(owner);
        self.load = with_size(self.load, size);
        self.least = self.least.min(priority);
        Ok(())
    }

    /// Whether both have equal rows and equal lists of names. It compares no name for each row. If it returns false, the rows
    /// may still be equal.
    pub fn is_like(&self, other: &LiveRows) -> bool
        ensures { OnTrue result (self.now ≡ other.now) }
    {
        if self.rows.len() != other.rows.len() || self.owners.len() != other.owners.len() {
            return false;
        }
        if !same_names(self.names.as_slice(), other.names.as_slice()) {
            return false;
        }
        self.owners.as_slice() == other.owners.as_slice() && self.has_like(other)
    }

    /// Whether the rows at the same places have the same numbers, priorities and sizes.
    fn has_like(&self, other: &LiveRows) -> bool
        requires { length self.now ≡ length other.now }
        ensures { OnTrue result (map without_name self.now ≡ map without_name other.now) }
    {
        for i in 0..self.rows.len() {
            if !same_but_name(&self.rows[i], &other.rows[i]) {
                return false;
            }
        }
        true
    }
}
