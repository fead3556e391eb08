//! Which changed rows replies show differently than before.

ghost use Rattle.std.specs.Prelude.{◌≡◌};
ghost use Rattle.std.specs.List.{list_any};
ghost use Rattle.std.specs.FinMap.{contains_key, get};
ghost use Rattle.keyed.specs.Table.{rows};
ghost use Rattle.ns_types.specs.Settling.Same.{same_job};
ghost use Rattle.ns_types.specs.Settling.Settle.{is_changed};
ghost use Rattle.ns_release.specs.Shown.{Kind, allocations_shown, changes_job_slot, changes_row, changes_slot};
ghost use Rattle.ns_release.specs.Shown.{evaluations_shown};
ghost use Rattle.ns_tables.specs.World.{tenant_of};

use keyed::{NameSlot, NumberSlot, NumberTable};
use ns_equality::{same_allocation, same_evaluation, same_job};
use ns_tables::TenantRows;
use ns_types::allocation::Allocation;
use ns_types::evaluation::Evaluation;
use ns_types::event::Topic;
use ns_types::job::Job;
use ns_types::text::Text;

/// A kind of row that replies show, and that a namespace has by number.
pub trait ShownByNumber: Drop {
    /// How replies show this kind of row.
    ghost kind: { Kind Self };

    /// Whether replies show both rows alike.
    fn is_alike(&self, other: &Self) -> bool
        ensures { result ≡ kind.same self.now other.now };

    /// The index at which the row was made.
    fn made(&self) -> u64
        ensures { result ≡ kind.made self.now };

    /// Sets the index at which the row was made and the index of its last change.
    fn mark(&mut self, made: u64, index: u64)
        ensures { self.new ≡ kind.marked made index self.old };

    /// The topic of the event of the row with that number.
    fn topic(number: u64) -> Topic
        ensures { result ≡ kind.topic number };
}

impl ShownByNumber for Evaluation {
    ghost kind = { evaluations_shown };

    fn is_alike(&self, other: &Evaluation) -> bool {
        same_evaluation(self, other)
    }

    fn made(&self) -> u64 {
        self.create_index
    }

    fn mark(&mut self, made: u64, index: u64) {
        self.create_index = made;
        self.modify_index = index;
    }

    fn topic(number: u64) -> Topic {
        Topic::EvaluationUpdated(number)
    }
}

impl ShownByNumber for Allocation {
    ghost kind = { allocations_shown };

    fn is_alike(&self, other: &Allocation) -> bool {
        same_allocation(self, other)
    }

    fn made(&self) -> u64 {
        self.create_index
    }

    fn mark(&mut self, made: u64, index: u64) {
        self.create_index = made;
        self.modify_index = index;
    }

    fn topic(number: u64) -> Topic {
        Topic::AllocationUpdated(number)
    }
}

/// Whether the row is new, or replies show it differently than before.
pub fn changes_row<R: ShownByNumber>(before: &NumberTable<R>, number: u64, row: &R) -> bool
    ensures { result ≡ changes_row R.kind (rows before.now) number row.now }
{
    match before.get(number) {
        Some(old) => !old.is_alike(row),
        None => true,
    }
}

/// Whether the slot has a row that is new, or that replies show differently than before.
pub fn changes_slot<R: ShownByNumber>(before: &NumberTable<R>, slot: &NumberSlot<R>) -> bool
    ensures { result ≡ changes_slot R.kind (rows before.now) slot.now }
{
    match &slot.1 {
        Some(row) => changes_row(before, slot.0, row),
        None => false,
    }
}

/// Whether one of the slots has a row that is new, or that replies show differently than before.
pub fn any_row<R: ShownByNumber>(before: &NumberTable<R>, slots: &[NumberSlot<R>]) -> bool
    ensures { result ≡ list_any (changes_slot R.kind (rows before.now)) slots.now }
{
    slots.iter().any(|slot| changes_slot(before, slot))
}

// ---- jobs

/// Whether the job is new, or replies show it differently than before.
fn changes_job(tenant: &TenantRows, id: &Text, row: &Job) -> bool
    ensures { result ≡ is_changed same_job (get (tenant_of tenant.now).jobs id.now) row.now }
{
    match tenant.jobs.get(id) {
        Some(old) => !same_job(old, row),
        None => true,
    }
}

fn has_job(tenant: &TenantRows, id: &Text) -> bool
    ensures { result ≡ contains_key (tenant_of tenant.now).jobs id.now }
{
    match tenant.jobs.get(id) {
        Some(_) => true,
        None => false,
    }
}

/// Whether the job is new, shown differently, or removed.
pub fn changes_job_slot(tenant: &TenantRows, slot: &NameSlot<Job>) -> bool
    ensures { result ≡ changes_job_slot (tenant_of tenant.now) slot.now }
{
    match &slot.1 {
        Some(row) => changes_job(tenant, &slot.0, row),
        None => has_job(tenant, &slot.0),
    }
}

/// Whether one of the slots has a job that is new, shown differently, or removed.
pub fn any_job(tenant: &TenantRows, slots: &[NameSlot<Job>]) -> bool
    ensures { result ≡ list_any (changes_job_slot (tenant_of tenant.now)) slots.now }
{
    slots.iter().any(|slot| changes_job_slot(tenant, slot))
}
