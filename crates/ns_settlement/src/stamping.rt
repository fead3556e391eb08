//! Gives changed rows their namespace's next index, and makes an event for each.

ghost use Rattle.std.specs.Prelude.{◌≡◌, ◌++◌, true, IfOk, OnOk};
ghost use Rattle.std.specs.Option.{option_map_or};
ghost use Rattle.keyed.specs.Table.{rows};
ghost use Rattle.ns_types.specs.State.Tables.{map_rows};
ghost use Rattle.ns_release.specs.Shown.{changes_job_slot, changes_slot};
ghost use Rattle.ns_settlement.specs.Stamped.{job_topic, made_at, stamped_row, stamped_slot, events_for, topic_at, touches};
ghost use Rattle.ns_tables.specs.World.{tenant_of};

use keyed::{NameSlot, NumberSlot, NumberTable};
use ns_change::TenantChange;
use ns_release::{ShownByNumber, any_job, any_row, changes_job_slot, changes_row, changes_slot};
use ns_tables::TenantRows;
use ns_types::event::{Event, Topic};
use ns_types::job::Job;
use ns_types::rows::Rows;
use ns_types::text::Text;
use std::alloc::AllocError;

/// Adds an event for each changed row, by number.
pub fn publish_rows<R: ShownByNumber>(
    events: &mut Rows<Event>,
    before: &NumberTable<R>,
    index: u64,
    slots: &[NumberSlot<R>],
) -> Result<(), AllocError>
    ensures { OnOk result (events.new ≡ events.old
        ++ events_for index (topic_at R.kind) (changes_slot R.kind (rows before.now)) slots.now) }
{
    for slot in slots {
        if changes_slot(before, slot) {
            let topic = R::topic(slot.0);
            events.push(Event { index, topic })?;
        }
    }
    Ok(())
}

/// The index at which the row was made.
fn made_at<R: ShownByNumber>(before: &NumberTable<R>, index: u64, number: u64) -> u64
    ensures { result ≡ made_at R.kind index (rows before.now) number }
{
    match before.get(number) {
        Some(old) => old.made(),
        None => index,
    }
}

/// Gives the row the index, if replies show it differently than before.
fn stamp<R: ShownByNumber>(before: &NumberTable<R>, index: u64, number: u64, row: &mut R)
    ensures { row.new ≡ stamped_row R.kind index (rows before.now) number row.old }
{
    if changes_row(before, number, row) {
        row.mark(made_at(before, index, number), index);
    }
}

fn stamp_slot<R: ShownByNumber>(before: &NumberTable<R>, index: u64, slot: &mut NumberSlot<R>)
    ensures { slot.new
        ≡ (slot.old.0, stamped_slot R.kind index (rows before.now) slot.old.0 slot.old.1) }
{
    let number = slot.0;
    if let Some(row) = &mut slot.1 {
        stamp(before, index, number, row);
    }
}

/// The changed rows with the index.
pub fn stamp_rows<R: ShownByNumber>(
    before: &NumberTable<R>,
    index: u64,
    changes: NumberTable<R>,
) -> NumberTable<R>
    ensures { result ≡ map_rows (stamped_slot R.kind index (rows before.now)) changes }
{
    let mut slots = changes.into_slots();
    for slot in slots.iter_mut() {
        stamp_slot(before, index, slot);
    }
    NumberTable::from_slots(slots)
}

// ---- jobs

fn is_deregistered(slot: &NameSlot<Job>) -> bool
    ensures { result ≡ option_map_or (λ job. job.stop) slot.now.1 true }
{
    match &slot.1 {
        Some(job) => job.stop,
        None => true,
    }
}

fn job_topic(slot: &NameSlot<Job>) -> Result<Topic, AllocError>
    ensures { IfOk result (λ topic. topic ≡ job_topic slot.now) }
{
    let id = slot.0.clone()?;
    if is_deregistered(slot) {
        Ok(Topic::JobDeregistered(id))
    } else {
        Ok(Topic::JobRegistered(id))
    }
}

/// Adds an event for each changed job, by id.
pub fn publish_jobs(
    events: &mut Rows<Event>,
    tenant: &TenantRows,
    index: u64,
    slots: &[NameSlot<Job>],
) -> Result<(), AllocError>
    ensures { OnOk result (events.new ≡ events.old
        ++ events_for index job_topic (changes_job_slot (tenant_of tenant.now)) slots.now) }
{
    for slot in slots {
        if changes_job_slot(tenant, slot) {
            let topic = job_topic(slot)?;
            events.push(Event { index, topic })?;
        }
    }
    Ok(())
}

// ---- whether replies show a changed row

/// Whether the change has a row that is new, removed or shown differently than before, so that the namespace gets an index.
pub fn touches(tenant: &TenantRows, change: &TenantChange) -> bool
    ensures { result ≡ touches (tenant_of tenant.now) change.now }
{
    any_job(tenant, change.jobs.as_slice())
        || any_row(tenant.evaluations.rows(), change.evaluations.as_slice())
        || any_row(tenant.allocations.rows(), change.allocations.as_slice())
}
