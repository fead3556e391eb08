//! Administrators' commands on quotas.

ghost use Rattle.std.specs.Prelude.{◌≡◌, IfOk, false, true};
ghost use Rattle.ns_types.specs.declared.reply.Content.TheVariants as Content;
ghost use Rattle.ns_types.specs.Asking.Admins.{delete_quota, is_relimited, put_quota, read_quota};
ghost use Rattle.ns_types.specs.Settling.Outcome.{Changes, Done};
ghost use Rattle.ns_types.specs.Steps.{is_past_bound};
ghost use Rattle.ns_change.specs.Changed.{with_record};
ghost use Rattle.ns_change.specs.Prepared.{Prepares, bounded};
ghost use Rattle.ns_admin.specs.Recorded.{PreparesRecord};
ghost use Rattle.ns_admin.specs.Viewed.{content_of_quota};
ghost use Rattle.ns_live_index.specs.Naming.{AreNamed};
ghost use Rattle.ns_tables.specs.World.{world_of};

use crate::looking::is_full;
use crate::record::RecordChange;
use ns_change::{Change, Prepared, prepare};
use ns_counters::given_limits_pass;
use ns_equality::changes_limits;
use ns_live_index::Live;
use ns_tables::Tables;
use ns_types::records::Quota;
use ns_types::refusal::Refusal;
use ns_types::reply::{Content, QuotaShown};
use ns_types::text::Text;
use std::alloc::AllocError;

fn content_of_quota(name: &Text, quota: &Quota) -> Result<Content, AllocError>
    ensures { IfOk result (λ content. content ≡ content_of_quota name.now quota.now) }
{
    Ok(Content::Quota(QuotaShown {
        name: name.clone()?,
        row: quota.clone()?,
    }))
}

/// Prepares a put of a quota, which makes it or replaces its record: the release number stays. `Full` is the only refusal
/// except want of memory, which comes last.
pub fn put_quota(tables: &Tables, name: &Text, quota: &Quota) -> Result<RecordChange, Refusal>
    ensures { PreparesRecord (put_quota name.now quota.now) tables.now result }
{
    if is_full(&tables.quotas, name) {
        return Err(Refusal::Full);
    }
    Ok(RecordChange::Quota(name.clone()?, quota.clone()?))
}

/// Prepares the removal of the quota. `NotFound`: it is not there. `InUse`: the index has a namespace that names it. Want of
/// memory comes last.
pub fn delete_quota(tables: &Tables, live: &Live, name: &Text) -> Result<RecordChange, Refusal>
    requires { AreNamed (world_of tables.now) live.now }
    ensures { PreparesRecord (delete_quota name.now) tables.now result }
{
    if !tables.has_quota(name) {
        return Err(Refusal::NotFound);
    }
    if live.is_named(name) {
        return Err(Refusal::InUse);
    }
    Ok(RecordChange::NoQuota(name.clone()?))
}

/// Reads the quota's record. `NotFound`: there is no such quota.
pub fn read_quota(tables: &Tables, name: &Text) -> Result<Content, Refusal>
    ensures { let w = world_of tables.now in Changes (read_quota name.now w) w result w }
{
    let Some(row) = tables.quotas.get(name) else {
        return Err(Refusal::NotFound);
    };
    let content = content_of_quota(name, &row.quota)?;
    Ok(content)
}

/// Whether a put of this record would change the limits of the quota that is there.
pub fn is_relimited(tables: &Tables, name: &Text, quota: &Quota) -> bool
    ensures { result ≡ is_relimited name.now quota.now (world_of tables.now) }
{
    match tables.quotas.get(name) {
        Some(old) => changes_limits(&old.quota, quota),
        None => false,
    }
}

/// Prepares the replacement of the quota's record, if the quota is there. Nothing else changes.
fn put_alone(tables: &Tables, name: &Text, quota: &Quota) -> Result<Prepared, Refusal>
    ensures { let left = with_record name.now quota.now (world_of tables.now) in
        Prepares (Done Content.Written left) tables.now result }
{
    let mut change = Change::new(tables.alloc);
    let made = ns_change::put_quota(&mut change, name, quota);
    prepare(Content::Written, change, made)
}

/// Prepares a put that changes the limits of a quota. The quota's release, and the evaluations that it wakes, come with the
/// end of the step. `Full`: a counter would pass its bound by that. Want of memory comes last.
pub fn change_limits(tables: &Tables, name: &Text, quota: &Quota) -> Result<Prepared, Refusal>
    requires other { is_relimited name.now quota.now (world_of tables.now) ≡ true }
    requires bounds { is_past_bound (world_of tables.now) ≡ false }
    ensures { let w = world_of tables.now in
        Prepares (bounded w (put_quota name.now quota.now w)) tables.now result }
{
    if given_limits_pass(tables, name) {
        return Err(Refusal::Full);
    }
    put_alone(tables, name, quota)
}
