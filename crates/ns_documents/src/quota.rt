//! The document of a quota.

ghost use Rattle.std.specs.Prelude.{◌≡◌, None, IfOk, IfErr, IsTrue, option_copied};
ghost use Rattle.serde_json.specs.View.{view};
ghost use Rattle.ns_types.specs.declared.resources.Limit.TheVariants.{Unlimited};
ghost use Rattle.ns_types.specs.State.Limits.{is_good_quota};
ghost use Rattle.ns_types.specs.State.Resources.{unlimited};
ghost use Rattle.ns_json.specs.Reading.{Gives, same, present, or_else, body_in, IsOfDocument};
ghost use Rattle.ns_documents.specs.Members.{IsNamedWell};
ghost use Rattle.ns_documents.specs.Records.{limit_of, limit_in, region_limit_in, region_in, entry_in, entries_in, quota_in};

use crate::members::{description, named};
use ns_json::member::{document, list, object, present, read_json, text};
use ns_types::name::NameKind;
use ns_types::records::Quota;
use ns_types::refusal::{Member, Refusal};
use ns_types::resources::{Limit, Limits, unlimited};
use ns_types::text::Text;
use serde_json::Value;
use std::alloc::Global;

#[derive(Drop)]
pub struct NamedQuota {
    pub name: Text,
    pub quota: Quota,
}

const MAX_LIMIT: u64 = 1 << 53;

fn limit_of(number: i64) -> Option<Limit>
    ensures { result ≡ limit_of number }
{
    match number {
        -1 => Some(Limit::Nothing),
        0 => Some(Limit::Unlimited),
        _ if number > 0 && number.unsigned_abs() <= MAX_LIMIT => {
            Some(Limit::AtMost(number.unsigned_abs()))
        }
        _ => None,
    }
}

#[tactic(auto, unfolding(crate::specs::Records::limit_in))]
fn limit(value: &Value, member: Member) -> Result<Limit, Refusal>
    ensures { Gives same result (limit_in member (view value.now)) }
{
    match value.as_i64() {
        None => Err(Refusal::BadField(member)),
        Some(number) => limit_of(number).ok_or(Refusal::BadField(member)),
    }
}

fn limit_or_unlimited(object: &Value, member: Member) -> Result<Limit, Refusal>
    ensures { Gives same result
        (or_else Unlimited (limit_in member) (present member (view object.now))) }
{
    match present(object, member) {
        None => Ok(Limit::Unlimited),
        Some(value) => limit(value, member),
    }
}

#[tactic(auto, unfolding(crate::specs::Records::region_limit_in))]
fn region_limit(value: &Value) -> Result<Limits, Refusal>
    ensures { Gives same result (region_limit_in (view value.now)) }
{
    let region_limit = object(value, Member::RegionLimit)?;
    let cpu = limit_or_unlimited(region_limit, Member::Cpu)?;
    let memory = limit_or_unlimited(region_limit, Member::MemoryMb)?;
    let disk = limit_or_unlimited(region_limit, Member::DiskMb)?;
    Ok(Limits { cpu, memory, disk })
}

fn region_limit_or_unlimited(entry: &Value) -> Result<Limits, Refusal>
    ensures { Gives same result
        (or_else unlimited region_limit_in (present Member.RegionLimit (view entry.now))) }
{
    match present(entry, Member::RegionLimit) {
        None => Ok(unlimited()),
        Some(value) => region_limit(value),
    }
}

/// Refuses any region but `global`.
#[tactic(auto, unfolding(crate::specs::Records::region_in))]
fn global_region(value: &Value) -> Result<(), Refusal>
    ensures { Gives (λ u. tt) result (region_in (view value.now)) }
{
    if text(value, Member::Region)? == "global" {
        Ok(())
    } else {
        Err(Refusal::BadField(Member::Region))
    }
}

fn global_region_if_any(entry: &Value) -> Result<(), Refusal>
    ensures { Gives (λ u. tt) result
        (or_else tt region_in (present Member.Region (view entry.now))) }
{
    match present(entry, Member::Region) {
        None => Ok(()),
        Some(value) => global_region(value),
    }
}

#[tactic(auto, unfolding(crate::specs::Records::entry_in))]
fn entry(value: &Value) -> Result<Limits, Refusal>
    ensures { Gives same result (entry_in (view value.now)) }
{
    let entry = object(value, Member::Limits)?;
    global_region_if_any(entry)?;
    region_limit_or_unlimited(entry)
}

/// The limits in the only entry of the list. None if the list is empty.
#[tactic(auto, unfolding(crate::specs::Records::entries_in))]
fn entries(value: &Value) -> Result<Option<Limits>, Refusal>
    ensures { Gives same result (entries_in (view value.now)) }
{
    match list(value, Member::Limits, 0, 1)?.first() {
        None => Ok(None),
        Some(first) => {
            let limits = entry(first)?;
            Ok(Some(limits))
        }
    }
}

fn entries_or_none(document: &Value) -> Result<Option<Limits>, Refusal>
    ensures { Gives same result
        (or_else None entries_in (present Member.Limits (view document.now))) }
{
    match present(document, Member::Limits) {
        None => Ok(None),
        Some(value) => entries(value),
    }
}

#[tactic(auto, unfolding(crate::specs::Records::quota_in))]
fn quota(alloc: Global, path_name: Option<&Text>, value: &Value) -> Result<NamedQuota, Refusal>
    ensures { Gives same result (quota_in (option_copied path_name.entry) (view value.now)) }
{
    let top = document(value)?;
    let name = named(alloc, NameKind::Quota, path_name, top)?;
    let description = description(alloc, top)?;
    let limits = entries_or_none(top)?;
    Ok(NamedQuota {
        name,
        quota: Quota {
            description,
            limits,
        },
    })
}

/// The quota that the body describes, or the first refusal. Its name is the path's, if the path has one.
#[tactic(auto, unfolding(ns_json::specs::Reading::body_in))]
pub fn read_quota(
    alloc: Global,
    path_name: Option<&Text>,
    body: &[u8],
) -> Result<NamedQuota, Refusal>
    ensures value { Gives same result
        (body_in (quota_in (option_copied path_name.entry)) body.now) }
    // What is read is within the limits, and so is the name if the path's is.
    ensures good { IfOk result (λ d. IsTrue (is_good_quota d.quota)) }
    ensures name { IfOk result (λ d.
        IsNamedWell NameKind.Quota (option_copied path_name.entry) d.name) }
    // What the refusal can be.
    ensures kinds { IfErr result IsOfDocument }
{
    quota(alloc, path_name, &read_json(alloc, body)?)
}
