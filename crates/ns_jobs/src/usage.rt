//! The read of a quota's use.

ghost use Rattle.ns_types.specs.declared.step.AskCommand.TheVariants as AskCommand;
ghost use Rattle.ns_types.specs.State.Names.{Name};
ghost use Rattle.ns_types.specs.State.Resources.{IsCounted};
ghost use Rattle.ns_types.specs.State.Sums.{quota_use};
ghost use Rattle.ns_jobs.specs.Read.{ReadsIn};
ghost use Rattle.ns_live_index.specs.Index.{IsRight};
ghost use Rattle.ns_tables.specs.World.{world_of};

use ns_admin::names_quota;
use ns_live_index::Live;
use ns_tables::{Tables, TenantRows};
use ns_types::refusal::Refusal;
use ns_types::reply::Content;
use ns_types::text::Text;

/// The reply to the read of a quota's use, if the index is right for the tables: it keeps the total of each quota. `NotFound`:
/// the quota is not the namespace's.
pub(crate) fn quota_usage(
    tables: &Tables,
    live: &Live,
    tenant: &TenantRows,
    quota: &Text,
) -> Result<Content, Refusal>
    requires right { IsRight (world_of tables.now) live.now }
    requires fits { IsCounted (quota_use (world_of tables.now) quota.now) }
    ensures { (ns : Name) → ReadsIn ns (AskCommand.QuotaUsage quota.now)
        (world_of tables.now) tenant.now result }
{
    if !names_quota(quota, &tenant.namespace) {
        return Err(Refusal::NotFound);
    }
    let name = quota.clone()?;
    Ok(Content::Usage(name, live.quota_use(quota)))
}
