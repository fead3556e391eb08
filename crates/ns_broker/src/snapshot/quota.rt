//! The namespace's quota, as a snapshot has it.

ghost use Rattle.std.specs.Prelude.{◌≡◌, IfOk};
ghost use Rattle.std.specs.Option.{option_and_then};
ghost use Rattle.ns_types.specs.State.Resources.{IsCounted, limits_in};
ghost use Rattle.ns_types.specs.State.Sums.{quota_use};
ghost use Rattle.ns_types.specs.Working.Snapshot.{namespaces_naming, quota_seen};
ghost use Rattle.ns_live_index.specs.Index.{IsRight};
ghost use Rattle.ns_broker.specs.Seen.{UseOfFits};
ghost use Rattle.ns_tables.specs.World.{tenant_of, world_of};

use ns_equality::limits_in;
use ns_live_index::Live;
use ns_tables::{QuotaRows, Tables, TenantRows};
use ns_types::snapshot::QuotaSeen;
use ns_types::text::Text;
use std::alloc::AllocError;

fn seen(tables: &Tables, live: &Live, name: &Text, row: &QuotaRows) -> Result<QuotaSeen, AllocError>
    requires right { IsRight (world_of tables.now) live.now }
    requires fits { IsCounted (quota_use (world_of tables.now) name.now) }
    ensures { IfOk result (λ seen. seen ≡ record {
      name = name.now;
      limits = limits_in row.now.quota.limits;
      used = quota_use (world_of tables.now) name.now;
      release = row.now.release;
      namespaces = namespaces_naming (world_of tables.now) name.now;
    }) }
{
    Ok(QuotaSeen {
        name: name.clone()?,
        limits: limits_in(&row.quota),
        used: live.quota_use(name),
        release: row.release,
        namespaces: live.namespaces_naming(name)?,
    })
}

/// The quota of that name, as a snapshot has it. None: there is no such quota.
fn quota_seen(tables: &Tables, live: &Live, name: &Text) -> Result<Option<QuotaSeen>, AllocError>
    requires right { IsRight (world_of tables.now) live.now }
    requires fits { IsCounted (quota_use (world_of tables.now) name.now) }
    ensures { IfOk result (λ seen. seen ≡ quota_seen (world_of tables.now) name.now) }
{
    match tables.quotas.get(name) {
        Some(row) => Ok(Some(seen(tables, live, name, row)?)),
        None => Ok(None),
    }
}

/// The namespace's quota, with its use and the namespaces that name it. It looks at no other namespace. None: the namespace
/// names no quota, or one that is not there.
pub(crate) fn quota_for(
    tables: &Tables,
    live: &Live,
    tenant: &TenantRows,
) -> Result<Option<QuotaSeen>, AllocError>
    requires right { IsRight (world_of tables.now) live.now }
    requires fits { UseOfFits (world_of tables.now) (tenant_of tenant.now) }
    ensures { IfOk result (λ seen. seen
        ≡ option_and_then (quota_seen (world_of tables.now)) tenant.now.namespace.quota) }
{
    match &tenant.namespace.quota {
        Some(name) => quota_seen(tables, live, name),
        None => Ok(None),
    }
}
