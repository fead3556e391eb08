//! Lists by name: of all quotas, and of the namespaces and pools that a secret may see.

ghost use Rattle.std.specs.Prelude.{◌≡◌, IfOk, map};
ghost use Rattle.keyed.specs.Table.{row_list};
ghost use Rattle.ns_types.specs.Asking.Admins.{list_namespaces, list_pools, list_quotas};
ghost use Rattle.ns_admin.specs.Calls.{ListsPassing, ShowsPassing};
ghost use Rattle.ns_admin.specs.Viewed.{namespace_shown, pool_shown, quota_shown};
ghost use Rattle.ns_tables.specs.World.{world_of};

use keyed::NameSlot;
use ns_tables::{PoolRows, QuotaRows, Tables, TenantRows};
use ns_types::reply::{Content, NamespaceShown, PoolShown, QuotaShown};
use ns_types::rows::Rows;
use ns_types::text::Text;
use std::alloc::{AllocError, Global};

/// A row that is listed by name.
trait ListedByName {
    ghost use Rattle.ns_types.specs.State.Names.{Name};

    type Shown: Drop;

    ghost listed: { Name × Self → Self.Shown };

    fn show(&self, name: &Text) -> Result<Self::Shown, AllocError>
        ensures { IfOk result (λ shown. shown ≡ listed (name.now, self.now)) };
}

impl ListedByName for TenantRows {
    type Shown = NamespaceShown;

    ghost listed = { namespace_shown };

    fn show(&self, name: &Text) -> Result<NamespaceShown, AllocError> {
        Ok(NamespaceShown {
            name: name.clone()?,
            row: self.namespace.clone()?,
        })
    }
}

impl ListedByName for PoolRows {
    type Shown = PoolShown;

    ghost listed = { pool_shown };

    fn show(&self, name: &Text) -> Result<PoolShown, AllocError> {
        Ok(PoolShown {
            name: name.clone()?,
            row: self.pool.clone()?,
        })
    }
}

fn show_quotas(alloc: Global, slots: &[NameSlot<QuotaRows>]) -> Result<Rows<QuotaShown>, AllocError>
    ensures { IfOk result (λ shown. shown ≡ map quota_shown (row_list slots.now)) }
{
    let mut shown = Rows::new(alloc);
    let mut rest = slots;
    while let Some(((name, row), others)) = rest.split_first() {
        if let Some(row) = row {
            shown.push(QuotaShown {
                name: name.clone()?,
                row: row.quota.clone()?,
            })?;
        }
        rest = others;
    }
    Ok(shown)
}

/// The rows whose names pass, as lists show them, by name.
fn show_passing<V: ListedByName, F: Fn(&Text) -> bool>(
    alloc: Global,
    slots: &[NameSlot<V>],
    shows: F,
) -> Result<Rows<V::Shown>, AllocError>
    requires { F.IsAlwaysCallable shows }
    ensures { ShowsPassing F.Fn shows V.listed slots.now result }
{
    let mut shown = Rows::new(alloc);
    let mut rest = slots;
    while let Some(((name, row), others)) = rest.split_first() {
        if let Some(found) = row {
            if shows(name) {
                shown.push(found.show(name)?)?;
            }
        }
        rest = others;
    }
    Ok(shown)
}

/// All quotas, by name. Want of memory is the only error.
pub fn list_quotas(tables: &Tables) -> Result<Content, AllocError>
    ensures { IfOk result (λ content. content ≡ list_quotas (world_of tables.now)) }
{
    let shown = show_quotas(tables.alloc, tables.quotas.as_slice())?;
    Ok(Content::Quotas(shown))
}

/// The namespaces whose names pass, by name. Want of memory is the only error.
pub fn list_namespaces<F: Fn(&Text) -> bool>(
    tables: &Tables,
    shows: F,
) -> Result<Content, AllocError>
    requires { F.IsAlwaysCallable shows }
    ensures { ListsPassing F.Fn shows list_namespaces tables.now result }
{
    let shown = show_passing(tables.alloc, tables.tenants.as_slice(), shows)?;
    Ok(Content::Namespaces(shown))
}

/// The pools whose names pass, by name. Want of memory is the only error.
pub fn list_pools<F: Fn(&Text) -> bool>(tables: &Tables, shows: F) -> Result<Content, AllocError>
    requires { F.IsAlwaysCallable shows }
    ensures { ListsPassing F.Fn shows list_pools tables.now result }
{
    let shown = show_passing(tables.alloc, tables.pools.as_slice(), shows)?;
    Ok(Content::Pools(shown))
}
