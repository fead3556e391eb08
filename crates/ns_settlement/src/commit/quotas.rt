//! Puts the changes of quotas into the tables: their records and their release numbers.

ghost use Rattle.std.specs.Prelude.{◌≡◌, ◌+◌, ◌<◌, ◌^◌, true, IfSome};
ghost use Rattle.keyed.specs.Table.{row_at};
ghost use Rattle.ns_change.specs.Changed.{changed_quota};
ghost use Rattle.ns_types.specs.State.Names.{has_name};
ghost use Rattle.ns_settlement.specs.Committed.{CanRise, raised_quota, released_quotas, settled_quotas};
ghost use Rattle.ns_settlement.specs.Owners.{ChangesRow, changed_owners, owners};
ghost use Rattle.ns_tables.specs.World.{quota_of};

use keyed::NameTable;
use ns_equality::has_name;
use ns_tables::QuotaRows;
use ns_types::records::Quota;
use ns_types::text::Text;

/// Raises the quota's release number by one, if the quota is there.
fn raise_quota(table: &mut NameTable<QuotaRows>, name: &Text)
    requires { IfSome (row_at table.old name.now) (λ quota. quota.release + 1 < 2 ^ 64) }
    ensures { ChangesRow (λ a b. b ≡ raised_quota true a) name.now table.old table.new }
{
    if let Some(quota) = table.get_mut(name) {
        quota.release += 1;
    }
}

/// Raises the release number of each of those quotas by one.
fn raise_quotas(table: &mut NameTable<QuotaRows>, released: &[Text])
    requires { CanRise (λ quota. quota.release) (has_name released.now) table.old }
    ensures { owners quota_of table.new
        ≡ released_quotas released.now (owners quota_of table.old) }
{
    for (i, name) in released.iter().enumerate() {
        if !has_name(&released[i + 1..], name) {
            raise_quota(table, name);
        }
    }
}

/// Replaces the quota's record, if the quota is there.
fn put_quota(table: &mut NameTable<QuotaRows>, name: &Text, quota: Quota)
    ensures { ChangesRow (λ a b. quota_of b ≡ changed_quota (quota_of a) quota)
        name.now table.old table.new }
{
    match table.get_mut(name) {
        Some(row) => row.quota = quota,
        None => drop(quota),
    }
}

/// Moves the changed records in. It takes no memory.
fn put_quotas(table: &mut NameTable<QuotaRows>, changes: NameTable<Quota>)
    ensures { owners quota_of table.new
        ≡ changed_owners changed_quota changes (owners quota_of table.old) }
{
    for (name, slot) in changes.into_slots() {
        if let Some(quota) = slot {
            put_quota(table, &name, quota);
        }
    }
}

/// Moves the changed records in, and raises the release number of each released quota by one. It takes no memory.
pub(crate) fn commit_quotas(
    table: &mut NameTable<QuotaRows>,
    changes: NameTable<Quota>,
    released: &[Text],
)
    requires { CanRise (λ quota. quota.release) (has_name released.now) table.old }
    ensures { owners quota_of table.new
        ≡ settled_quotas changes released.now (owners quota_of table.old) }
{
    raise_quotas(table, released);
    put_quotas(table, changes);
}
