//! Rows of tables that hold ten thousand at most.

ghost use Rattle.std.specs.Prelude.{◌≡◌, OnOk, OnErr, nat_le};
ghost use Rattle.std.specs.FinMap.{contains_key, insert, len};
ghost use Rattle.keyed.specs.Table.{rows};
ghost use Rattle.ns_types.specs.Asking.Admins.{is_full, most_rows};

use keyed::NameTable;
use ns_types::acl::Policy;
use ns_types::text::Text;
use std::alloc::AllocError;

/// How many rows a table has at most.
const MOST_ROWS: usize = 10_000;

pub(crate) fn has_row<V: Drop>(table: &NameTable<V>, key: &Text) -> bool
    ensures { result ≡ contains_key (rows table.now) key.now }
{
    table.get(key).is_some()
}

/// Whether there is no room for a new row.
pub(crate) fn has_no_room<V: Drop>(table: &NameTable<V>) -> bool
    ensures { result ≡ nat_le most_rows (len (rows table.now)) }
{
    table.len() >= MOST_ROWS
}

/// Whether `key` is new and there is no room for a new row.
pub(crate) fn is_full<V: Drop>(table: &NameTable<V>, key: &Text) -> bool
    ensures { result ≡ is_full (rows table.now) key.now }
{
    !has_row(table, key) && has_no_room(table)
}

/// Writes the row at `key`, or leaves the rows as they are.
pub(crate) fn put<V: Drop>(table: &mut NameTable<V>, key: &Text, row: V) -> Result<(), AllocError>
    ensures ok { OnOk result (rows table.new ≡ insert (rows table.old) key.now row) }
    ensures err { OnErr result (rows table.new ≡ rows table.old) }
{
    table.reserve(key)?;
    table.set(key, row);
    Ok(())
}

/// Writes a copy of the policy, or leaves the rows as they are.
pub(crate) fn write_policy(
    policies: &mut NameTable<Policy>,
    name: &Text,
    policy: &Policy,
) -> Result<(), AllocError>
    ensures ok { OnOk result (rows policies.new ≡ insert (rows policies.old) name.now policy.now) }
    ensures err { OnErr result (rows policies.new ≡ rows policies.old) }
{
    let copy = policy.clone()?;
    put(policies, name, copy)
}
