//! Records of quotas.

ghost use Rattle.ns_change.specs.Changed.{Does, with_record};
ghost use Rattle.ns_tables.specs.declared.tables.Tables.{Tables};

use crate::change::Change;
use ns_types::records::Quota;
use ns_types::text::Text;
use std::alloc::AllocError;

/// Replaces the record of the quota of that name, if there is one. Want of memory is the only error.
pub fn put_quota(change: &mut Change, name: &Text, quota: &Quota) -> Result<(), AllocError>
    ensures { (t : Tables) → Does result t change.old change.new (with_record name.now quota.now) }
{
    change.quotas.reserve(name)?;
    let row = quota.clone()?;
    change.quotas.set(name, row);
    Ok(())
}
