//! Copies of tables, slot by slot. A vacant slot is not copied.

ghost use Rattle.std.specs.Prelude.{◌≡◌, IfOk};
ghost use Rattle.std.specs.FinMap.{retain_keys};
ghost use Rattle.ns_copies.specs.Chosen.{is_chosen};
ghost use Rattle.ns_copies.specs.Copied.{EachRow, seen_rows};

use crate::choosing::ChosenNames;
use crate::copies::Copies;
use keyed::{NameTable, NumberTable};
use std::alloc::{AllocError, Global};

/// A table with copies of the rows at the chosen names.
pub(crate) fn copied_names<V: Copies>(
    alloc: Global,
    table: &NameTable<V>,
    chosen: ChosenNames<'_>,
) -> Result<NameTable<V>, AllocError>
    requires { EachRow V.IsWhole table.now }
    ensures { IfOk result (λ copy. seen_rows V.seen copy
        ≡ retain_keys (seen_rows V.seen table.now) (is_chosen chosen.entry)) }
{
    let mut slots = Vec::new(alloc);
    for slot in table.as_slice() {
        if let Some(row) = &slot.1 {
            if chosen.has(&slot.0) {
                slots.push((slot.0.clone()?, Some(row.copied(alloc)?)))?;
            }
        }
    }
    Ok(NameTable::from_slots(slots))
}

/// A table with copies of all rows.
pub(crate) fn copied_numbers<V: Copies>(
    alloc: Global,
    table: &NumberTable<V>,
) -> Result<NumberTable<V>, AllocError>
    requires { EachRow V.IsWhole table.now }
    ensures { IfOk result (λ copy. seen_rows V.seen copy ≡ seen_rows V.seen table.now) }
{
    let mut slots = Vec::new(alloc);
    for slot in table.as_slice() {
        if let Some(row) = &slot.1 {
            slots.push((slot.0, Some(row.copied(alloc)?)))?;
        }
    }
    Ok(NumberTable::from_slots(slots))
}
