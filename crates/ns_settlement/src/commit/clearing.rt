//! Takes out vacant slots that are no longer needed.

ghost use Rattle.std.specs.Prelude.{◌≡◌};
ghost use Rattle.keyed.specs.Table.{rows};
ghost use Rattle.ns_settlement.specs.Committed.{IsCleared};

use keyed::{NameTable, NumberTable};
use ns_tables::{AllocationTable, EvaluationTable};
use ns_types::allocation::Allocation;
use ns_types::evaluation::Evaluation;

/// Takes the vacant slots of the changed rows out.
pub(crate) fn clear_names<V: Drop>(table: &mut NameTable<V>, changes: &NameTable<V>)
    ensures rows { rows table.new ≡ rows table.old }
    ensures cleared { IsCleared changes.now table.new }
{
    for slot in changes.as_slice() {
        table.clear_slot(&slot.0);
    }
}

/// Takes the vacant slots of the changed rows out.
pub(crate) fn clear_numbers<V: Drop>(table: &mut NumberTable<V>, changes: &NumberTable<V>)
    ensures rows { rows table.new ≡ rows table.old }
    ensures cleared { IsCleared changes.now table.new }
{
    for slot in changes.as_slice() {
        table.clear_slot(slot.0);
    }
}

/// Takes the vacant slots of the changed evaluations out.
pub(crate) fn clear_evaluations(table: &mut EvaluationTable, changes: &NumberTable<Evaluation>)
    ensures rows { rows table.new.slots ≡ rows table.old.slots }
    ensures cleared { IsCleared changes.now table.new.slots }
{
    for slot in changes.as_slice() {
        table.clear_slot(slot);
    }
}

/// Takes the vacant slots of the changed allocations out.
pub(crate) fn clear_allocations(table: &mut AllocationTable, changes: &NumberTable<Allocation>)
    ensures rows { rows table.new.slots ≡ rows table.old.slots }
    ensures cleared { IsCleared changes.now table.new.slots }
{
    for slot in changes.as_slice() {
        table.clear_slot(slot);
    }
}
