//! Puts changes into the rows of owners: a namespace or a pool owns rows. Room is made first; then nothing can fail.

ghost use Rattle.std.specs.Prelude.{◌≡◌, IfSome, OnOk};
ghost use Rattle.keyed.specs.Table.{row_at};
ghost use Rattle.ns_settlement.specs.Owners.{ChangesRow, EachChanged, changed_owners, owners};

use keyed::{Bounded, NameTable, OwnerTable};
use ns_types::text::Text;
use std::alloc::AllocError;

/// An owner of rows, and how a change of its rows is put into it.
pub(crate) trait Owner<OwnerChange: Drop>: Drop {
    /// The owner as the model has it, without vacant slots and room.
    ghost Seen: { Type 0 };

    ghost seen: { Self → Seen };

    /// The owner as the change leaves it.
    ghost changed: { Seen → OwnerChange → Seen };

    /// Whether the change can be made where there is room.
    ghost CanChange: { OwnerChange → Self → Type 0 };

    /// Whether there is room for the change.
    ghost HasRoom: { OwnerChange → Self → Type 0 };

    /// Whether no changed row has a vacant slot.
    ghost IsCleared: { OwnerChange → Self → Type 0 };

    /// Makes room for each changed row. If that is refused, the rows are as they were.
    fn reserve(&mut self, change: &OwnerChange) -> Result<(), AllocError>
        requires { CanChange change.now self.old }
        ensures rows { seen self.new ≡ seen self.old }
        ensures room { OnOk result (HasRoom change.now self.new) };

    /// Takes the vacant slots of the changed rows out again.
    fn clear(&mut self, change: &OwnerChange)
        ensures rows { seen self.new ≡ seen self.old }
        ensures cleared { IsCleared change.now self.new };

    /// Moves the changed rows in. It takes no memory.
    fn commit(&mut self, change: OwnerChange)
        requires { HasRoom change self.old }
        ensures { seen self.new ≡ changed (seen self.old) change };

    /// `CanChange` does not depend on vacant slots and room.
    ghost carries: { (x : OwnerChange) (a b : Self) → seen b ≡ seen a →
        CanChange x a → CanChange x b };
}

/// Makes room for the owner's change, if the owner is there.
fn reserve_one<OwnerChange: Drop, Row: Owner<OwnerChange> + Bounded>(
    table: &mut OwnerTable<Row>,
    name: &Text,
    change: &OwnerChange,
) -> Result<(), AllocError>
    requires { IfSome (row_at table.old name.now) (Row.CanChange change.now) }
    ensures rows { ChangesRow (λ a b. Row.seen b ≡ Row.seen a) name.now table.old table.new }
    ensures room { OnOk result (IfSome (row_at table.new name.now) (Row.HasRoom change.now)) }
{
    let before = table.may_be_at_bound();
    let Some(row) = table.get_mut(name) else {
        table.note(before);
        return Ok(());
    };
    let reserved = row.reserve(change);
    let at_bound = row.is_at_bound();
    table.note(before | at_bound);
    reserved
}

/// Makes room for the changes of all owners. If that is refused, the owners are as they were.
pub(crate) fn reserve_all<OwnerChange: Drop, Row: Owner<OwnerChange> + Bounded>(
    table: &mut OwnerTable<Row>,
    changes: &NameTable<OwnerChange>,
) -> Result<(), AllocError>
    requires { EachChanged Row.CanChange changes.now table.old }
    ensures rows { owners Row.seen table.new ≡ owners Row.seen table.old }
    ensures room { OnOk result (EachChanged Row.HasRoom changes.now table.new) }
{
    for slot in changes.as_slice() {
        if let Some(change) = &slot.1 {
            reserve_one(table, &slot.0, change)?;
        }
    }
    Ok(())
}

/// Takes the vacant slots of the owner's changed rows out again, if it is there.
fn clear_one<OwnerChange: Drop, Row: Owner<OwnerChange> + Bounded>(
    table: &mut OwnerTable<Row>,
    name: &Text,
    change: &OwnerChange,
)
    ensures rows { ChangesRow (λ a b. Row.seen b ≡ Row.seen a) name.now table.old table.new }
    ensures cleared { IfSome (row_at table.new name.now) (Row.IsCleared change.now) }
{
    let before = table.may_be_at_bound();
    let Some(row) = table.get_mut(name) else {
        table.note(before);
        return;
    };
    row.clear(change);
    let at_bound = row.is_at_bound();
    table.note(before | at_bound);
}

/// Takes the vacant slots of all changed rows out again.
pub(crate) fn clear_all<OwnerChange: Drop, Row: Owner<OwnerChange> + Bounded>(
    table: &mut OwnerTable<Row>,
    changes: &NameTable<OwnerChange>,
)
    ensures rows { owners Row.seen table.new ≡ owners Row.seen table.old }
    ensures cleared { EachChanged Row.IsCleared changes.now table.new }
{
    for slot in changes.as_slice() {
        if let Some(change) = &slot.1 {
            clear_one(table, &slot.0, change);
        }
    }
}

/// Moves the owner's change into it, if the owner is there.
fn commit_one<OwnerChange: Drop, Row: Owner<OwnerChange> + Bounded>(
    table: &mut OwnerTable<Row>,
    name: &Text,
    change: OwnerChange,
)
    requires { IfSome (row_at table.old name.now) (Row.HasRoom change) }
    ensures { ChangesRow (λ a b. Row.seen b ≡ Row.changed (Row.seen a) change)
        name.now table.old table.new }
{
    let before = table.may_be_at_bound();
    let Some(row) = table.get_mut(name) else {
        table.note(before);
        drop(change);
        return;
    };
    row.commit(change);
    let at_bound = row.is_at_bound();
    table.note(before | at_bound);
}

/// Moves the changes of all owners into them. It takes no memory.
pub(crate) fn commit_all<OwnerChange: Drop, Row: Owner<OwnerChange> + Bounded>(
    table: &mut OwnerTable<Row>,
    changes: NameTable<OwnerChange>,
)
    requires { EachChanged Row.HasRoom changes table.old }
    ensures { owners Row.seen table.new
        ≡ changed_owners Row.changed changes (owners Row.seen table.old) }
{
    for (name, slot) in changes.into_slots() {
        if let Some(change) = slot {
            commit_one(table, &name, change);
        }
    }
}
