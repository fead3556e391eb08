ghost use Rattle.std.specs.Prelude.{◌≡◌, IsTrue, is_some, Some};
ghost use Rattle.std.specs.FinMap.{insert};
ghost use Rattle.keyed.specs.Table.{row_at, with_slot};

use crate::state::made::text;
use keyed::{NameTable, NumberTable};
use ns_types::text::Text;
use std::process::Abort;

/// Whether the first key has a row, the second has a vacant slot, and the table has nothing else.
fn has_first(table: &NameTable<u64>, web: &Text, api: &Text) -> bool {
    table.get(web) == Some(&7)
        && table.get(api).is_none()
        && table.len() == 1
        && table.as_slice().len() == 2
}

fn reserve_name(rt: &impl Abort, table: &mut NameTable<u64>, name: &Text)
    ensures { table.new ≡ with_slot table.old name.now }
{
    table.reserve(name).expect(rt, "memory");
}

/// Whether the rows are those that were written last.
fn writes_names(rt: &impl Abort, table: &mut NameTable<u64>, web: &Text, api: &Text) -> bool {
    reserve_name(rt, table, web);
    table.set(web, 7);
    reserve_name(rt, table, api);
    let has_first = has_first(table, web, api);
    table.set(api, 8);
    if let Some(row) = table.get_mut(web) {
        *row = 9;
    }
    has_first && table.take(web) == Some(9)
}

/// Whether vacant slots go and rows stay, until they are removed.
fn clears_names(rt: &impl Abort, table: &mut NameTable<u64>, web: &Text, api: &Text) -> bool {
    table.clear_slot(api);
    table.clear_slot(web);
    let keeps_row = table.as_slice().len() == 1;
    table.remove(api);
    reserve_name(rt, table, web);
    table.clear_room();
    keeps_row && table.as_slice().is_empty()
}

#[test]
fn keeps_rows_by_name(rt: HostRuntime) {
    let alloc = rt.alloc();
    let web = text(&rt, alloc, "web");
    let api = text(&rt, alloc, "api");
    let mut table = NameTable::new(alloc);
    assert!(rt; writes_names(&rt, &mut table, &web, &api));
    assert!(rt; clears_names(&rt, &mut table, &web, &api));
}

// What the contract of `get_mut` says to a caller.
fn write_seven(table: &mut NumberTable<u64>, number: u64)
    requires { IsTrue (is_some (row_at table.old number)) }
    ensures { table.new ≡ insert table.old number (Some 7) }
{
    if let Some(row) = table.get_mut(number) {
        *row = 7;
    }
}

fn reserve_number(rt: &impl Abort, table: &mut NumberTable<char>, number: u64)
    ensures { table.new ≡ with_slot table.old number }
{
    table.reserve(number).expect(rt, "memory");
}

/// Slots 1, 4, 6 and 15, of which 1 and 6 have rows.
fn write_numbers(rt: &impl Abort, table: &mut NumberTable<char>) {
    reserve_number(rt, table, 15);
    reserve_number(rt, table, 4);
    reserve_number(rt, table, 6);
    table.set(6, 'f');
    reserve_number(rt, table, 1);
    table.set(1, 'a');
    if let Some(row) = table.get_mut(6) {
        *row = 'g';
    }
}

fn has_numbers(table: &NumberTable<char>) -> bool {
    table.get(6) == Some(&'g') && table.get(15).is_none() && table.len() == 2
}

/// Whether vacant slots go and rows stay, until they are taken.
fn clears_numbers(table: &mut NumberTable<char>) -> bool {
    let takes_row = table.take(1) == Some('a');
    table.clear_slot(4);
    let keeps_slots = table.as_slice().len() == 3;
    table.clear_room();
    takes_row & keeps_slots & (table.as_slice().len() == 1)
}

fn removes_number(table: &mut NumberTable<char>) -> bool {
    table.remove(6);
    table.len() == 0
}

#[test]
fn keeps_rows_by_number(rt: HostRuntime) {
    let mut table = NumberTable::new(rt.alloc());
    write_numbers(&rt, &mut table);
    assert!(rt; has_numbers(&table));
    assert!(rt; clears_numbers(&mut table));
    assert!(rt; removes_number(&mut table));
}
