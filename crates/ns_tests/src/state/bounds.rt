// What a table of namespaces remembers of an index at its bound, where a namespace is changed in place.

use crate::state::made::text;
use crate::state::owned::with;
use keyed::{Bounded, OwnerTable};
use ns_admin::opening;
use ns_tables::{Tables, TenantRows};
use std::alloc::Global;
use std::process::Abort;

/// Sets the index of the first namespace. Returns whether an index may be at its bound after `get_mut`, and after `note`.
fn indexed(
    rt: &impl Abort,
    alloc: Global,
    tenants: &mut OwnerTable<TenantRows>,
    index: u64,
) -> (bool, bool) {
    let name = text(rt, alloc, "default");
    let before = tenants.may_be_at_bound();
    let tenant = tenants.get_mut(&name).expect(rt, "the first namespace");
    tenant.index = index;
    let at_bound = tenant.is_at_bound();
    let lent = tenants.may_be_at_bound();
    tenants.note(before | at_bound);
    (lent, tenants.may_be_at_bound())
}

/// Below its bound no index is remembered. Once one was at its bound, that stays.
fn remembers(rt: &impl Abort, alloc: Global, tables: &mut Tables) -> bool {
    let tenants = &mut tables.tenants;
    let below = indexed(rt, alloc, tenants, u64::MAX - 1);
    let at_bound = indexed(rt, alloc, tenants, u64::MAX);
    let later = indexed(rt, alloc, tenants, 0);
    below == (true, false) && at_bound == (true, true) && later == (true, true)
}

#[test]
fn an_index_at_its_bound_is_remembered(rt: HostRuntime) {
    let alloc = rt.alloc();
    assert!(rt; with(&rt, opening(alloc), |tables| remembers(&rt, alloc, tables)));
}
