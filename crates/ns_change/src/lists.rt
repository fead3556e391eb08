//! What leaves the lists of evaluations, and what is appended to them.

ghost use Rattle.std.specs.Prelude.{◌≡◌, ◌++◌, OnOk};
ghost use Rattle.ns_types.specs.Working.Work.{without_key};
ghost use Rattle.ns_change.specs.Changed.{Does, DoesToList, with_blocked_key, with_key, with_plan, with_ready};
ghost use Rattle.ns_change.specs.Changed.{without_blocked_key, without_keys, without_plan, without_ready};
ghost use Rattle.ns_tables.specs.declared.tables.Tables.{Tables};

use crate::change::{Change, ListChange};
use ns_equality::has_key;
use ns_types::key::EvalKey;
use ns_types::rows::Rows;
use std::alloc::{AllocError, Global};
use std::slice;

/// Appends a copy of the key.
fn push_copy(keys: &mut Rows<EvalKey>, key: &EvalKey) -> Result<(), AllocError>
    ensures { OnOk result (keys.new ≡ with_key key.now keys.old) }
{
    let key = key.clone()?;
    keys.push(key)
}

/// Appends copies of all the keys.
fn push_all(keys: &mut Rows<EvalKey>, more: &[EvalKey]) -> Result<(), AllocError>
    ensures { OnOk result (keys.new ≡ keys.old ++ more.now) }
{
    for key in more {
        push_copy(keys, key)?;
    }
    Ok(())
}

/// Appends copies of those keys in `more` that are not in `taken`.
fn push_others(
    keys: &mut Rows<EvalKey>,
    more: &[EvalKey],
    taken: &[EvalKey],
) -> Result<(), AllocError>
    ensures { OnOk result (keys.new ≡ keys.old ++ without_keys taken.now more.now) }
{
    for key in more {
        if !has_key(taken, key) {
            push_copy(keys, key)?;
        }
    }
    Ok(())
}

/// Takes those keys out of a list.
pub(crate) fn take_out(
    alloc: Global,
    list: &mut ListChange,
    keys: &[EvalKey],
) -> Result<(), AllocError>
    ensures { OnOk result (DoesToList (without_keys keys.now) list.old list.new) }
{
    let mut added = Rows::new(alloc);
    push_others(&mut added, list.added.as_slice(), keys)?;
    list.added = added;
    push_all(&mut list.taken, keys)
}

/// Takes one key out of a list.
fn take_key(alloc: Global, list: &mut ListChange, key: &EvalKey) -> Result<(), AllocError>
    ensures { OnOk result (DoesToList (without_key key.now) list.old list.new) }
{
    take_out(alloc, list, slice::from_ref(key))
}

/// Puts a key at a list's end.
fn add_key(list: &mut ListChange, key: EvalKey) -> Result<(), AllocError>
    ensures { OnOk result (DoesToList (with_key key) list.old list.new) }
{
    list.added.push(key)?;
    Ok(())
}

/// Takes the evaluation out of the ready list. Want of memory is the only error.
pub fn take_ready(alloc: Global, change: &mut Change, key: &EvalKey) -> Result<(), AllocError>
    ensures { (t : Tables) → Does result t change.old change.new (without_ready key.now) }
{
    take_key(alloc, &mut change.ready, key)
}

/// Appends the evaluation to the ready list. Want of memory is the only error.
pub fn add_ready(change: &mut Change, key: EvalKey) -> Result<(), AllocError>
    ensures { (t : Tables) → Does result t change.old change.new (with_ready key) }
{
    add_key(&mut change.ready, key)
}

/// Takes the evaluation out of the list of waiting plans. Want of memory is the only error.
pub fn take_plan(alloc: Global, change: &mut Change, key: &EvalKey) -> Result<(), AllocError>
    ensures { (t : Tables) → Does result t change.old change.new (without_plan key.now) }
{
    take_key(alloc, &mut change.plans, key)
}

/// Appends the evaluation to the list of waiting plans. Want of memory is the only error.
pub fn add_plan(change: &mut Change, key: EvalKey) -> Result<(), AllocError>
    ensures { (t : Tables) → Does result t change.old change.new (with_plan key) }
{
    add_key(&mut change.plans, key)
}

/// Takes the evaluation out of the list of blocked evaluations. Want of memory is the only error.
pub fn take_blocked(alloc: Global, change: &mut Change, key: &EvalKey) -> Result<(), AllocError>
    ensures { (t : Tables) → Does result t change.old change.new (without_blocked_key key.now) }
{
    take_key(alloc, &mut change.blocked, key)
}

/// Appends the evaluation to the list of blocked evaluations. Want of memory is the only error.
pub fn add_blocked(change: &mut Change, key: EvalKey) -> Result<(), AllocError>
    ensures { (t : Tables) → Does result t change.old change.new (with_blocked_key key) }
{
    add_key(&mut change.blocked, key)
}
