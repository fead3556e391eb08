//! The index of blocked evaluations by what they wait for, kept in step with the tables.

ghost use Rattle.std.specs.Prelude.{◌≡◌, ◌++◌, ◌&&◌, IfOk, OnOk, not, option_copied, true};
ghost use Rattle.std.specs.Cmp.Lexicographic.{pointwise};
ghost use Rattle.ns_blocked.specs.Blocked.{CanAdd, entries_of, keys_of};
ghost use Rattle.ns_blocked.specs.Waking.{entries_in, entry_of, waits_of};
ghost use Rattle.ns_change.specs.Settled.{settled_world};
ghost use Rattle.ns_queues.specs.Waiting.{IsBlockedIndex, added_entries, entries_at, keeps_list, moves_entry};
ghost use Rattle.ns_queues.specs.Waiting.{rows_alike, waits_alike};
ghost use Rattle.ns_types.specs.State.Names.{same_class};
ghost use Rattle.ns_tables.specs.World.{world_of};

use crate::after::{WatchesMoves, any_moved, evaluation_after};
use keyed::NumberSlot;
use ns_blocked::{BlockedEvaluation, BlockedList, Waits};
use ns_change::Settled;
use ns_equality::{same_class, same_flag, same_optional_text};
use ns_tables::Tables;
use ns_types::evaluation::Evaluation;
use ns_types::key::EvalKey;
use ns_types::node::Class;
use ns_types::rows::Rows;
use ns_types::text::{Text, same_text};
use std::alloc::AllocError;

// ---- entries that are added

fn waits_of(evaluation: &Evaluation) -> Result<Waits, AllocError>
    ensures { IfOk result (λ waits. waits ≡ waits_of evaluation.now) }
{
    match &evaluation.quota {
        Some(quota) => Ok(Waits::Quota(quota.clone()?)),
        None => Ok(Waits::Pool(evaluation.pool.clone()?)),
    }
}

fn entry_of(key: &EvalKey, evaluation: &Evaluation) -> Result<BlockedEvaluation, AllocError>
    ensures { IfOk result (λ entry. entry ≡ entry_of key.now evaluation.now) }
{
    Ok(BlockedEvaluation {
        key: key.clone()?,
        waits: waits_of(evaluation)?,
        escapes: evaluation.escapes,
        infeasible: evaluation.infeasible.clone()?,
    })
}

/// Adds the entry of the slot's key, with its row in the tables, if it has one.
fn add_entry(
    entries: &mut Rows<BlockedEvaluation>,
    tables: &Tables,
    slot: &NumberSlot<EvalKey>,
) -> Result<(), AllocError>
    ensures { OnOk result (entries.new
        ≡ entries.old ++ entries_at (world_of tables.now) slot.now) }
{
    if let Some(key) = &slot.1 {
        if let Some(row) = tables.evaluation(key.namespace(), key.number()) {
            entries.push(entry_of(key, row)?)?;
        }
    }
    Ok(())
}

/// The entries of the blocked evaluations, in the list's order. A key without a row has none.
fn entries_in(tables: &Tables) -> Result<Rows<BlockedEvaluation>, AllocError>
    ensures { IfOk result (λ entries. entries ≡ entries_in (world_of tables.now)) }
{
    let mut entries = Rows::new(tables.alloc);
    for slot in tables.blocked.slots() {
        add_entry(&mut entries, tables, slot)?;
    }
    Ok(entries)
}

/// A list of the blocked evaluations, made from the tables: it goes through all of them. Want of memory is the only error.
pub fn blocked_list(tables: &Tables) -> Result<BlockedList, AllocError>
    ensures { IfOk result (λ list. entries_of list ≡ entries_in (world_of tables.now)) }
{
    let entries = entries_in(tables)?;
    let mut list = BlockedList::new(tables.alloc);
    list.reserve(entries.as_slice())?;
    list.append(entries);
    Ok(list)
}

/// The entries of the keys that the step adds, with the rows that the step leaves.
fn added_entries(tables: &Tables, settled: &Settled) -> Result<Rows<BlockedEvaluation>, AllocError>
    ensures { IfOk result (λ entries. entries ≡ added_entries (world_of tables.now) settled.now) }
{
    let mut entries = Rows::new(tables.alloc);
    for key in settled.blocked.added.as_slice() {
        let found = evaluation_after(tables, settled, key.namespace(), key.number());
        if let Some(evaluation) = found {
            entries.push(entry_of(key, evaluation)?)?;
        }
    }
    Ok(entries)
}

/// Returns the entries that the step adds, and makes room for them. Want of memory is an error, and so is want of places.
pub(crate) fn reserve(
    list: &mut BlockedList,
    tables: &Tables,
    settled: &Settled,
) -> Result<Rows<BlockedEvaluation>, AllocError>
    ensures same { entries_of list.new ≡ entries_of list.old }
    ensures added { IfOk result
        (λ entries. entries ≡ added_entries (world_of tables.now) settled.now) }
    ensures room { IfOk result (λ entries. CanAdd entries list.new) }
{
    let entries = added_entries(tables, settled)?;
    if list.reserve(entries.as_slice()).is_err() {
        list.clear_room(entries.as_slice());
        return Err(AllocError);
    }
    Ok(entries)
}

// ---- evaluations whose entry changes

fn same_classes(a: &[Class], b: &[Class]) -> bool
    ensures { result ≡ pointwise same_class a.now b.now }
{
    match (a, b) {
        ([], []) => true,
        ([first, others @ ..], [second, more @ ..]) => {
            same_class(first, second) && same_classes(others, more)
        }
        _ => false,
    }
}

/// Whether both wait for the same quota and pool, and the same classes wake them.
fn waits_alike(a: &Evaluation, b: &Evaluation) -> bool
    ensures { result ≡ waits_alike a.now b.now }
{
    same_optional_text(a.quota.as_ref(), b.quota.as_ref())
        && same_text(&a.pool, &b.pool)
        && same_flag(a.escapes, b.escapes)
        && same_classes(a.infeasible.as_slice(), b.infeasible.as_slice())
}

fn rows_alike(a: Option<&Evaluation>, b: Option<&Evaluation>) -> bool
    ensures { result ≡ rows_alike (option_copied a.entry) (option_copied b.entry) }
{
    match (a, b) {
        (None, None) => true,
        (Some(a), Some(b)) => waits_alike(a, b),
        _ => false,
    }
}

/// The evaluations that are in a list.
#[derive(Drop)]
struct Standing<'a> {
    list: &'a BlockedList,
}

/// An evaluation of the list moves when its entry changes.
impl WatchesMoves for Standing<'_> {
    ghost moves = { λ s key before after. moves_entry s.list.now key before after };

    fn moves(
        &self,
        namespace: &Text,
        number: u64,
        before: Option<&Evaluation>,
        after: Option<&Evaluation>,
    ) -> bool {
        self.list.has(namespace, number) && !rows_alike(before, after)
    }
}

/// Makes the list follow a step before the tables do, and returns whether the list is right for the tables afterwards. It is,
/// unless an evaluation that stays in it gets another entry, or an added key has no evaluation or is in the list already. If
/// it returns false, the list may hold anything. It takes no memory, and looks only at the entries of evaluations that change.
pub(crate) fn follow(
    list: &mut BlockedList,
    tables: &Tables,
    settled: &Settled,
    entries: Rows<BlockedEvaluation>,
) -> bool
    requires room { CanAdd entries list.old }
    requires added { entries ≡ added_entries (world_of tables.now) settled.now }
    ensures right { let w = world_of tables.now in result ≡ true →
        IsBlockedIndex w list.old → IsBlockedIndex (settled_world w settled.now) list.new }
    ensures kept { result ≡ keeps_list (world_of tables.now) settled.now (keys_of list.old) }
{
    let taken = settled.blocked.taken.as_slice();
    list.take_out(taken);
    if any_moved(&Standing { list }, tables, settled) {
        return false;
    }
    if entries.as_slice().len() < settled.blocked.added.as_slice().len() {
        return false;
    }
    list.append_new(entries)
}
