//! Evaluations as a step leaves them.

ghost use Rattle.std.specs.Prelude.{◌≡◌, Bool, Option, false, option_copied};
ghost use Rattle.std.specs.List.{list_any};
ghost use Rattle.ns_change.specs.Settled.{settled_world};
ghost use Rattle.ns_queues.specs.After.{NoneMoves, StillUnmoved, any_moves, moves_in, moves_slot};
ghost use Rattle.ns_types.specs.State.Names.{Key};
ghost use Rattle.ns_types.specs.State.Rows.{evaluation_at};
ghost use Rattle.ns_types.specs.declared.evaluation.Evaluation.{Evaluation};
ghost use Rattle.ns_tables.specs.World.{world_of};

use keyed::{NameSlot, NumberSlot, NumberTable};
use ns_change::{Settled, SettledTenant};
use ns_tables::{Tables, TenantRows};
use ns_types::evaluation::Evaluation;
use ns_types::text::Text;

/// The evaluation of that number, as the step leaves it.
pub(crate) fn evaluation_after<'a>(
    tables: &'a Tables,
    settled: &'a Settled,
    namespace: &Text,
    number: u64,
) -> Option<&'a Evaluation>
    ensures { option_copied result ≡
        evaluation_at (settled_world (world_of tables.now) settled.now) (namespace.now, number) }
{
    let Some(tenant) = tables.tenants.get(namespace) else {
        return None;
    };
    let before = tenant.evaluations.rows();
    match settled.tenants.get(namespace) {
        Some(change) => before.get_over(&change.rows.evaluations, number),
        None => before.get(number),
    }
}

/// A test of whether a step moves an evaluation in an index.
pub(crate) trait WatchesMoves {
    /// Whether the evaluation at that key moves, given its row before and its row after the step.
    ghost moves: { Self → Key → Option Evaluation → Option Evaluation → Bool };

    /// Whether the evaluation of that number moves, given its row before and its row after the step.
    fn moves(
        &self,
        namespace: &Text,
        number: u64,
        before: Option<&Evaluation>,
        after: Option<&Evaluation>,
    ) -> bool
        ensures { result ≡ moves self.now (namespace.now, number)
            (option_copied before.entry) (option_copied after.entry) };
}

/// Whether the changed row of one evaluation moves it.
fn moves_slot<W: WatchesMoves>(
    watch: &W,
    namespace: &Text,
    before: &NumberTable<Evaluation>,
    slot: &NumberSlot<Evaluation>,
) -> bool
    ensures { result ≡ moves_slot (W.moves watch.now) namespace.now before.now slot.now }
{
    watch.moves(namespace, slot.0, before.get(slot.0), slot.1.as_ref())
}

fn any_moves<W: WatchesMoves>(
    watch: &W,
    namespace: &Text,
    before: &NumberTable<Evaluation>,
    slots: &[NumberSlot<Evaluation>],
) -> bool
    ensures { result
        ≡ list_any (moves_slot (W.moves watch.now) namespace.now before.now) slots.now }
{
    slots
        .iter()
        .any(|slot| moves_slot(watch, namespace, before, slot))
}

/// Whether a changed evaluation of one namespace moves.
fn moves_in<W: WatchesMoves>(watch: &W, tables: &Tables, slot: &NameSlot<SettledTenant>) -> bool
    ensures { result ≡ moves_in (W.moves watch.now) tables.now.tenants slot.now }
{
    let Some(change) = &slot.1 else {
        return false;
    };
    let slots = change.rows.evaluations.as_slice();
    if slots.is_empty() {
        return false;
    }
    match tables.tenants.get(&slot.0) {
        Some(tenant) => any_moves(watch, &slot.0, tenant.evaluations.rows(), slots),
        None => false,
    }
}

fn any_moves_in<W: WatchesMoves>(
    watch: &W,
    tables: &Tables,
    slots: &[NameSlot<SettledTenant>],
) -> bool
    ensures { result ≡ list_any (moves_in (W.moves watch.now) tables.now.tenants) slots.now }
{
    slots.iter().any(|slot| moves_in(watch, tables, slot))
}

/// Whether a changed evaluation of any namespace moves. If none does, and no evaluation moves whose row stays as it is, then
/// the step moves no evaluation at all.
pub(crate) fn any_moved<W: WatchesMoves>(watch: &W, tables: &Tables, settled: &Settled) -> bool
    ensures any { result ≡ any_moves (W.moves watch.now) tables.now settled.now }
    ensures none { result ≡ false → StillUnmoved (W.moves watch.now) →
        let w = world_of tables.now in NoneMoves (W.moves watch.now) w (settled_world w settled.now) }
{
    any_moves_in(watch, tables, settled.tenants.as_slice())
}
