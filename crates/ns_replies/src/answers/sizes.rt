//! How many bytes the answer of a step takes. None: the number does not fit 64 bits.

ghost use Rattle.std.specs.Prelude.{◌≡◌, IfSome, length, nat_lt, option_copied, sum_by};
ghost use Rattle.std.specs.Option.{option_and_then};
ghost use Rattle.json.specs.Print.{escape_byte, escape_letter};
ghost use Rattle.ns_types.specs.Working.Commit.{node_name};
ghost use Rattle.ns_types.specs.Working.Work.{planned_of};
ghost use Rattle.ns_replies.specs.Bodies.{text_bytes};
ghost use Rattle.ns_replies.specs.Rooms.{asked_bytes, placement_bytes, plan_bytes, step_bytes};

use ns_types::plan::Placement;
use ns_types::snapshot::Snapshot;
use ns_types::step::{AskCommand, Step};
use ns_types::worker::Worker;

const REGISTERED_BYTES: usize = 132;

const STOPPED_BYTES: usize = 83;

const ONE_ID_BYTES: usize = 54;

const APPLIED_BYTES: usize = 36;

const FINISHED_BYTES: usize = 76;

const REFUSAL_BYTES: usize = 32;

const ID_BYTES: usize = 39;

/// Whether a byte of a text is escaped by a backslash and a letter.
fn has_short_escape(byte: u8) -> bool
    ensures { result ≡ nat_lt 0 (escape_letter byte) }
{
    matches!(byte, b'"' | b'\\' | 8 | 9 | 10 | 12 | 13)
}

#[tactic(auto, unfolding(json::specs::Print::escape_byte))]
fn escaped_bytes(byte: u8) -> usize
    ensures { result ≡ length (escape_byte byte) }
{
    if has_short_escape(byte) {
        2
    } else if byte < 32 {
        6
    } else {
        1
    }
}

/// The bytes of a text as a JSON string, with one byte to spare.
#[tactic(auto, using(crate::proofs::Writing::escape_more, crate::proofs::Writing::text_bytes_is))]
fn text_bytes(text: &str) -> Option<usize>
    ensures { IfSome result (λ n. n ≡ text_bytes text.now) }
{
    let mut bytes = 3usize;
    for byte in text.as_bytes() {
        bytes = bytes.checked_add(escaped_bytes(*byte))?;
    }
    Some(bytes)
}

/// The name of the node at that place of the snapshot, or an empty text if there is none.
fn node_name(kept: &Snapshot, place: u64) -> &str
    ensures { result.now ≡ node_name kept.now place }
{
    match kept.nodes.as_slice().get(place as usize) {
        Some(node) => node.get().name.as_str(),
        None => "",
    }
}

fn placement_bytes(kept: &Snapshot, placement: &Placement) -> Option<usize>
    ensures { IfSome result (λ n. n ≡ placement_bytes kept.now placement.now) }
{
    let bytes = text_bytes(node_name(kept, placement.node))?;
    ID_BYTES.checked_add(bytes)
}

#[tactic(auto, using(std::proofs::lemmas::List::Sums::sum_by_more))]
fn placed_bytes(kept: &Snapshot, placements: &[Placement]) -> Option<usize>
    ensures { IfSome result (λ n. n ≡ sum_by (placement_bytes kept.now) placements.now) }
{
    let mut bytes = 0usize;
    for placement in placements {
        bytes = bytes.checked_add(placement_bytes(kept, placement)?)?;
    }
    Some(bytes)
}

/// The bytes that the answer to an Apply takes for the worker's plan, if the worker has submitted one.
fn plan_bytes(row: Option<&Worker>) -> Option<usize>
    ensures { IfSome result
        (λ n. n ≡ plan_bytes (option_and_then planned_of (option_copied row.entry))) }
{
    let Some(worker) = row else {
        return Some(0);
    };
    match worker.plan() {
        Some(planned) => placed_bytes(
            planned.snapshot().get(),
            planned.plan().placing.placements.as_slice(),
        ),
        None => Some(0),
    }
}

fn asked_bytes(command: &AskCommand) -> usize
    ensures { result ≡ asked_bytes command.now }
{
    match command {
        AskCommand::Register(_) | AskCommand::Deregister(_, _) => REGISTERED_BYTES,
        AskCommand::StopAllocation(_) => STOPPED_BYTES,
        _ => REFUSAL_BYTES,
    }
}

/// The bytes of the step's answer. For a worker's step, `row` is the worker's row before it.
pub(crate) fn step_bytes(step: &Step, row: Option<&Worker>) -> Option<usize>
    ensures { IfSome result (λ n. n ≡ step_bytes step.now (option_copied row.entry)) }
{
    match step {
        Step::Ask(_, _, command) => Some(asked_bytes(command.get())),
        Step::Dequeue(_, _, _) | Step::Snap(_, _) | Step::Submit(_, _) => Some(ONE_ID_BYTES),
        Step::Apply(_, _) => APPLIED_BYTES.checked_add(plan_bytes(row)?),
        Step::Finish(_, _) => Some(FINISHED_BYTES),
        _ => Some(REFUSAL_BYTES),
    }
}
