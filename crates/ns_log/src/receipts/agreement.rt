//! Whether receipts and a log agree.

ghost use Rattle.std.specs.Prelude.{◌≡◌, ◌↔◌, ◌<◌, ℕ, IsTrue, false, true, Some, IfNone, IfSome};
ghost use Rattle.std.specs.Prelude.{OnOk, IsErrOf, IsOkUnless, MatchResult};
ghost use Rattle.std.specs.Prelude.{All, length, map, slice_get, vec_items};
ghost use Rattle.ns_log.specs.Faults.{IsMismatch};
ghost use Rattle.ns_log.specs.Marks.{FitsUnmarked, FitSeatBefore, IsFirstUnfit, MarkedBy};
ghost use Rattle.ns_log.specs.Settling.{Settles, IsFault};

use crate::Entry;
use crate::receipts::fault::SettleFault;
use crate::receipts::receipt::Receipt;
use ns_equality::Equal;
use std::alloc::Global;

/// Whether the receipt is of the entry at its place, and the place is not marked.
fn fits(log: &[Entry], marks: &[bool], receipt: &Receipt) -> bool
    requires { length marks.now ≡ length log.now }
    ensures { IsTrue result ↔ FitsUnmarked log.now marks.now receipt.now }
{
    match log.get(receipt.place as usize) {
        Some(entry) => {
            !marks[receipt.place as usize]
                && entry.step().equal(receipt.step.get())
                && entry.rendered().equal(receipt.rendered.get())
        }
        None => false,
    }
}

/// The place that the seat's first receipt names that does not fit. If each receipt fits, their places are marked.
fn seat_fault(log: &[Entry], marks: &mut [bool], receipts: &[Receipt]) -> Option<u64>
    requires { length marks.old ≡ length log.now }
    ensures fit { IfNone result
        (FitSeatBefore log.now marks.old receipts.now (length receipts.now)) }
    ensures marked { IfNone result
        (MarkedBy marks.old receipts.now (length receipts.now) marks.new) }
    ensures unfit { IfSome result (IsFirstUnfit log.now marks.old receipts.now) }
{
    let mut next = 0;
    for receipt in receipts {
        if receipt.place < next || !fits(log, marks, receipt) {
            return Some(receipt.place);
        }
        marks[receipt.place as usize] = true;
        next = receipt.place + 1;
    }
    None
}

/// The first place that is not marked.
fn first_unmarked(marks: &[bool]) -> Option<u64>
    ensures none { IfNone result
        ((p : ℕ) → p < length marks.now → slice_get marks.now p ≡ Some true) }
    ensures within { IfSome result (λ p. p < length marks.now) }
    ensures unmarked { IfSome result (λ p. slice_get marks.now p ≡ Some true → ⊥) }
    ensures first { IfSome result
        (λ p. (q : ℕ) → q < p → slice_get marks.now q ≡ Some true) }
{
    for (place, marked) in marks.iter().enumerate() {
        if !*marked {
            return Some(place as u64);
        }
    }
    None
}

/// Settles as `settle` does, with marks of which none is set yet.
fn settle_marking(
    log: &[Entry],
    marks: &mut [bool],
    seats: &[Vec<Receipt>],
) -> Result<(), SettleFault>
    requires len { length marks.old ≡ length log.now }
    requires unmarked { All (λ b. b ≡ false) marks.old }
    ensures { MatchResult result (λ _. Settles log.now (map vec_items seats.now))
        (IsMismatch log.now (map vec_items seats.now)) }
{
    for (number, receipts) in seats.iter().enumerate() {
        if let Some(place) = seat_fault(log, marks, receipts.as_slice()) {
            let seat = number as u64;
            return Err(SettleFault::Mismatch { seat, place });
        }
    }
    match first_unmarked(marks) {
        None => Ok(()),
        Some(place) => {
            let seat = seats.len() as u64;
            Err(SettleFault::Mismatch { seat, place })
        }
    }
}

/// Checks that within each seat the places rise, that all receipts together name each place of the log once, and that each
/// receipt is of the entry at its place. `Mismatch`: it is not so, with the first fault. Else want of memory is the only error.
/// It takes one list of marks, as long as the log.
pub fn settle(alloc: Global, log: &[Entry], seats: &[Vec<Receipt>]) -> Result<(), SettleFault>
    ensures ok { OnOk result (Settles log.now (map vec_items seats.now)) }
    ensures settled { Settles log.now (map vec_items seats.now)
        → IsOkUnless result SettleFault.Memory }
    ensures mismatch { (seat place : ℕ) → IsErrOf result (SettleFault.Mismatch seat place)
        → IsFault log.now (map vec_items seats.now) seat place }
{
    let mut marks = vec![in alloc; false; log.len()]?;
    settle_marking(log, marks.as_mut_slice(), seats)
}
