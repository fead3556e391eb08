//! The receipts of one caller.

ghost use Rattle.std.specs.Prelude.{◌≡◌, ◌+◌, ◌++◌, ◌<◌, [], IfOk, IfSome, OnOk, false, length, true};
ghost use Rattle.std.specs.Prelude.{vec_capacity, vec_len};
ghost use Rattle.ns_json.specs.Logs.{line_of};
ghost use Rattle.ns_log.specs.Lines.{entry_text};
ghost use Rattle.ns_log.specs.Settling.{entry_of};
ghost use Rattle.ns_work_log.specs.Noting.{Begins};
ghost use Rattle.ns_work_lock.specs.Receiving.{count, receipt_of, received, response_of};

use crate::retention::{Retains, Retention};
use ns_log::receipts::{Past, Receipt};
use ns_log::{Owned, entry_line};
use ns_types::refusal::Refusal;
use ns_types::reply::{Rendered, Response};
use ns_types::shared::Shared;
use ns_types::step::Step;
use ns_work_log::Held;
use std::alloc::{AllocError, Global};
use std::marker::{Model, PhantomData};
use std::sync::ledger::{Book, Ledger, Share};

/// The receipts of one caller, in the order of its calls. Contracts see only the receipts, including those that are no longer
/// in memory. Their number is the seat's share of the ledger's total.
#[derive(Drop)]
pub struct Seat<L: Ledger, M: Retention> {
    /// The receipts that are no longer in memory, which come first.
    pub(crate) past: Past,
    pub(crate) receipts: Vec<Receipt>,
    pub(crate) share: Share<L>,
    pub(crate) retention: PhantomData<M>,
}

impl<L: Ledger, M: Retention> Model for Seat<L, M> {
    ghost use Rattle.std.specs.Prelude.{◌≡◌, ◌+◌, ◌++◌, List, [], length, true};
    ghost use Rattle.ns_log.specs.declared.receipts.receipt.Receipt.{Receipt};

    ghost Value = { List Receipt };

    ghost view = { λ s. s.past.receipts ++ s.receipts.items };

    ghost invariant = { λ s. (s.share.parts ≡ 1)
        × (s.share.amount ≡ length s.past.receipts + length s.receipts.items)
        × (M.retains ≡ true → s.past.receipts ≡ []) };
}

/// Drops the receipts that need not stay in memory.
fn forget<M: Retention>(past: &mut Past, receipts: &mut Vec<Receipt>)
    ensures all { past.new.receipts ++ receipts.new.items ≡ past.old.receipts ++ receipts.old.items }
    ensures number { length past.new.receipts + vec_len receipts.new
        ≡ length past.old.receipts + vec_len receipts.old }
    ensures retains { M.retains ≡ true → past.new.receipts ≡ past.old.receipts }
    ensures forgets { M.retains ≡ false → receipts.new.items ≡ [] }
{
    if M::retains() {
        return;
    }
    *past = Past::with(past, receipts);
    receipts.clear();
}

/// How many bytes the line of the receipt's entry has in the log's text, if there is memory to render it.
fn line_bytes(alloc: Global, receipt: &Receipt) -> Option<u64>
    ensures { let line = line_of (entry_text (entry_of receipt.now)) in
        IfSome result (λ bytes. bytes ≡ length line) }
{
    match entry_line(alloc, receipt.step.get(), receipt.rendered.get()) {
        Ok(line) => Some(line.len() as u64),
        Err(_) => None,
    }
}

impl<L: Ledger, M: Retention> Seat<L, M> {
    /// Drops the receipts that need not stay in memory. It is no call, and contracts see the seat as before. Returns how many
    /// receipts stay in memory.
    pub(crate) fn forget(&mut self) -> usize
        ensures { self.new ≡ self.old }
    {
        forget::<M>(&mut self.past, &mut self.receipts);
        self.receipts.len()
    }

    /// The bytes of text of the last entry, if it was added since `before` receipts were in memory. 0 if it was not, or if
    /// there is no memory to render it.
    pub(crate) fn added_bytes(&self, alloc: Global, before: usize) -> u64 {
        if self.receipts.len() == before {
            return 0;
        }
        match self.receipts.last() {
            Some(receipt) => line_bytes(alloc, receipt).unwrap_or(0),
            None => 0,
        }
    }
}

impl<L: Ledger> Seat<L, Retains> {
    /// The receipts so far, in the order of the calls.
    pub fn receipts(&self) -> &[Receipt]
        ensures { result.now ≡ self.now }
    {
        self.receipts.as_slice()
    }
}

/// Whether the log takes one more entry.
fn begin(held: &Held) -> Result<(), Refusal>
    ensures { Begins (length held.now.log) held.now.limit result }
{
    if held.is_full() {
        return Err(Refusal::LogFull);
    }
    Ok(())
}

/// Makes room for a receipt, if the log takes one more entry. The errors are `LogFull` and `Memory`.
pub(crate) fn prepare_place(held: &Held, receipts: &mut Vec<Receipt>) -> Result<(), Refusal>
    ensures begins { Begins (length held.now.log) held.now.limit result }
    ensures place { OnOk result (vec_len receipts.new < vec_capacity receipts.new) }
    ensures same { receipts.new.items ≡ receipts.old.items }
{
    begin(held)?;
    receipts.reserve(1)?;
    Ok(())
}

/// The step with two owners, its entry and its receipt. Want of memory is the only error.
pub(crate) fn shared_twice(
    alloc: Global,
    step: Step,
) -> Result<(Shared<Step>, Shared<Step>), AllocError>
    ensures entry { IfOk result (λ made. made.0 ≡ step) }
    ensures receipt { IfOk result (λ made. made.1 ≡ step) }
{
    let entry = Shared::new(alloc, step)?;
    let receipt = entry.share()?;
    Ok((entry, receipt))
}

/// The step with two owners, and with room for its receipt, if the log takes one more entry. The errors are `LogFull` and
/// `Memory`.
pub(crate) fn prepare_shared(
    alloc: Global,
    held: &Held,
    receipts: &mut Vec<Receipt>,
    step: Step,
) -> Result<(Shared<Step>, Shared<Step>), Refusal>
    ensures entry { IfOk result (λ made. made.0 ≡ step) }
    ensures receipt { IfOk result (λ made. made.1 ≡ step) }
    ensures begins { Begins (length held.now.log) held.now.limit result }
    ensures place { OnOk result (vec_len receipts.new < vec_capacity receipts.new) }
    ensures same { receipts.new.items ≡ receipts.old.items }
{
    if let Err(refusal) = prepare_place(held, receipts) {
        drop(step);
        return Err(refusal);
    }
    let (entry, receipt) = shared_twice(alloc, step)?;
    Ok((entry, receipt))
}

/// Adds a receipt, and counts it, if a step was answered.
pub(crate) fn receive<L: Ledger>(
    receipts: &mut Vec<Receipt>,
    share: &mut Share<L>,
    book: &mut Book<L>,
    place: u64,
    step: Shared<Step>,
    rendered: Option<Owned<Rendered>>,
)
    requires place { vec_len receipts.old < vec_capacity receipts.old }
    requires part { share.old.parts ≡ 1 }
    ensures receipts { receipts.new.items ≡ received place step rendered receipts.old.items }
    ensures number { vec_len receipts.new ≡ vec_len receipts.old + count rendered }
    ensures parts { share.new.parts ≡ 1 }
    ensures amount { share.new.amount ≡ share.old.amount + count rendered }
    ensures total { book.new.total ≡ book.old.total + count rendered }
{
    match rendered {
        Some(rendered) => {
            receipts.push_reserved(Receipt {
                place,
                step,
                rendered,
            });
            book.add(share, 1);
        }
        None => drop(step),
    }
}

/// Adds the receipt of the step that a request asks for, if it was made, and returns the response.
pub(crate) fn receive_given<L: Ledger>(
    receipts: &mut Vec<Receipt>,
    share: &mut Share<L>,
    book: &mut Book<L>,
    place: u64,
    step: Shared<Step>,
    given: Result<(Owned<Rendered>, Response), Refusal>,
) -> Result<Response, Refusal>
    requires place { vec_len receipts.old < vec_capacity receipts.old }
    requires part { share.old.parts ≡ 1 }
    ensures response { result ≡ response_of given }
    ensures receipts { let rendered = receipt_of given in
        receipts.new.items ≡ received place step rendered receipts.old.items }
    ensures number { vec_len receipts.new ≡ vec_len receipts.old + count (receipt_of given) }
    ensures parts { share.new.parts ≡ 1 }
    ensures amount { share.new.amount ≡ share.old.amount + count (receipt_of given) }
    ensures total { book.new.total ≡ book.old.total + count (receipt_of given) }
{
    match given {
        Ok((rendered, response)) => {
            receive(receipts, share, book, place, step, Some(rendered));
            Ok(response)
        }
        Err(refusal) => {
            drop(step);
            Err(refusal)
        }
    }
}
