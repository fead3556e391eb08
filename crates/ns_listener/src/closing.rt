//! The end of a server: its log is settled and printed.

ghost use Rattle.std.specs.Prelude.{◌≡◌, ◌≢◌, ◌⊎◌, Err, IfOk, IsErrOf, IsOkAnd, IsTrue, None, OnOk, Some, length, string_bytes};
ghost use Rattle.std.specs.Result.{result_err};
ghost use Rattle.ns_json.specs.Logs.{segment_text};
ghost use Rattle.ns_log.specs.Segments.{joined};
ghost use Rattle.ns_log.specs.Settling.{Settles};
ghost use Rattle.ns_work_lock.specs.Ending.{held_of};
ghost use Rattle.ns_work_lock.specs.Settling.{present};
ghost use Rattle.ns_http.specs.declared.engine.ConnFault.TheVariants as ConnFault;
ghost use Rattle.ns_http.specs.Output.{WritesAll};
ghost use Rattle.ns_faults.specs.Lines.{FailsToWrite, TriesToWrite, line_of, mismatch_line, status_of};
ghost use Rattle.ns_listener.specs.Ending.{EndsAfter, EndsAfterCount, EndsBy, IsEnd, IsGoodEnd, fault_line};
ghost use Rattle.ns_listener.specs.Ending.{fault_status};
ghost use Rattle.ns_listener.specs.Keeping.{WritesText};
ghost use Rattle.ns_listener.specs.Printing.{HasMismatch, IsRunOf, settled_line};
ghost use Rattle.ns_listener.specs.declared.fault.ServeFault.TheVariants as ServeFault;

use crate::fault::ServeFault;
use ns_core::Core;
use ns_faults::status::{MISMATCH, SERVED, WRITE_FAULT};
use ns_faults::{print_fault, print_mismatch, print_text};
use ns_http::{ConnFault, Counted, write_all};
use ns_log::segment_text;
use ns_log::segments::Segment;
use ns_types::name::Secret;
use ns_work_lock::{Ended, Retains, Seat, SettledLog};
use std::alloc::{AllocError, Global};
use std::io::Write;
use std::sync::ledger::Ledger;

/// A server whose threads have ended.
#[derive(Drop)]
pub struct Closing<W> {
    pub settled: Result<SettledLog, ServeFault>,
    /// Why the text of the segments ended too early.
    pub fault: Option<ConnFault>,
    pub secret: Secret,
    pub writer: Counted<W>,
}

/// Settles the log, its segments first, with the receipts of the seats. The log has to be a run of the server that the secret
/// opens. It fails with want of memory where a segment is missing.
pub(crate) fn settle<L: Ledger>(
    alloc: Global,
    ended: Ended<L>,
    seats: Vec<Seat<L, Retains>>,
    secret: &Secret,
    segments: Vec<Segment>,
    is_whole: bool,
) -> Result<SettledLog, ServeFault>
    requires { L.parts ≡ 18446744073709551615 }
    ensures run { IfOk result (IsRunOf secret.now segments.items) }
    ensures log { IfOk result
        (λ settled. settled.log ≡ joined segments.items (held_of ended).log) }
    ensures receipts { OnOk result
        (Settles (joined segments.items (held_of ended).log) seats.items) }
    ensures whole { OnOk result (IsTrue is_whole) }
    ensures mismatch { IsErrOf result ServeFault.Mismatch
        → HasMismatch secret.now segments.items (held_of ended) seats.items }
    ensures no_write { result ≢ Err (ServeFault.Conn ConnFault.Write) }
    ensures no_read { result ≢ Err (ServeFault.Conn ConnFault.Read) }
{
    if !is_whole {
        return Err(ServeFault::Conn(ConnFault::Memory));
    }
    let first = Core::new(alloc, secret)?;
    Ok(ended.settle(alloc, seats, &first, segments)?)
}

/// The line that says how many entries the log has.
fn settled_line(alloc: Global, settled: &SettledLog) -> Result<String, AllocError>
    ensures { IfOk result (λ line.
        string_bytes line ≡ settled_line (length settled.now.log)) }
{
    let line = format!(in alloc; "settled {}\n", settled.log().len())?;
    Ok(line)
}

/// Writes the entries that were not given out in segments, and returns the line that says how many entries the log has.
fn print_rest<W: Write>(
    alloc: Global,
    secret: &Secret,
    settled: &SettledLog,
    writer: &mut Counted<W>,
) -> Result<String, ConnFault>
    ensures line { IfOk result (λ line.
        string_bytes line ≡ settled_line (length settled.now.log)) }
    ensures written { let text = segment_text secret.now settled.now.given (present settled.now) in
        WritesText W.contents (result_err result) writer.old writer.new text }
    ensures memory { IsErrOf result ConnFault.Memory → writer.new ≡ writer.old }
{
    let text = segment_text(alloc, secret, settled.given(), settled.present())?;
    let line = settled_line(alloc, settled)?;
    write_all(writer, text.as_bytes())?;
    Ok(line)
}

/// Writes the line of the fault, and returns its exit status.
fn print_serve_fault<E: Write>(fault: ServeFault, errors: &mut Counted<E>) -> u8
    ensures status { result ≡ fault_status fault }
    ensures line { TriesToWrite E.contents errors.old errors.new (fault_line fault) }
{
    match fault {
        ServeFault::Conn(fault) => print_fault(fault, errors),
        ServeFault::Mismatch => print_mismatch(errors),
    }
}

/// Ends a server whose segments were all written: prints the rest of the log if it settled, and the line that says how the
/// server ended. Returns the exit status.
fn conclude_whole<W: Write, E: Write>(
    alloc: Global,
    settled: &Result<SettledLog, ServeFault>,
    secret: &Secret,
    writer: &mut Counted<W>,
    errors: &mut Counted<E>,
) -> u8
    requires no_write { settled.now ≢ Err (ServeFault.Conn ConnFault.Write) }
    ensures status { IsEnd result }
    ensures good { OnOk settled.now (IsGoodEnd result) }
    ensures faulty { (fault : ServeFault) → IsErrOf settled.now fault
        → result ≡ fault_status fault }
    ensures printed { result ≡ SERVED → IsOkAnd settled.now (λ s.
        WritesAll W.contents writer.old writer.new (segment_text secret.now s.given (present s))) }
    ensures settled { result ≡ SERVED → IsOkAnd settled.now (λ s.
        TriesToWrite E.contents errors.old errors.new (settled_line (length s.log))) }
    ensures write_fault { result ≡ WRITE_FAULT → IsOkAnd settled.now (λ s.
        FailsToWrite W.contents writer.old writer.new (segment_text secret.now s.given (present s))) }
    ensures unprinted { result ≢ SERVED → result ≢ WRITE_FAULT → writer.new ≡ writer.old }
    ensures fault_line { (fault : ConnFault) → result ≡ status_of fault
        → TriesToWrite E.contents errors.old errors.new (line_of fault) }
    ensures mismatch { result ≡ MISMATCH
        → TriesToWrite E.contents errors.old errors.new mismatch_line }
{
    let settled = match settled {
        Ok(settled) => settled,
        Err(fault) => return print_serve_fault(*fault, errors),
    };
    match print_rest(alloc, secret, settled, writer) {
        Ok(line) => {
            print_text(errors, line.as_bytes());
            SERVED
        }
        Err(fault) => print_fault(fault, errors),
    }
}

/// Ends a server that could not write a segment. It writes no more of the log, only the line that says how settling ended and,
/// after it, the line of that fault. Returns the exit status.
fn conclude_cut<E: Write>(
    alloc: Global,
    settled: &Result<SettledLog, ServeFault>,
    fault: ConnFault,
    errors: &mut Counted<E>,
) -> u8
    ensures status { result ≡ status_of fault }
    ensures line { EndsBy E.contents errors.old errors.new (line_of fault) }
    ensures settled { IfOk settled.now (λ s.
        EndsAfterCount E.contents errors.old errors.new (length s.log) (line_of fault)) }
    ensures unsettled { (other : ServeFault) → IsErrOf settled.now other
        → EndsAfter E.contents errors.old errors.new (fault_line other) (line_of fault) }
{
    match settled {
        Ok(settled) => {
            let Ok(line) = settled_line(alloc, settled) else {
                return print_fault(fault, errors);
            };
            print_text(errors, line.as_bytes());
        }
        Err(other) => {
            print_serve_fault(*other, errors);
        }
    }
    print_fault(fault, errors)
}

/// Prints the rest of the log, if it settled and all segments were written, and the lines that say how the server ended.
/// Returns the exit status and the writer.
pub(crate) fn conclude<W: Write, E: Write>(
    alloc: Global,
    closing: Closing<W>,
    errors: &mut Counted<E>,
) -> (u8, Counted<W>)
    requires no_write { closing.settled ≢ Err (ServeFault.Conn ConnFault.Write) }
    requires no_read { closing.fault ≢ Some ConnFault.Read }
    ensures status { IsEnd result.0 }
    ensures good { closing.fault ≡ None → OnOk closing.settled (IsGoodEnd result.0) }
    ensures faulty { closing.fault ≡ None → (fault : ServeFault) → IsErrOf closing.settled fault
        → result.0 ≡ fault_status fault }
    ensures cut { (fault : ConnFault) → closing.fault ≡ Some fault → result.0 ≡ status_of fault }
    ensures printed { result.0 ≡ SERVED → (closing.fault ≡ None) × IsOkAnd closing.settled
        (λ s. WritesAll W.contents closing.writer result.1
        (segment_text closing.secret s.given (present s))) }
    ensures settled { result.0 ≡ SERVED → IsOkAnd closing.settled (λ s.
        TriesToWrite E.contents errors.old errors.new (settled_line (length s.log))) }
    ensures write_fault { result.0 ≡ WRITE_FAULT
        → ((closing.fault ≡ Some ConnFault.Write) × (result.1 ≡ closing.writer))
        ⊎ ((closing.fault ≡ None) × IsOkAnd closing.settled
        (λ s. FailsToWrite W.contents closing.writer result.1
        (segment_text closing.secret s.given (present s)))) }
    ensures unprinted { result.0 ≢ SERVED → result.0 ≢ WRITE_FAULT → result.1 ≡ closing.writer }
    ensures fault_line { (fault : ConnFault) → result.0 ≡ status_of fault
        → EndsBy E.contents errors.old errors.new (line_of fault) }
    ensures mismatch { result.0 ≡ MISMATCH
        → EndsBy E.contents errors.old errors.new mismatch_line }
    ensures cut_settled { (fault : ConnFault) → closing.fault ≡ Some fault → IfOk closing.settled
        (λ s. EndsAfterCount E.contents errors.old errors.new (length s.log) (line_of fault)) }
    ensures cut_unsettled { (fault : ConnFault) (other : ServeFault)
        → closing.fault ≡ Some fault → IsErrOf closing.settled other
        → EndsAfter E.contents errors.old errors.new (fault_line other) (line_of fault) }
{
    let Closing {
        settled,
        fault,
        secret,
        mut writer,
    } = closing;
    let status = match fault {
        None => conclude_whole(alloc, &settled, &secret, &mut writer, errors),
        Some(fault) => conclude_cut(alloc, &settled, fault, errors),
    };
    (status, writer)
}
