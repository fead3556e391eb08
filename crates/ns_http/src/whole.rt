//! Reads an input to its end.
ghost use Rattle.std.specs.Prelude.{◌≡◌, ◌≢◌, ◌+◌, ◌≤◌, IfOk, IsErrOf, IsTrue, false};
ghost use Rattle.ns_http.specs.Counts.{IsOpen};
ghost use Rattle.ns_http.specs.Whole.{FailsToRead, ReadsAll};

use crate::counting::{Counted, is_interruption};
use crate::engine::{ConnFault, READ_LIMIT};
use crate::input::READ_ROOM;
use std::alloc::Global;
use std::io::Read;

/// Reads to the end of the input, and returns all of its bytes.
///
/// It reads at most `READ_LIMIT` times, with room for `READ_ROOM` bytes each time. An interrupted
/// read is made again.
///
/// # Errors
///
/// `Read` where the reader failed, or the reads ran out. `Memory` where there is no memory for the
/// bytes.
pub fn read_to_end<R: Read>(alloc: Global, reader: &mut Counted<R>) -> Result<Vec<u8>, ConnFault>
    ensures ok { IfOk result (λ bytes. ReadsAll R.remaining reader.old reader.new bytes.items) }
    ensures read { IsErrOf result ConnFault.Read
        → FailsToRead reader.old.counts reader.new.counts }
    ensures no_write { result ≢ Err ConnFault.Write }
    // No read follows one that found the end, or that failed otherwise than by interruption. After
    // such a failure the error is `Read`.
    ensures stops { IsOpen reader.old.counts → reader.new.counts.went_on ≡ false }
    ensures broken { IsOpen reader.old.counts → IsTrue reader.new.counts.broken
        → result ≡ Err ConnFault.Read }
    ensures reads { reader.new.counts.calls ≤ reader.old.counts.calls + READ_LIMIT }
{
    let mut room = vec![in alloc; 0; READ_ROOM]?;
    let mut bytes = Vec::new(alloc);
    for _ in 0..READ_LIMIT {
        match reader.read(&mut room) {
            Ok(0) => return Ok(bytes),
            Ok(count) => bytes.extend_from_slice(&room[..count])?,
            Err(error) if is_interruption(&error) => {}
            Err(_) => return Err(ConnFault::Read),
        }
    }
    Err(ConnFault::Read)
}
