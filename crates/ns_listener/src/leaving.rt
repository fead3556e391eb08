//! How the server leaves a connection, so that the client gets its last reply.
//!
//! A socket that is closed while bytes wait in it resets the connection, and the client loses what it did not read yet: for
//! example the 413 for a body that the server does not read.

use std::alloc::Global;
use std::io::{self, Read};
use std::net::{Shutdown, TcpStream};
use std::rt::Clock;
use std::time::Duration;

/// How many bytes are read at once.
const ROOM: usize = 16_384;

/// How many bytes are read at most.
const MOST: u64 = 16_777_216;

/// How long a client may send nothing, in seconds.
const SILENCE: u64 = 1;

/// How long a client may send, in seconds.
const LONGEST: u64 = 3;

/// Reads and drops what the client sends, until it ends, is silent, or has sent for too long or too much.
fn drain<R: Clock>(rt: &R, alloc: Global, stream: &TcpStream) -> io::Result<()> {
    let until = rt.monotonic()?.saturating_add(Duration::from_secs(LONGEST));
    let mut room = vec![in alloc; 0_u8; ROOM]?;
    let mut rest = stream.take(MOST);
    for _ in 0..MOST {
        if rest.read(&mut room)? == 0 || until <= rt.monotonic()? {
            break;
        }
    }
    Ok(())
}

/// Tells the client that no more replies come, and drops what it still sends. If that fails, no other connection is affected.
pub fn leave<R: Clock>(rt: &R, alloc: Global, stream: &TcpStream) {
    let silence = Some(Duration::from_secs(SILENCE));
    if stream.shutdown(Shutdown::Write).is_ok() && stream.set_read_timeout(silence).is_ok() {
        let _ = drain(rt, alloc, stream);
    }
}
