//! Connections, one after another.

ghost use Rattle.std.specs.Prelude.{IsErr, IsNone};
ghost use Rattle.ns_workers.specs.Growing.{Grows};
ghost use Rattle.ns_listener.specs.Duties.{IsRequested};

use crate::clients::{Client, serve};
use crate::context::Context;
use crate::leaving::leave;
use ns_endpoints::Draws;
use ns_http::Counted;
use ns_work_lock::Retention;
use std::alloc::Global;
use std::io;
use std::net::TcpStream;
use std::rt::Clock;
use std::sync::Wait;
use std::sync::ledger::Ledger;
use std::time::Duration;

/// Makes replies leave at once, and bounds how many seconds a read or a write may wait.
fn set_up(stream: &TcpStream, idle: Option<u64>) -> io::Result<()> {
    let longest = idle.map(Duration::from_secs);
    stream.set_nodelay(true)?;
    stream.set_read_timeout(longest)?;
    stream.set_write_timeout(longest)
}

/// Answers the requests of the stream. Returns whether the connection ended in order.
fn answer<L: Ledger, R: Wait, D: Draws, M: Retention>(
    alloc: Global,
    stream: &TcpStream,
    client: &mut Client<'_, L, R, D, M>,
) -> bool
    ensures { Grows (IsRequested D.draws) client.old.taker.seat client.new.taker.seat }
{
    let mut reader = Counted::new(stream);
    let mut writer = Counted::new(stream);
    serve(alloc, &mut reader, &mut writer, client).is_ok()
}

/// Answers the requests of a connection, which ends if the client is idle for longer than `idle` seconds. A fault of the
/// connection ends no other connection.
fn converse<L: Ledger, R: Wait + Clock, D: Draws, M: Retention>(
    rt: &R,
    alloc: Global,
    stream: &TcpStream,
    idle: Option<u64>,
    client: &mut Client<'_, L, R, D, M>,
)
    ensures { Grows (IsRequested D.draws) client.old.taker.seat client.new.taker.seat }
{
    if set_up(stream, idle).is_err() {
        return;
    }
    if answer(alloc, stream, client) {
        leave(rt, alloc, stream);
    }
}

/// Serves one connection after another, as long as the limit allows: without a limit until no more connections can be accepted,
/// which is the only error.
pub fn serve_connections<L: Ledger, R: Wait + Clock, D: Draws, M: Retention>(
    rt: &R,
    alloc: Global,
    context: &Context<L>,
    client: &mut Client<'_, L, R, D, M>,
) -> io::Result<()>
    ensures grows { Grows (IsRequested D.draws) client.old.taker.seat client.new.taker.seat }
    ensures endless { IsNone context.now.accept_limit.left → IsErr result }
{
    for _ in rt.forever() {
        if !context.accept_limit.take() {
            return Ok(());
        }
        let stream = context.listener.accept(rt)?;
        converse(rt, alloc, &stream, context.idle, client);
    }
    unreachable!()
}
