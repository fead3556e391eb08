// A server on a TCP port, with its clients in other threads.
ghost use Rattle.std.specs.Prelude.{◌≡◌, ◌+◌, IfOk, vec_len};

use crate::running::guest::GuestBits;
use crate::running::visits::{Visit, sent, text};
use ns_http::Counted;
use ns_listener::{Service, serve};
use ns_types::name::Secret;
use ns_work_lock::PARTS;
use std::alloc::{AllocError, Global};
use std::io::{ErrorKind, Write};
use std::marker::Brand;
use std::net::{Net, SocketAddr, TcpListener, TcpStream};
use std::rt::Clock;
use std::sync::ledger::Blank;
use std::sync::{Mutex, Wait};
use std::thread::Threads;
use std::{io, thread};

/// A writer whose bytes other threads read.
#[derive(Drop)]
struct Notes<'a, R: Wait> {
    rt: &'a R,
    bytes: &'a Mutex<Vec<u8>>,
}

impl<'a, R: Wait> Write for Notes<'a, R> {
    fn write(&mut self, buf: &[u8]) -> io::Result<usize> {
        self.bytes.lock(self.rt).extend_from_slice(buf)?;
        Ok(buf.len())
    }

    fn flush(&mut self) -> io::Result<()> {
        Ok(())
    }
}

/// The output that the log is printed to. It takes all bytes, or none.
#[derive(Drop)]
pub(crate) enum LogOutput {
    Open(Vec<u8>),
    Broken,
}

impl Write for LogOutput {
    fn write(&mut self, buf: &[u8]) -> io::Result<usize> {
        match self {
            LogOutput::Open(bytes) => {
                bytes.extend_from_slice(buf)?;
                Ok(buf.len())
            }
            LogOutput::Broken => Err(io::Error::from(ErrorKind::BrokenPipe)),
        }
    }

    fn flush(&mut self) -> io::Result<()> {
        Ok(())
    }
}

/// How a server ended: its exit status, the log that it printed, its lines of standard error, and what it sent to each client.
#[derive(Drop)]
pub(crate) struct ServerEnd {
    pub status: u8,
    log: Vec<u8>,
    errors: Vec<u8>,
    pub replies: Vec<Vec<u8>>,
}

impl ServerEnd {
    pub(crate) fn log(&self) -> &str {
        text(self.log.as_slice())
    }

    pub(crate) fn errors(&self) -> &str {
        text(self.errors.as_slice())
    }
}

fn drawers(alloc: Global, connections: u64) -> Result<Vec<GuestBits>, AllocError>
    ensures { IfOk result (λ drawers. vec_len drawers ≡ connections + 1) }
{
    let mut drawers = Vec::new(alloc);
    drawers.push(GuestBits)?;
    for _ in 0..connections {
        drawers.push(GuestBits)?;
    }
    Ok(drawers)
}

/// Runs the server, and writes its standard error to `notes`. Returns the exit status and the output.
fn served<R: Threads + Wait + Clock + Sync + Net<Listener = TcpListener, Stream = TcpStream>>(
    rt: &R,
    alloc: Global,
    service: &Service,
    notes: &Mutex<Vec<u8>>,
    output: LogOutput,
) -> Result<(u8, LogOutput), AllocError> {
    let writer = Counted::new(output);
    let mut errors = Counted::new(Notes { rt, bytes: notes });
    let drawers = drawers(alloc, service.connections)?;
    let blank = Blank::new(PARTS);
    let (status, writer) = serve::<Brand, _, _, _, _>(
        rt,
        alloc,
        service,
        drawers,
        blank,
        writer,
        &mut errors,
    );
    Ok((status, writer.into_inner()))
}

/// Runs the server while this many clients come, all at once.
pub(crate) fn run<
    R: Threads + Wait + Clock + Sync + Net<Listener = TcpListener, Stream = TcpStream>,
>(
    rt: &R,
    alloc: Global,
    service: &Service,
    output: LogOutput,
    clients: usize,
    visit: Visit,
) -> Result<ServerEnd, AllocError> {
    let notes = Mutex::new(Vec::new(alloc));
    let errors = &notes;
    let (ended, replies) = thread::join(
        rt,
        move || served(rt, alloc, service, errors, output),
        move || thread::map_indices(rt, alloc, clients, &|_| sent(rt, alloc, errors, visit)),
    );
    let (status, output) = ended?;
    let log = match output {
        LogOutput::Open(bytes) => bytes,
        LogOutput::Broken => Vec::new(alloc),
    };
    Ok(ServerEnd {
        status,
        log,
        errors: notes.into_inner(),
        replies: replies?,
    })
}

/// The settings of a server with two workers, which ends after this many connections and serves all of them at once.
pub(crate) fn service(alloc: Global, connections: u64) -> Result<Service, AllocError> {
    Ok(Service {
        address: SocketAddr::from(([127, 0, 0, 1], 0)),
        bootstrap: Secret::read(alloc, "root")?,
        workers: 2,
        connections,
        accept: Some(connections),
        idle: None,
        log_limit: 10_000,
        rotate: None,
        rotate_bytes: None,
    })
}

/// Whether the server ended with exit status 0, and the last line says how many entries the printed log has.
pub(crate) fn is_settled(alloc: Global, ending: &ServerEnd) -> Result<bool, AllocError> {
    let entries = ending.log().matches("\n{").count();
    let line = format!(in alloc; "settled {entries}")?;
    Ok(ending.status == 0 && ending.errors().lines().last() == Some(line.as_str()))
}
