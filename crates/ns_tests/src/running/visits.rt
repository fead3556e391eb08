// Clients of a server on a TCP port.
use std::alloc::Global;
use std::io::{ErrorKind, Read, Write};
use std::net::{Net, TcpListener, TcpStream};
use std::rt::Clock;
use std::sync::{Mutex, Wait};
use std::time::Duration;
use std::{io, thread};

const REGISTRATION: &[u8] =
    b"POST /v1/jobs HTTP/1.1\r\nX-Nomad-Token: root\r\nContent-Length: 71\r\n\r\n{\"Job\":{\"ID\":\"web\",\"TaskGroups\":[{\"Name\":\"g\",\"Tasks\":[{\"Name\":\"t\"}]}]}}";

/// A request that is cut off.
const PART: &[u8] =
    b"POST /v1/jobs HTTP/1.1\r\nX-Nomad-Token: root\r\nContent-Length: 71\r\n\r\n{\"Job\":{";

const LOOK: &[u8] = b"GET /v1/job/web HTTP/1.1\r\nX-Nomad-Token: root\r\nConnection: close\r\n\r\n";

pub(crate) const REGISTERED: &str =
    "HTTP/1.1 200 OK\r\nContent-Type: application/json\r\nX-Nomad-Index: 1\r\nContent-Length: 88\r\n\r\n{\"EvalCreateIndex\":1,\"EvalID\":\"00000000-0000-0001-0000-000000000001\",\"JobModifyIndex\":1}";

/// How often a client looks for the port, a millisecond apart.
const LOOKS: u64 = 10_000;

/// What a client does.
#[derive(Clone, Copy)]
pub(crate) enum Visit {
    /// It registers the job and reads it.
    Asks,
    /// It registers the job and reads it, while another connection waits in the middle of a request and is closed after that.
    AsksBesideAnother,
    /// It closes without a request.
    Leaves,
}

/// The bytes as text. It is empty if they are no text.
pub(crate) fn text(bytes: &[u8]) -> &str {
    std::str::from_utf8(bytes).unwrap_or("")
}

/// The port in the line that says where the server listens, once that line is written.
fn noted_port(bytes: &[u8]) -> Option<u16> {
    let (line, _) = text(bytes).split_once('\n')?;
    let port = line.strip_prefix("listening 127.0.0.1:")?;
    port.parse::<u16>().ok()
}

/// Connects to the server that writes its standard error to `notes`.
fn connected<R: Wait + Clock + Net<Listener = TcpListener, Stream = TcpStream>>(
    rt: &R,
    notes: &Mutex<Vec<u8>>,
) -> io::Result<TcpStream> {
    for _ in 0..LOOKS {
        let found = noted_port(notes.lock(rt).as_slice());
        if let Some(port) = found {
            return TcpStream::connect(rt, ("127.0.0.1", port));
        }
        thread::sleep(rt, Duration::from_millis(1));
    }
    Err(io::Error::from(ErrorKind::TimedOut))
}

/// All that the server sends for a registration and a read of the job.
fn asked<R: Wait + Clock + Net<Listener = TcpListener, Stream = TcpStream>>(
    rt: &R,
    alloc: Global,
    notes: &Mutex<Vec<u8>>,
) -> io::Result<Vec<u8>> {
    let mut stream = connected(rt, notes)?;
    stream.write_all(REGISTRATION)?;
    stream.write_all(LOOK)?;
    let mut replies = Vec::new(alloc);
    stream.read_to_end(&mut replies)?;
    Ok(replies)
}

/// All that the server sends for a registration and a read of the job, while another connection waits in the middle of a
/// request and is closed after that.
fn asked_beside_another<R: Wait + Clock + Net<Listener = TcpListener, Stream = TcpStream>>(
    rt: &R,
    alloc: Global,
    notes: &Mutex<Vec<u8>>,
) -> io::Result<Vec<u8>> {
    let mut another = connected(rt, notes)?;
    another.write_all(PART)?;
    asked(rt, alloc, notes)
}

/// All that the server sends to a client. It is empty if the connection fails.
pub(crate) fn sent<R: Wait + Clock + Net<Listener = TcpListener, Stream = TcpStream>>(
    rt: &R,
    alloc: Global,
    notes: &Mutex<Vec<u8>>,
    visit: Visit,
) -> Vec<u8> {
    let replies = match visit {
        Visit::Asks => asked(rt, alloc, notes),
        Visit::AsksBesideAnother => asked_beside_another(rt, alloc, notes),
        Visit::Leaves => connected(rt, notes).map(|_| Vec::new(alloc)),
    };
    replies.unwrap_or(Vec::new(alloc))
}
