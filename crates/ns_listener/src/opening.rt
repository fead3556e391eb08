//! Opens a server.

ghost use Rattle.std.specs.Prelude.{◌≡◌, ◌≢◌, ◌++◌, Err, IfOk, OnOk, string_bytes};
ghost use Rattle.ns_http.specs.declared.engine.ConnFault.TheVariants as ConnFault;
ghost use Rattle.ns_listener.specs.Opening.{IsSecret, begun_by, limit_lines, opening_lines, secret_lines};

use crate::Listener;
use crate::secret::chosen_secret;
use crate::service::Service;
use ns_core::Core;
use ns_endpoints::Draws;
use ns_http::ConnFault;
use ns_types::name::Secret;
use ns_work_log::Held;
use std::alloc::{AllocError, Global};
use std::net::{Net, SocketAddr, TcpListener, TcpStream};

/// A server that listens, with the lines to print before it serves.
#[derive(Drop)]
pub struct Opened {
    pub listener: Listener,
    pub address: SocketAddr,
    pub secret: Secret,
    pub held: Held,
    pub lines: String,
}

/// Adds the line of the secret, where none was given.
fn push_secret(
    lines: &mut String,
    given: &Option<Secret>,
    secret: &Secret,
) -> Result<(), AllocError>
    ensures { OnOk result (string_bytes lines.new
        ≡ string_bytes lines.old ++ secret_lines given.now secret.now) }
{
    if given.is_some() {
        return Ok(());
    }
    let secret = secret.get().as_str();
    writeln!(lines, "bootstrap {secret}")
}

/// Adds the line of the log's limit, where the server neither ends after some connections nor rotates its log.
fn push_limit(lines: &mut String, service: &Service) -> Result<(), AllocError>
    ensures { let s = service.now in OnOk result (string_bytes lines.new
        ≡ string_bytes lines.old ++ limit_lines s.accept s.rotate s.log_limit) }
{
    if service.accept.is_some() || service.rotate.is_some() {
        return Ok(());
    }
    let limit = service.log_limit;
    writeln!(
        lines,
        "log limit {limit}: after so many entries each request is answered 503, unless --rotate is given"
    )
}

/// The first lines: the address, the secret if none was given, and the log's limit if the server neither ends after some
/// connections nor rotates its log.
fn opening_lines(
    alloc: Global,
    service: &Service,
    address: SocketAddr,
    secret: &Secret,
) -> Result<String, AllocError>
    ensures { IfOk result (λ lines.
        string_bytes lines ≡ opening_lines service.now address secret.now) }
{
    let mut lines = String::new(alloc);
    writeln!(lines, "listening {address}")?;
    push_secret(&mut lines, &service.bootstrap, secret)?;
    push_limit(&mut lines, service)?;
    Ok(lines)
}

/// Listens, and opens a new server by the secret. Its log is empty.
pub fn open<R: Net<Listener = TcpListener, Stream = TcpStream>, D: Draws>(
    rt: &R,
    alloc: Global,
    service: &Service,
    drawer: &mut D,
) -> Result<Opened, ConnFault>
    ensures secret { IfOk result (λ opened.
        IsSecret D.draws service.now.bootstrap drawer.old opened.secret) }
    ensures lines { IfOk result (λ opened. string_bytes opened.lines
        ≡ opening_lines service.now opened.address opened.secret) }
    ensures server { IfOk result (λ opened.
        opened.held ≡ begun_by opened.secret service.now.log_limit) }
    ensures no_write { result ≢ Err ConnFault.Write }
{
    let Ok(listener) = Listener::open(rt, service.address) else {
        return Err(ConnFault::Read);
    };
    let Ok(address) = listener.address() else {
        return Err(ConnFault::Read);
    };
    let secret = chosen_secret(alloc, &service.bootstrap, drawer)?;
    let lines = opening_lines(alloc, service, address, &secret)?;
    let held = Held::new(alloc, Core::new(alloc, &secret)?, service.log_limit);
    Ok(Opened {
        listener,
        address,
        secret,
        held,
        lines,
    })
}
