//! The socket that accepts connections.

use std::io::{self, ErrorKind};
use std::net::{Net, Shutdown, SocketAddr, TcpListener, TcpStream};
use std::os::fd::OwnedFd;
use std::sync::Wait;

/// A listener, with a second handle of its socket, so that no memory is needed to shut it.
#[derive(Drop)]
pub struct Listener {
    listener: TcpListener,
    closer: TcpStream,
}

/// Whether `accept` may be called again: it was interrupted, or the peer had gone.
fn is_passing(error: &io::Error) -> bool {
    matches!(
        error.kind(),
        ErrorKind::Interrupted | ErrorKind::ConnectionAborted
    )
}

impl Listener {
    /// Listens on the address.
    pub fn open<R: Net<Listener = TcpListener, Stream = TcpStream>>(
        rt: &R,
        address: SocketAddr,
    ) -> io::Result<Listener> {
        let listener = TcpListener::bind(rt, address)?;
        let closer = TcpStream::from(OwnedFd::from(listener.try_clone()?));
        Ok(Listener { listener, closer })
    }

    /// The address that it listens on. The system chose the port, if the address asked for none.
    pub fn address(&self) -> io::Result<SocketAddr> {
        self.listener.local_addr()
    }

    /// Waits for the next connection. It fails where none can be accepted.
    pub fn accept<R: Wait>(&self, rt: &R) -> io::Result<TcpStream> {
        for _ in rt.forever() {
            match self.listener.accept() {
                Ok((stream, _)) => return Ok(stream),
                Err(error) if is_passing(&error) => {}
                Err(error) => return Err(error),
            }
        }
        unreachable!()
    }

    /// Shuts the socket: every call of `accept` fails from now on, and so do those that wait.
    pub fn shut(&self) {
        let _ = self.closer.shutdown(Shutdown::Both);
    }
}
