//! The settings of a server.

use ns_types::name::Secret;
use std::net::SocketAddr;

/// The settings of a server.
#[derive(Drop)]
pub struct Service {
    /// The address that it listens on.
    pub address: SocketAddr,
    /// The secret of the first management token. None: it is drawn, and printed.
    pub bootstrap: Option<Secret>,
    /// How many workers it has: 1 to 63.
    pub workers: u64,
    /// How many connections are served at once: 1 to 64.
    pub connections: u64,
    /// After how many connections it ends, from 1 on. None: never.
    pub accept: Option<u64>,
    /// How many seconds a client may leave its connection idle, from 1 on: the server then closes it. None: no bound.
    pub idle: Option<u64>,
    /// How many entries the log can have, from 1 on.
    pub log_limit: u64,
    /// At how many entries the log is rotated, from 1 on and below the limit. None: never.
    pub rotate: Option<u64>,
    /// The log is also rotated when its entries have more than this many bytes of text, from 1 on. None if `rotate` is None.
    pub rotate_bytes: Option<u64>,
}
