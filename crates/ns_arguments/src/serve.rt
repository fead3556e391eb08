//! Reads the values of the arguments of `serve`. None: the value is not allowed.

ghost use Rattle.std.specs.Prelude.{◌≡◌, IfOk, option_map};
ghost use Rattle.ns_arguments.specs.Values.{accept_by, connections_by, idle_by, log_limit_by, rotate_by, rotate_bytes_by};
ghost use Rattle.ns_arguments.specs.Values.{secret_by, workers_by};

use crate::number::{number_between, number_by};
use ns_types::name::Secret;
use std::alloc::{AllocError, Global};

/// The given secret: no secret by default. Want of memory is the only error.
pub fn secret(alloc: Global, given: Option<&str>) -> Result<Option<Option<Secret>>, AllocError>
    ensures { IfOk result (λ secret.
        secret ≡ secret_by (option_map (λ s. s.now) given.entry)) }
{
    match given {
        None => Ok(Some(None)),
        Some(text) => match Secret::read(alloc, text)? {
            Some(secret) => Ok(Some(Some(secret))),
            None => Ok(None),
        },
    }
}

/// The number of workers: 2 by default.
pub fn workers(given: Option<&str>) -> Option<u64>
    ensures { result ≡ workers_by (option_map (λ s. s.now) given.entry) }
{
    number_by(2, 1, 63, given)
}

/// The number of connections that are served at once: 4 by default.
pub fn connections(given: Option<&str>) -> Option<u64>
    ensures { result ≡ connections_by (option_map (λ s. s.now) given.entry) }
{
    number_by(4, 1, 64, given)
}

/// The number of connections after which the server ends: no end by default.
pub fn accept(given: Option<&str>) -> Option<Option<u64>>
    ensures { result ≡ accept_by (option_map (λ s. s.now) given.entry) }
{
    match given {
        None => Some(None),
        Some(text) => number_between(1, u64::MAX, text).map(Some),
    }
}

/// The seconds that a connection may be idle: no limit by default.
pub fn idle(given: Option<&str>) -> Option<Option<u64>>
    ensures { result ≡ idle_by (option_map (λ s. s.now) given.entry) }
{
    match given {
        None => Some(None),
        Some(text) => number_between(1, 86_400, text).map(Some),
    }
}

/// The most entries that the log may have: a million by default.
pub fn log_limit(given: Option<&str>) -> Option<u64>
    ensures { result ≡ log_limit_by (option_map (λ s. s.now) given.entry) }
{
    number_by(1_000_000, 1, u64::MAX, given)
}

/// The number of entries at which the log is rotated, below the limit of the log: never by default.
pub fn rotate(log_limit: u64, given: Option<&str>) -> Option<Option<u64>>
    ensures { result ≡ rotate_by log_limit (option_map (λ s. s.now) given.entry) }
{
    match given {
        None => Some(None),
        Some(text) => number_between(1, log_limit.saturating_sub(1), text).map(Some),
    }
}

/// The bytes of text beyond which the log is rotated as well, allowed only where it is rotated by entries: no limit by default.
pub fn rotate_bytes(rotate: Option<u64>, given: Option<&str>) -> Option<Option<u64>>
    ensures { result ≡ rotate_bytes_by rotate (option_map (λ s. s.now) given.entry) }
{
    match (rotate, given) {
        (_, None) => Some(None),
        (None, Some(_)) => None,
        (Some(_), Some(text)) => number_between(1, u64::MAX, text).map(Some),
    }
}
