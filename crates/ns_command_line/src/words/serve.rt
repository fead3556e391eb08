//! The arguments of `serve`.

ghost use Rattle.std.specs.Prelude.{◌≡◌, IfOk, IfErr, Some, codes};
ghost use Rattle.clap.specs.Words.{kind_of, subcommand_rows_of};
ghost use Rattle.ns_listener.specs.declared.service.Service.{Service};
ghost use Rattle.ns_command_line.specs.Serve.{IsServe, of_serve};
ghost use Rattle.ns_command_line.specs.Words.{IsRefusal};

use crate::words::pipe::BAD_SECRET;
use crate::words::value::{given, refused};
use clap::error::ErrorKind;
use clap::{ArgMatches, Command, Error};
use ns_arguments::{accept, connections, idle, log_limit, rotate, rotate_bytes, secret, workers};
use ns_listener::Service;
use std::alloc::Global;
use std::net::SocketAddr;

const BAD_LISTEN: &str = "the address is an IP address and a port, as 127.0.0.1:4646 or [::1]:4646";

const BAD_WORKERS: &str = "there are 1 to 63 workers";

const BAD_CONNECTIONS: &str = "1 to 64 connections are served at once";

const BAD_ACCEPT: &str =
    "the connections to be accepted are a decimal number from 1 on, below 2^64";

const BAD_IDLE: &str = "a connection may be idle for 1 to 86400 seconds";

const BAD_LOG_LIMIT: &str = "the limit of the log is a decimal number from 1 on, below 2^64";

const BAD_ROTATE: &str =
    "the log is rotated with a decimal number of entries from 1 on, below the limit of the log";

const BAD_ROTATE_BYTES: &str =
    "beside --rotate, the bytes that the log is rotated past are a decimal number from 1 on, below 2^64";

/// The settings that the arguments of `serve` give, with this address, or the fault in them.
pub fn serve_given(
    alloc: Global,
    command: &mut Command,
    matches: &ArgMatches,
    address: &str,
) -> Result<Service, Error>
    requires given { of_serve (codes "listen") (subcommand_rows_of matches.now) ≡ Some address.now }
    ensures gives { IfOk result (IsServe (subcommand_rows_of matches.now)) }
    ensures good { (service : Service) → IsServe (subcommand_rows_of matches.now) service
        → IfErr result (λ error. kind_of error ≡ ErrorKind.OutOfMemory) }
    ensures bad { IfErr result IsRefusal }
{
    let Ok(address) = address.parse::<SocketAddr>() else {
        return Err(refused(command, BAD_LISTEN));
    };
    let Some(bootstrap) = secret(alloc, given(matches, "serve", "bootstrap"))? else {
        return Err(refused(command, BAD_SECRET));
    };
    let Some(workers) = workers(given(matches, "serve", "workers")) else {
        return Err(refused(command, BAD_WORKERS));
    };
    let Some(connections) = connections(given(matches, "serve", "connections")) else {
        return Err(refused(command, BAD_CONNECTIONS));
    };
    let Some(accept) = accept(given(matches, "serve", "accept")) else {
        return Err(refused(command, BAD_ACCEPT));
    };
    let Some(idle) = idle(given(matches, "serve", "idle")) else {
        return Err(refused(command, BAD_IDLE));
    };
    let Some(log_limit) = log_limit(given(matches, "serve", "log-limit")) else {
        return Err(refused(command, BAD_LOG_LIMIT));
    };
    let Some(rotate) = rotate(log_limit, given(matches, "serve", "rotate")) else {
        return Err(refused(command, BAD_ROTATE));
    };
    let Some(rotate_bytes) = rotate_bytes(rotate, given(matches, "serve", "rotate-bytes")) else {
        return Err(refused(command, BAD_ROTATE_BYTES));
    };
    Ok(Service {
        address,
        bootstrap,
        workers,
        connections,
        accept,
        idle,
        log_limit,
        rotate,
        rotate_bytes,
    })
}
