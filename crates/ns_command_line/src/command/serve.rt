//! The words of `serve`.

ghost use Rattle.std.specs.Prelude.{◌≡◌, IfOk, codes, false};
ghost use Rattle.clap.specs.Words.{app_of, new_app, with_rule};
ghost use Rattle.clap.specs.declared.builder.command.Command.TheViews.{out-Command};
ghost use Rattle.ns_command_line.specs.Serve.{listen_rule, serve_words};

use crate::command::options::{OptionWords, bare, required, with_options};
use clap::Command;
use std::alloc::{AllocError, Global};

const SERVE: &str = "\
Each connection carries HTTP/1.1 requests, one after another. Workers place jobs, in threads of their
own, and one thread applies their plans, one at a time.
With --accept the server ends after so many connections, and then checks its log against what each
thread was answered.
With --idle N it closes a connection whose client sends nothing, or reads nothing, for N seconds. Use
it: without it, as many silent clients as --connections keep all others waiting.
Without --rotate each request is answered 503 `log full` once the log is full.
With --rotate N the server writes the log to standard output at N entries, and begins a new one; with
--rotate-bytes B also when the entries have more than B bytes of text.

Example:
  nsd serve --listen 127.0.0.1:4646 --bootstrap root --rotate 100000 --idle 60 > nsd.log
  curl -H 'X-Nomad-Token: root' http://127.0.0.1:4646/v1/jobs

Standard error:
  listening ADDR    the address, once the server listens
  bootstrap SECRET  the secret of the first management token, if it was drawn
  log limit N       without --rotate and --accept: after N entries each request is answered 503
  settled K         with --accept: the log has K entries, which are what the threads were answered
  mismatch          with --accept: the log is not what the threads were answered, or is no run
Standard output: the log, in the format of `pipe --print log`. With --rotate it comes piece by piece;
with --accept the rest comes at the end.

Exit statuses:
  0  served and settled
  1  mismatch
  2  bad arguments
  3  the address cannot be bound, a connection cannot be accepted, or there are no random bits
  4  the output failed
  5  out of memory, or a thread could not be started";

const LISTEN: OptionWords = (
    "listen",
    "ADDR",
    "Address to listen on: an IP address and a port, as 127.0.0.1:4646 or [::1]:0",
);

const BOOTSTRAP: OptionWords = (
    "bootstrap",
    "SECRET",
    "Secret of the first management token (default: drawn at random and printed)",
);

const WORKERS: OptionWords = ("workers", "N", "Number of workers, 1 to 63 (default: 2)");

const CONNECTIONS: OptionWords = (
    "connections",
    "N",
    "Number of connections served at once, 1 to 64 (default: 4)",
);

const ACCEPT: OptionWords = (
    "accept",
    "N",
    "Number of connections after which the server ends (default: none, it runs on)",
);

const IDLE: OptionWords = (
    "idle",
    "SECONDS",
    "Number of seconds after which an idle connection is closed, 1 to 86400 (default: never)",
);

const LOG_LIMIT: OptionWords = (
    "log-limit",
    "N",
    "Number of entries that the log may have (default: 1000000)",
);

const ROTATE: OptionWords = (
    "rotate",
    "N",
    "Number of entries at which the log is written out, below its limit (default: never)",
);

const ROTATE_BYTES: OptionWords = (
    "rotate-bytes",
    "B",
    "Number of bytes of text past which it is written out as well, with --rotate only",
);

/// `serve` with the address alone.
fn listening<'a>(alloc: Global) -> Result<Command<'a>, AllocError>
    ensures shape { IfOk result (λ command.
        app_of command ≡ with_rule (new_app (codes "serve")) listen_rule) }
    ensures local { IfOk result (λ command. (out-Command command).has_globals ≡ false) }
{
    let about = "Runs the server on a TCP port: HTTP/1.1, many connections and workers at once";
    bare(alloc, "serve", about, SERVE).arg(required(alloc, LISTEN))
}

/// `serve` with all its arguments.
pub fn serve<'a>(alloc: Global) -> Result<Command<'a>, AllocError>
    ensures shape { IfOk result (λ command. app_of command ≡ serve_words) }
    ensures local { IfOk result (λ command. (out-Command command).has_globals ≡ false) }
{
    let command = listening(alloc)?;
    with_options(
        alloc,
        command,
        &[
            BOOTSTRAP,
            WORKERS,
            CONNECTIONS,
            ACCEPT,
            IDLE,
            LOG_LIMIT,
            ROTATE,
            ROTATE_BYTES,
        ],
    )
}
