// The texts for bad words of `serve`, and its help.
use crate::wire::texts::are_bad;
use std::alloc::Global;
use std::rt::HostRuntime;

const NO_ADDRESS: &str = "error: the following required arguments were not provided:
  --listen <ADDR>

Usage: nsd serve --listen <ADDR>

For more information, try '--help'.
";

const BAD_ADDRESS: &str =
    "error: the address is an IP address and a port, as 127.0.0.1:4646 or [::1]:4646

Usage: nsd <COMMAND>

For more information, try '--help'.
";

const BAD_SECRET: &str = "error: the bootstrap secret has 1 to 64 printable bytes without a space

Usage: nsd <COMMAND>

For more information, try '--help'.
";

const BAD_WORKERS: &str = "error: there are 1 to 63 workers

Usage: nsd <COMMAND>

For more information, try '--help'.
";

const BAD_CONNECTIONS: &str = "error: 1 to 64 connections are served at once

Usage: nsd <COMMAND>

For more information, try '--help'.
";

const BAD_ACCEPT: &str =
    "error: the connections to be accepted are a decimal number from 1 on, below 2^64

Usage: nsd <COMMAND>

For more information, try '--help'.
";

const BAD_IDLE: &str = "error: a connection may be idle for 1 to 86400 seconds

Usage: nsd <COMMAND>

For more information, try '--help'.
";

const BAD_LOG_LIMIT: &str = "error: the limit of the log is a decimal number from 1 on, below 2^64

Usage: nsd <COMMAND>

For more information, try '--help'.
";

const BAD_ROTATE: &str =
    "error: the log is rotated with a decimal number of entries from 1 on, below the limit of the log

Usage: nsd <COMMAND>

For more information, try '--help'.
";

const BAD_ROTATE_BYTES: &str =
    "error: beside --rotate, the bytes that the log is rotated past are a decimal number from 1 on, below 2^64

Usage: nsd <COMMAND>

For more information, try '--help'.
";

/// A bad word of `serve` after a good address, and the text that it gets.
static BAD_WORDS: [(&str, &str); 23] = [
    ("--bootstrap=a b", BAD_SECRET),
    ("--workers=0", BAD_WORKERS),
    ("--workers=64", BAD_WORKERS),
    ("--workers=+1", BAD_WORKERS),
    ("--workers=", BAD_WORKERS),
    ("--connections=0", BAD_CONNECTIONS),
    ("--connections=65", BAD_CONNECTIONS),
    ("--connections=-1", BAD_CONNECTIONS),
    ("--accept=0", BAD_ACCEPT),
    ("--accept=+1", BAD_ACCEPT),
    ("--accept=18446744073709551616", BAD_ACCEPT),
    ("--idle=0", BAD_IDLE),
    ("--idle=86401", BAD_IDLE),
    ("--idle=1.5", BAD_IDLE),
    ("--idle=", BAD_IDLE),
    ("--log-limit=0", BAD_LOG_LIMIT),
    ("--log-limit=1e6", BAD_LOG_LIMIT),
    ("--log-limit=18446744073709551616", BAD_LOG_LIMIT),
    ("--rotate=0", BAD_ROTATE),
    ("--rotate=1000000", BAD_ROTATE),
    ("--rotate=-1", BAD_ROTATE),
    ("--rotate=", BAD_ROTATE),
    ("--rotate-bytes=1", BAD_ROTATE_BYTES),
];

static BAD_ADDRESSES: [&str; 6] = [
    "",
    "127.0.0.1",
    "127.0.0.1:",
    "127.0.0.1:65536",
    "localhost:4646",
    "::1:4646",
];

/// Words that are bad beside `--rotate=1`.
static BAD_BYTES: [&str; 2] = ["--rotate-bytes=0", "--rotate-bytes=18446744073709551616"];

#[test]
fn bad_addresses_of_serve(rt: HostRuntime) {
    let alloc = rt.alloc();
    assert!(rt; are_bad(alloc, &["nsd", "serve"], NO_ADDRESS));
    for address in &BAD_ADDRESSES {
        let words = ["nsd", "serve", "--listen", *address];
        assert!(rt; are_bad(alloc, &words, BAD_ADDRESS));
    }
}

#[test]
fn bad_words_of_serve(rt: HostRuntime) {
    let alloc = rt.alloc();
    for (word, text) in &BAD_WORDS {
        let words = ["nsd", "serve", "--listen", "127.0.0.1:0", *word];
        assert!(rt; are_bad(alloc, &words, *text));
    }
}

#[test]
fn bad_bytes_beside_rotation(rt: HostRuntime) {
    let alloc = rt.alloc();
    for word in &BAD_BYTES {
        let words = [
            "nsd",
            "serve",
            "--listen",
            "127.0.0.1:0",
            "--rotate=1",
            *word,
        ];
        assert!(rt; are_bad(alloc, &words, BAD_ROTATE_BYTES));
    }
}

pub(crate) const HELP: &str =
    "Runs the server on a TCP port: HTTP/1.1, many connections and workers at once

Usage: nsd serve [OPTIONS] --listen <ADDR>

Options:
      --listen <ADDR>       Address to listen on: an IP address and a port, as 127.0.0.1:4646 or [::1]:0
      --bootstrap <SECRET>  Secret of the first management token (default: drawn at random and printed)
      --workers <N>         Number of workers, 1 to 63 (default: 2)
      --connections <N>     Number of connections served at once, 1 to 64 (default: 4)
      --accept <N>          Number of connections after which the server ends (default: none, it runs on)
      --idle <SECONDS>      Number of seconds after which an idle connection is closed, 1 to 86400 (default: never)
      --log-limit <N>       Number of entries that the log may have (default: 1000000)
      --rotate <N>          Number of entries at which the log is written out, below its limit (default: never)
      --rotate-bytes <B>    Number of bytes of text past which it is written out as well, with --rotate only
  -h, --help                Print help

Each connection carries HTTP/1.1 requests, one after another. Workers place jobs, in threads of their
own, and one thread applies their plans, one at a time.
With --accept the server ends after so many connections, and then checks its log against what each
thread was answered.
With --idle N it closes a connection whose client sends nothing, or reads nothing, for N seconds. Use
it: without it, as many silent clients as --connections keep all others waiting.
Without --rotate each request is answered 503 `log full` once the log is full.
With --rotate N the server writes the log to standard output at N entries, and begins a new one; with
--rotate-bytes B also when the entries have more than B bytes of text.

Example:
  nsd serve --listen 127.0.0.1:4646 --bootstrap root --rotate 100000 --idle 60 > nsd.log
  curl -H 'X-Nomad-Token: root' http://127.0.0.1:4646/v1/jobs

Standard error:
  listening ADDR    the address, once the server listens
  bootstrap SECRET  the secret of the first management token, if it was drawn
  log limit N       without --rotate and --accept: after N entries each request is answered 503
  settled K         with --accept: the log has K entries, which are what the threads were answered
  mismatch          with --accept: the log is not what the threads were answered, or is no run
Standard output: the log, in the format of `pipe --print log`. With --rotate it comes piece by piece;
with --accept the rest comes at the end.

Exit statuses:
  0  served and settled
  1  mismatch
  2  bad arguments
  3  the address cannot be bound, a connection cannot be accepted, or there are no random bits
  4  the output failed
  5  out of memory, or a thread could not be started
";
