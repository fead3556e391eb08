// The log takes one entry: the first request is served, and the reply to the next one is `log full`.
ghost use Rattle.std.specs.Prelude.{◌≡◌};

use crate::running::guest::{guest, replies};
use crate::running::server::opened;
use ns_work_lock::{PARTS, Shared};
use std::alloc::Global;
use std::marker::Brand;
use std::process::Abort;
use std::sync::Wait;
use std::sync::ledger::{Blank, Ledger};

const REQUESTS: &str =
    "POST /v1/jobs HTTP/1.1\r\nX-Nomad-Token: root\r\nContent-Length: 71\r\n\r\n{\"Job\":{\"ID\":\"web\",\"TaskGroups\":[{\"Name\":\"g\",\"Tasks\":[{\"Name\":\"t\"}]}]}}GET /v1/job/web HTTP/1.1\r\nX-Nomad-Token: root\r\nConnection: close\r\n\r\n";

const REPLIES: &str =
    "HTTP/1.1 200 OK\r\nContent-Type: application/json\r\nX-Nomad-Index: 1\r\nContent-Length: 88\r\n\r\n{\"EvalCreateIndex\":1,\"EvalID\":\"00000000-0000-0001-0000-000000000001\",\"JobModifyIndex\":1}HTTP/1.1 503 Service Unavailable\r\nContent-Type: text/plain; charset=utf-8\r\nContent-Length: 8\r\nConnection: close\r\n\r\nlog full";

/// What the server sends for the requests.
fn answers<L: Ledger, R: Wait + Abort>(rt: &R, alloc: Global, shared: &Shared<L>) -> String {
    let mut guest = guest(rt, alloc, shared);
    replies(rt, alloc, &mut guest, REQUESTS)
}

/// Whether the replies are `REPLIES`, and the log has one entry.
fn fills<L: Ledger, R: Wait + Abort>(rt: &R, alloc: Global, blank: Blank) -> bool
    requires name { blank.name ≡ L.name }
    requires parts { (blank.parts ≡ L.parts) × (L.parts ≡ 18446744073709551615) }
{
    let shared = opened::<L, R>(rt, alloc, 1, blank);
    let answers = answers(rt, alloc, &shared);
    let ended = shared.end();
    answers.as_str() == REPLIES && ended.held().log().len() == 1
}

#[test]
fn a_full_log_takes_no_step(rt: HostRuntime) {
    let full = fills::<Brand, _>(&rt, rt.alloc(), Blank::new(PARTS));
    assert!(rt; full);
}
