// Runs whose input or output is slow or fails.
use crate::wire::same_bits::SameBits;
use crate::wire::streams::{Narrow, Slow, giving};
use ns_command_line::{RunEnd, run_words};
use ns_http::Counted;
use std::alloc::Global;
use std::rt::HostRuntime;

const WORDS: [&str; 4] = ["nsd", "pipe", "--bootstrap", "root"];

const INPUT: &[u8] =
    b"POST /v1/jobs HTTP/1.1\r\nX-Nomad-Token: root\r\nContent-Length: 71\r\n\r\n{\"Job\":{\"ID\":\"web\",\"TaskGroups\":[{\"Name\":\"g\",\"Tasks\":[{\"Name\":\"t\"}]}]}}GET /v1/jobs HTTP/1.1\r\nX-Nomad-Token: root\r\n\r\n";

const REGISTERED: &[u8] =
    b"HTTP/1.1 200 OK\r\nContent-Type: application/json\r\nX-Nomad-Index: 1\r\nContent-Length: 88\r\n\r\n{\"EvalCreateIndex\":1,\"EvalID\":\"00000000-0000-0001-0000-000000000001\",\"JobModifyIndex\":1}";

const LISTED: &[u8] =
    b"HTTP/1.1 200 OK\r\nContent-Type: application/json\r\nX-Nomad-Index: 1\r\nContent-Length: 105\r\n\r\n[{\"ID\":\"web\",\"JobModifyIndex\":1,\"Namespace\":\"default\",\"Priority\":50,\"Status\":\"pending\",\"Type\":\"service\"}]";

/// What a run left.
#[derive(Drop)]
struct RunLeft {
    status: u8,
    written: Vec<u8>,
    errors: Vec<u8>,
}

fn run(alloc: Global, reader: Slow<'_>, room: usize) -> RunLeft {
    let mut errors = Counted::new(Vec::new(alloc));
    let writer = Narrow {
        bytes: Vec::new(alloc),
        step: usize::MAX,
        room,
        fails: true,
    };
    let outcome = run_words(alloc, &WORDS, SameBits, reader, writer, &mut errors);
    let (status, written) = match outcome {
        RunEnd::Ended(ended) => (ended.status, ended.writer.into_inner().bytes),
        RunEnd::Serve(..) => (u8::MAX, Vec::new(alloc)),
    };
    RunLeft {
        status,
        written,
        errors: errors.into_inner(),
    }
}

/// Whether the run left this status, this output and these errors.
fn leaves(left: &RunLeft, status: u8, written: &[&[u8]], errors: &[u8]) -> bool {
    let mut rest = left.written.as_slice();
    for part in written {
        match rest.strip_prefix(*part) {
            Some(after) => rest = after,
            None => return false,
        }
    }
    rest.is_empty() && left.status == status && left.errors.as_slice() == errors
}

/// Whether both requests are answered when each read gives at most `step` bytes.
fn is_answered(alloc: Global, step: usize) -> bool {
    let left = run(alloc, giving(INPUT, step), usize::MAX);
    leaves(&left, 0, &[REGISTERED, LISTED], b"")
}

#[test]
fn input_is_served_at_any_cut(rt: HostRuntime) {
    for step in 1..=INPUT.len() {
        assert!(rt; is_answered(rt.alloc(), step), "at {step} bytes a read");
    }
}

/// Whether a run over all but the last byte answers the first request, and then reports a read fault.
fn is_read_fault(alloc: Global, fails: bool) -> bool {
    let reader = Slow {
        rest: &INPUT[..INPUT.len() - 1],
        step: usize::MAX,
        left: if fails { 1 } else { usize::MAX },
    };
    let left = run(alloc, reader, usize::MAX);
    leaves(&left, 3, &[REGISTERED], b"read fault\n")
}

#[test]
fn input_that_ends_inside_a_request_or_fails(rt: HostRuntime) {
    assert!(rt; is_read_fault(rt.alloc(), false));
    assert!(rt; is_read_fault(rt.alloc(), true));
}

/// Whether a run whose output takes only these bytes reports a write fault.
fn is_write_fault(alloc: Global, taken: &[u8]) -> bool {
    let left = run(alloc, giving(INPUT, usize::MAX), taken.len());
    leaves(&left, 4, &[taken], b"write fault\n")
}

#[test]
fn output_that_fails(rt: HostRuntime) {
    assert!(rt; is_write_fault(rt.alloc(), b""));
    assert!(rt; is_write_fault(rt.alloc(), b"HTTP/1.1 200 OK\r\nCont"));
}
