use crate::wire::streams::{Narrow, Slow, giving, wide};
use linked_list_allocator::LocalHeap;
use ns_http::{Answer, ConnFault, Counted, Counts, INTERRUPTION_LIMIT, READ_ROOM, Request, serve};
use ns_types::refusal::Refusal;
use ns_types::reply::Response;
use std::alloc::{AllocError, Allocator, Global};
use std::io::{self, ErrorKind, Read, Write};
use std::test::Fail;

/// Answers each request with its method, target, token and body.
#[derive(Drop)]
struct Echo<A: Allocator> {
    alloc: A,
    steps: u64,
}

impl<A: Allocator + Copy> Echo<A> {
    fn text(&self, request: &Request<'_>) -> Result<String<A>, AllocError> {
        let token = request.token.unwrap_or(b"-");
        let target = request.target.as_bytes();
        let parts: [&[u8]; 7] = [
            request.method,
            b" ",
            target,
            b" ",
            token,
            b" ",
            request.body,
        ];
        let mut bytes = Vec::new(self.alloc);
        for part in parts {
            bytes.extend_from_slice(part)?;
        }
        match String::from_utf8(bytes) {
            Ok(text) => Ok(text),
            Err(_) => String::from_str(self.alloc, "no text"),
        }
    }
}

impl<A: Allocator + Copy> Answer for Echo<A> {
    ghost answers = { λ _ _ _ _. Unit {0} };

    type A = A;

    fn answer(&mut self, request: &Request<'_>) -> Response<A> {
        self.steps = self.steps.wrapping_add(1);
        match self.text(request) {
            Ok(body) => Response::Done(Some(self.steps), body),
            Err(_) => Response::Refused(Refusal::Memory),
        }
    }
}

#[derive(Drop)]
struct ServedOutcome {
    result: Result<u64, ConnFault>,
    steps: u64,
    bytes: Vec<u8>,
    reads: u64,
    writes: u64,
    read_faults: u64,
    write_faults: u64,
}

fn talk(alloc: Global, reader: Slow<'_>, writer: Narrow) -> ServedOutcome {
    let mut reader = Counted::new(reader);
    let mut writer = Counted::new(writer);
    let mut handler = Echo { alloc, steps: 0 };
    let result = serve(alloc, &mut reader, &mut writer, &mut handler);
    let (reads, writes) = (reader.counts(), writer.counts());
    let Narrow { bytes, .. } = writer.into_inner();
    ServedOutcome {
        result,
        steps: handler.steps,
        bytes,
        reads: reads.calls(),
        writes: writes.calls(),
        read_faults: reads.faults(),
        write_faults: writes.faults(),
    }
}

const INPUT: &[u8] =
    b"POST /v1/jobs HTTP/1.1\r\nX-Nomad-Token: root\r\nContent-Length: 71\r\n\r\n{\"Job\":{\"ID\":\"web\",\"TaskGroups\":[{\"Name\":\"g\",\"Tasks\":[{\"Name\":\"t\"}]}]}}GET /v1/job/web HTTP/1.1\r\nX-Nomad-Token: root\r\nConnection: close\r\n\r\n";

/// The length of the first request.
const POST_LEN: usize = 138;

const OUTPUT: &[u8] =
    b"HTTP/1.1 200 OK\r\nContent-Type: application/json\r\nX-Nomad-Index: 1\r\nContent-Length: 90\r\n\r\nPOST /v1/jobs root {\"Job\":{\"ID\":\"web\",\"TaskGroups\":[{\"Name\":\"g\",\"Tasks\":[{\"Name\":\"t\"}]}]}}HTTP/1.1 200 OK\r\nContent-Type: application/json\r\nX-Nomad-Index: 2\r\nContent-Length: 21\r\nConnection: close\r\n\r\nGET /v1/job/web root ";

/// The length of the first reply.
const FIRST_LEN: usize = 179;

/// Whether both requests are answered when each read gives at most `step` bytes.
fn answers_both(alloc: Global, step: usize) -> bool {
    let out = talk(alloc, giving(INPUT, step), wide(alloc));
    out.result == Ok(2) && out.bytes.as_slice() == OUTPUT && out.writes <= 2
}

#[test]
fn any_cut(rt: HostRuntime) -> Result<(), Fail> {
    for step in [1, 2, 3, 7, 64, 4096] {
        assert!(rt; answers_both(rt.alloc(), step));
    }
    Ok(())
}

/// Whether a connection with this input ends with `end`, after `steps` steps and with these bytes written.
fn ends_so(
    alloc: Global,
    input: &[u8],
    end: Result<u64, ConnFault>,
    steps: u64,
    shown: &[u8],
) -> bool {
    let out = talk(alloc, giving(input, 5), wide(alloc));
    out.result == end && out.steps == steps && out.bytes.as_slice() == shown
}

#[test]
fn every_prefix(rt: HostRuntime) -> Result<(), Fail> {
    for len in 0..INPUT.len() {
        let (steps, shown) = if len < POST_LEN {
            (0, 0)
        } else {
            (1, FIRST_LEN)
        };
        let end = if len == 0 || len == POST_LEN {
            Ok(steps)
        } else {
            Err(ConnFault::Read)
        };
        assert!(rt; ends_so(rt.alloc(), &INPUT[..len], end, steps, &OUTPUT[..shown]));
    }
    Ok(())
}

/// Whether the fault of a read ends the connection, after `steps` steps and with these bytes written.
fn ends_at_a_read(alloc: Global, reader: Slow<'_>, steps: u64, shown: &[u8]) -> bool {
    let out = talk(alloc, reader, wide(alloc));
    out.result == Err(ConnFault::Read)
        && out.read_faults == 1
        && out.steps == steps
        && out.bytes.as_slice() == shown
}

#[test]
fn each_read_failing(rt: HostRuntime) -> Result<(), Fail> {
    for step in [1, 5, 64, 4096] {
        for left in 0..INPUT.len().div_ceil(step) {
            let reader = Slow {
                rest: INPUT,
                step,
                left,
            };
            let is_short = left.saturating_mul(step) < POST_LEN;
            let (steps, shown) = if is_short { (0, 0) } else { (1, FIRST_LEN) };
            assert!(rt; ends_at_a_read(rt.alloc(), reader, steps, &OUTPUT[..shown]));
        }
    }
    Ok(())
}

/// Whether the fault of a write ends the connection, with these bytes written.
fn ends_at_a_write(alloc: Global, read_step: usize, fails: bool, shown: &[u8]) -> bool {
    let writer = Narrow {
        bytes: Vec::new(alloc),
        step: 50,
        room: shown.len(),
        fails,
    };
    let out = talk(alloc, giving(INPUT, read_step), writer);
    out.result == Err(ConnFault::Write) && out.write_faults == 1 && out.bytes.as_slice() == shown
}

#[test]
fn each_part_written(rt: HostRuntime) -> Result<(), Fail> {
    for (read_step, fails) in [(POST_LEN, true), (4096, true), (4096, false)] {
        for room in 0..OUTPUT.len() {
            assert!(rt; ends_at_a_write(rt.alloc(), read_step, fails, &OUTPUT[..room]));
        }
    }
    Ok(())
}

/// Is interrupted at every other call.
#[derive(Drop)]
struct Interrupted<T> {
    inner: T,
    due: bool,
}

impl<R: Read> Read for Interrupted<R> {
    fn read(&mut self, buf: &mut [u8]) -> io::Result<usize> {
        self.due = !self.due;
        if self.due {
            return Err(io::Error::from(ErrorKind::Interrupted));
        }
        self.inner.read(buf)
    }
}

impl<W: Write> Write for Interrupted<W> {
    fn write(&mut self, buf: &[u8]) -> io::Result<usize> {
        self.due = !self.due;
        if self.due {
            return Err(io::Error::from(ErrorKind::Interrupted));
        }
        self.inner.write(buf)
    }

    fn flush(&mut self) -> io::Result<()> {
        self.inner.flush()
    }
}

/// Whether every other call was interrupted, and none failed otherwise.
fn is_every_other(counts: Counts) -> bool {
    !counts.broken() && counts.faults() == 0 && counts.interruptions() == counts.calls().div_ceil(2)
}

/// Whether both requests are answered where every other call is interrupted.
fn answers_between_interruptions(alloc: Global) -> bool {
    let mut narrow = wide(alloc);
    narrow.step = 5;
    let mut reader = Counted::new(Interrupted {
        inner: giving(INPUT, 7),
        due: false,
    });
    let mut writer = Counted::new(Interrupted {
        inner: narrow,
        due: false,
    });
    let mut handler = Echo { alloc, steps: 0 };
    let result = serve(alloc, &mut reader, &mut writer, &mut handler);
    let (reads, writes) = (reader.counts(), writer.counts());
    let Narrow { bytes, .. } = writer.into_inner().inner;
    result == Ok(2) && is_every_other(reads) && is_every_other(writes) && bytes.as_slice() == OUTPUT
}

#[test]
fn interruptions(rt: HostRuntime) {
    assert!(rt; answers_between_interruptions(rt.alloc()));
}

/// Is interrupted at every call.
#[derive(Drop)]
struct Hindered;

impl Write for Hindered {
    fn write(&mut self, _: &[u8]) -> io::Result<usize> {
        Err(io::Error::from(ErrorKind::Interrupted))
    }

    fn flush(&mut self) -> io::Result<()> {
        Ok(())
    }
}

/// Whether too many interrupted writes end the connection with a write fault.
fn is_interrupted_out(alloc: Global) -> bool {
    let mut reader = Counted::new(giving(INPUT, 4096));
    let mut writer = Counted::new(Hindered);
    let mut handler = Echo { alloc, steps: 0 };
    let result = serve(alloc, &mut reader, &mut writer, &mut handler);
    let writes = writer.counts();
    result == Err(ConnFault::Write)
        && writes.interruptions() == INTERRUPTION_LIMIT + 1
        && writes.faults() == 0
}

#[test]
fn interrupted_without_end(rt: HostRuntime) {
    assert!(rt; is_interrupted_out(rt.alloc()));
}

/// Whether the fault is shown as this text.
fn is_shown_as(alloc: Global, fault: ConnFault, text: &str) -> Result<bool, AllocError> {
    let shown = format!(in alloc; "{fault}")?;
    Ok(shown.as_str() == text)
}

#[test]
fn texts_of_faults(rt: HostRuntime) -> Result<(), Fail> {
    let alloc = rt.alloc();
    assert!(rt; is_shown_as(alloc, ConnFault::Read, "read fault")?);
    assert!(rt; is_shown_as(alloc, ConnFault::Write, "write fault")?);
    assert!(rt; is_shown_as(alloc, ConnFault::Memory, "out of memory")?);
    Ok(())
}

const BAD: &[u8] =
    b"HTTP/1.1 400 Bad Request\r\nContent-Type: text/plain; charset=utf-8\r\nContent-Length: 11\r\nConnection: close\r\n\r\nbad request";

const LENGTH_REQUIRED: &[u8] =
    b"HTTP/1.1 411 Length Required\r\nContent-Type: text/plain; charset=utf-8\r\nContent-Length: 15\r\nConnection: close\r\n\r\nlength required";

const TOO_LARGE: &[u8] =
    b"HTTP/1.1 413 Content Too Large\r\nContent-Type: text/plain; charset=utf-8\r\nContent-Length: 9\r\nConnection: close\r\n\r\ntoo large";

fn refuses(alloc: Global, input: &[u8], reply: &[u8]) -> bool {
    let out = talk(alloc, giving(input, 4096), wide(alloc));
    out.result == Ok(1) && out.steps == 0 && out.bytes.as_slice() == reply
}

#[test]
fn refused_heads(rt: HostRuntime) {
    let heads: [(&[u8], &[u8]); 8] = [
        (b"GET\r\n\r\n", BAD),
        (b"POST / HTTP/1.1\r\nContent-Length: +5\r\n\r\nabcde", BAD),
        (
            b"POST / HTTP/1.1\r\nContent-Length: 1\r\ncontent-length: 1\r\n\r\na",
            BAD,
        ),
        (
            b"POST / HTTP/1.1\r\nContent-Length: 1\r\nTransfer-Encoding: chunked\r\n\r\na",
            BAD,
        ),
        (
            b"POST / HTTP/1.1\r\nContent-Length: 000000000000000000001\r\n\r\na",
            BAD,
        ),
        (
            b"POST / HTTP/1.1\r\nTransfer-Encoding: chunked\r\n\r\n",
            LENGTH_REQUIRED,
        ),
        (
            b"POST / HTTP/1.1\r\nContent-Length: 1048577\r\n\r\n",
            TOO_LARGE,
        ),
        (
            b"POST / HTTP/1.1\r\nContent-Length: 99999999999999999999\r\n\r\n",
            TOO_LARGE,
        ),
    ];
    for (head, reply) in heads {
        assert!(rt; refuses(rt.alloc(), head, reply));
    }
}

/// A front, a part that is repeated, and an end.
type RepeatedParts<'a> = (&'a [u8], &'a [u8], &'a [u8]);

/// The front, the middle `count` times, and the end.
fn repeated(
    alloc: Global,
    (front, middle, end): RepeatedParts<'_>,
    count: usize,
) -> Result<Vec<u8>, AllocError> {
    let mut bytes = Vec::from_slice(alloc, front)?;
    for _ in 0..count {
        bytes.extend_from_slice(middle)?;
    }
    bytes.extend_from_slice(end)?;
    Ok(bytes)
}

fn serves(alloc: Global, input: &[u8]) -> bool {
    let out = talk(alloc, giving(input, 100_000), wide(alloc));
    out.result == Ok(1) && out.steps == 1 && out.writes <= 2
}

/// The length of the request, if it is served.
fn served_len(
    alloc: Global,
    parts: RepeatedParts<'_>,
    count: usize,
) -> Result<Option<usize>, AllocError> {
    let input = repeated(alloc, parts, count)?;
    if serves(alloc, &input) {
        Ok(Some(input.len()))
    } else {
        Ok(None)
    }
}

fn is_too_large(alloc: Global, parts: RepeatedParts<'_>, count: usize) -> Result<bool, AllocError> {
    let input = repeated(alloc, parts, count)?;
    Ok(refuses(alloc, &input, TOO_LARGE))
}

/// Whether the request is served by no more reads than its length takes.
fn is_read_in_room(alloc: Global, input: &[u8]) -> bool {
    let out = talk(alloc, giving(input, usize::MAX), wide(alloc));
    out.result == Ok(1) && out.reads <= (input.len() / READ_ROOM) as u64 + 2
}

/// Whether the longest body is served, by no more reads than its length takes.
fn serves_the_longest(alloc: Global) -> Result<bool, AllocError> {
    let large: RepeatedParts<'_> = (
        b"POST / HTTP/1.0\r\nContent-Length: 1048576\r\n\r\n",
        b"x",
        b"",
    );
    let request = repeated(alloc, large, 1_048_576)?;
    Ok(serves(alloc, &request) && is_read_in_room(alloc, &request))
}

#[test]
fn limits(rt: HostRuntime) -> Result<(), Fail> {
    let long: RepeatedParts<'_> = (b"GET / HTTP/1.1\r\nA: ", b"x", b"\r\n\r\n");
    assert_eq!(rt; served_len(rt.alloc(), long, 16_361)?, Some(16_384));
    assert!(rt; is_too_large(rt.alloc(), long, 16_362)?);
    let many: RepeatedParts<'_> = (b"GET / HTTP/1.0\r\n", b"A: b\r\n", b"\r\n");
    assert!(rt; served_len(rt.alloc(), many, 64)?.is_some());
    assert!(rt; is_too_large(rt.alloc(), many, 65)?);
    assert!(rt; serves_the_longest(rt.alloc())?);
    Ok(())
}

/// How a connection ended whose handler has little memory.
#[derive(Clone, Copy)]
struct Budgeted {
    result: Result<u64, ConnFault>,
    steps: u64,
    reads: u64,
    writes: u64,
    used: usize,
}

fn served_within(alloc: Global, size: usize) -> Result<Budgeted, AllocError> {
    let heap = LocalHeap::new(alloc, size)?;
    let mut reader = Counted::new(INPUT);
    let mut writer = Counted::new(wide(alloc));
    let mut handler = Echo {
        alloc: &heap,
        steps: 0,
    };
    let result = serve(&heap, &mut reader, &mut writer, &mut handler);
    Ok(Budgeted {
        result,
        steps: handler.steps,
        reads: reader.counts().calls(),
        writes: writer.counts().calls(),
        used: heap.used(),
    })
}

/// Whether both requests were answered, or nothing was read for want of memory. After they were
/// answered once there is always enough.
fn is_all_or_nothing(out: Budgeted, was_served: bool) -> bool {
    let is_right = match out.result {
        Err(ConnFault::Memory) => {
            !was_served && out.reads == 0 && out.writes == 0 && out.steps == 0
        }
        result => result == Ok(2),
    };
    is_right && out.used == 0
}

#[test]
fn each_budget(rt: HostRuntime) -> Result<(), Fail> {
    let mut served = false;
    for room in 0..40 {
        let out = served_within(rt.alloc(), 32_768 * (room + 1))?;
        assert!(rt; is_all_or_nothing(out, served));
        served = served || out.result == Ok(2);
    }
    assert!(rt; served);
    Ok(())
}
