// A client of a shared server, which has the secret of the first token.
use ns_api::{Api, NoFollower};
use ns_endpoints::Draws;
use ns_http::Counted;
use ns_listener::clients::{Client, SharedSeat, serve};
use ns_work_lock::{Retains, Seat, Shared};
use std::alloc::Global;
use std::process::Abort;
use std::sync::Wait;
use std::sync::ledger::Ledger;

/// Draws the same bits again and again.
#[derive(Clone, Copy)]
pub(crate) struct GuestBits;

impl Draws for GuestBits {
    ghost use Rattle.std.specs.Prelude.{◌≡◌, replicate};

    ghost draws = { λ old bytes new. bytes ≡ replicate 16 1 };

    fn draw(&mut self) -> [u8; 16] {
        [1; 16]
    }
}

/// A client with a seat of its own.
pub(crate) type Guest<'a, L, R> = Client<'a, L, R, GuestBits, Retains>;

/// A new seat.
pub(crate) fn seat<L: Ledger, R: Wait + Abort>(
    rt: &R,
    alloc: Global,
    shared: &Shared<L>,
) -> Seat<L, Retains> {
    shared.seat(rt, alloc).expect(rt, "a part of the ledger")
}

pub(crate) fn guest<'a, L: Ledger, R: Wait + Abort>(
    rt: &'a R,
    alloc: Global,
    shared: &'a Shared<L>,
) -> Guest<'a, L, R> {
    let seat = seat(rt, alloc, shared);
    let taker = SharedSeat { rt, shared, seat };
    Api::new(alloc, taker, GuestBits, NoFollower).expect(rt, "memory")
}

/// The client's seat.
pub(crate) fn seat_of<L: Ledger, R: Wait>(guest: Guest<'_, L, R>) -> Seat<L, Retains> {
    guest.into_taker().seat
}

/// All that the server sends over a connection for these requests.
pub(crate) fn replies<L: Ledger, R: Wait + Abort>(
    rt: &R,
    alloc: Global,
    guest: &mut Guest<'_, L, R>,
    requests: &str,
) -> String {
    let mut reader = Counted::new(requests.as_bytes());
    let mut writer = Counted::new(Vec::new(alloc));
    serve(alloc, &mut reader, &mut writer, guest).expect(rt, "a connection");
    String::from_utf8(writer.into_inner())
        .ok()
        .expect(rt, "text")
}

/// What the server sends for a read of the path.
pub(crate) fn look<L: Ledger, R: Wait + Abort>(
    rt: &R,
    alloc: Global,
    guest: &mut Guest<'_, L, R>,
    path: &str,
) -> String {
    let request = format!(in alloc; "GET {path} HTTP/1.1\r\nX-Nomad-Token: root\r\n\r\n");
    let request = request.expect(rt, "memory");
    replies(rt, alloc, guest, request.as_str())
}

/// What the server sends for a write of the document, which has to succeed.
pub(crate) fn write<L: Ledger, R: Wait + Abort>(
    rt: &R,
    alloc: Global,
    guest: &mut Guest<'_, L, R>,
    path: &str,
    document: &str,
) -> String {
    let length = document.len();
    let request = format!(in alloc;
        "PUT {path} HTTP/1.1\r\nX-Nomad-Token: root\r\nContent-Length: {length}\r\n\r\n{document}"
    );
    let request = request.expect(rt, "memory");
    let reply = replies(rt, alloc, guest, request.as_str());
    assert!(rt; reply.as_str().starts_with("HTTP/1.1 200 OK\r\n"), "{path}");
    reply
}

/// Registers a job of one group of one task, which takes this CPU and memory. Returns what the server sends.
pub(crate) fn register_with<L: Ledger, R: Wait + Abort>(
    rt: &R,
    alloc: Global,
    guest: &mut Guest<'_, L, R>,
    path: &str,
    id: &str,
    (cpu, memory): (u64, u64),
) -> String {
    let document = format!(in alloc;
        "{{\"Job\":{{\"ID\":\"{id}\",\"TaskGroups\":[{{\"Name\":\"g\",\"Tasks\":[{{\"Name\":\"t\",\"Resources\":{{\"CPU\":{cpu},\"MemoryMB\":{memory}}}}}]}}]}}}}"
    );
    let document = document.expect(rt, "memory");
    write(rt, alloc, guest, path, document.as_str())
}

/// Registers a job of one group of one small task. Returns what the server sends.
pub(crate) fn register<L: Ledger, R: Wait + Abort>(
    rt: &R,
    alloc: Global,
    guest: &mut Guest<'_, L, R>,
    path: &str,
    id: &str,
) -> String {
    register_with(rt, alloc, guest, path, id, (100, 100))
}

/// Two pools with a node each, a quota, and three namespaces. The namespace `tb` may use only the pool `west`.
const SET_UP: [(&str, &str); 8] = [
    ("/v1/node/pool/east", "{}"),
    ("/v1/node/pool/west", "{}"),
    (
        "/v1/quota/qa",
        "{\"Limits\":[{\"RegionLimit\":{\"CPU\":1000,\"MemoryMB\":1024}}]}",
    ),
    (
        "/v1/namespace/default",
        "{\"NodePoolConfiguration\":{\"Allowed\":[\"default\"]}}",
    ),
    (
        "/v1/namespace/ta",
        "{\"Quota\":\"qa\",\"NodePoolConfiguration\":{\"Default\":\"east\",\"Allowed\":[\"east\"]}}",
    ),
    (
        "/v1/namespace/tb",
        "{\"NodePoolConfiguration\":{\"Default\":\"west\",\"Allowed\":[\"west\"]}}",
    ),
    (
        "/v1/node/pool/east/node/n1",
        "{\"CPU\":1000,\"MemoryMB\":1024}",
    ),
    (
        "/v1/node/pool/west/node/n1",
        "{\"CPU\":1000,\"MemoryMB\":1024}",
    ),
];

/// Makes the writes of the set-up.
pub(crate) fn set_up<L: Ledger, R: Wait + Abort>(
    rt: &R,
    alloc: Global,
    guest: &mut Guest<'_, L, R>,
) {
    for (path, document) in &SET_UP {
        drop(write(rt, alloc, guest, *path, *document));
    }
}
