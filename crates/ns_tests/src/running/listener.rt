// A thread shuts a listener at which another thread waits for a connection.
use ns_listener::Listener;
use std::net::SocketAddr;
use std::rt::Clock;
use std::sync::Wait;
use std::test::Fail;
use std::thread;
use std::thread::Threads;
use std::time::Duration;

/// Whether a call that waits for a connection fails once the listener is shut.
fn fails_when_shut<R: Threads + Wait + Clock + Sync>(rt: &R, listener: &Listener) -> bool {
    let (is_refused, _) = thread::join(
        rt,
        move || listener.accept(rt).is_err(),
        move || {
            thread::sleep(rt, Duration::from_millis(100));
            listener.shut();
        },
    );
    is_refused
}

#[test]
fn shut_door(rt: HostRuntime) -> Result<(), Fail> {
    let listener = Listener::open(&rt, SocketAddr::from(([127, 0, 0, 1], 0)))?;
    assert!(rt; fails_when_shut(&rt, &listener));
    Ok(())
}
