// The replies and the output of a server on a TCP port. Expected bytes are written from the formats.
use crate::running::port::{LogOutput, is_settled, run, service};
use crate::running::visits::{REGISTERED, Visit, text};
use std::alloc::Global;
use std::net::{SocketAddr, TcpListener};
use std::test::Fail;

#[test]
fn stored_run(rt: HostRuntime) -> Result<(), Fail> {
    let alloc: Global = rt.alloc();
    let output = LogOutput::Open(Vec::new(alloc));
    let ending = run(&rt, alloc, &service(alloc, 1)?, output, 1, Visit::Asks)?;
    assert_eq!(rt; ending.replies.len(), 1);
    for replies in ending.replies.iter() {
        let replies = text(replies.as_slice());
        let rest = replies.strip_prefix(REGISTERED).ok_or("no registration")?;
        assert!(rt; rest.starts_with("HTTP/1.1 200 OK\r\n"));
        assert!(rt; rest.contains("\"ID\":\"web\""));
    }
    assert!(rt; ending.log().starts_with("nsd-log 3 0 root\n"));
    assert!(rt; ending.log().lines().count() > 2);
    assert!(rt; is_settled(alloc, &ending)?);
    Ok(())
}

/// Sixty-four connections at once each register the job and read it.
#[test]
fn many_connections_at_once(rt: HostRuntime) -> Result<(), Fail> {
    let alloc: Global = rt.alloc();
    let output = LogOutput::Open(Vec::new(alloc));
    let ending = run(&rt, alloc, &service(alloc, 64)?, output, 64, Visit::Asks)?;
    assert_eq!(rt; ending.replies.len(), 64);
    for replies in ending.replies.iter() {
        let replies = text(replies.as_slice());
        assert_eq!(rt; replies.matches("HTTP/1.1 200 OK\r\n").count(), 2);
        assert_eq!(rt; replies.matches("\"ID\":\"web\"").count(), 1);
    }
    assert!(rt; ending.log().lines().count() > 128);
    assert!(rt; is_settled(alloc, &ending)?);
    Ok(())
}

/// A connection that is closed in the middle of a request ends no other connection.
#[test]
fn closed_in_mid_request(rt: HostRuntime) -> Result<(), Fail> {
    let alloc: Global = rt.alloc();
    let output = LogOutput::Open(Vec::new(alloc));
    let service = service(alloc, 2)?;
    let ending = run(&rt, alloc, &service, output, 1, Visit::AsksBesideAnother)?;
    assert_eq!(rt; ending.replies.len(), 1);
    for replies in ending.replies.iter() {
        assert!(rt; text(replies.as_slice()).starts_with(REGISTERED));
    }
    assert!(rt; is_settled(alloc, &ending)?);
    Ok(())
}

/// A secret that is not given is drawn, and printed. Its bits are all of the same byte, except those of the version and of the
/// variant.
#[test]
fn drawn_secret(rt: HostRuntime) -> Result<(), Fail> {
    let alloc: Global = rt.alloc();
    let output = LogOutput::Open(Vec::new(alloc));
    let mut service = service(alloc, 1)?;
    service.bootstrap = None;
    let ending = run(&rt, alloc, &service, output, 1, Visit::Leaves)?;
    assert_eq!(rt;
        ending.log(),
        "nsd-log 3 0 01010101-0101-4101-8101-010101010101\n"
    );
    let (_, rest) = ending.errors().split_once('\n').ok_or("one line")?;
    assert_eq!(rt;
        rest,
        "bootstrap 01010101-0101-4101-8101-010101010101\nsettled 0\n"
    );
    assert_eq!(rt; ending.status, 0);
    Ok(())
}

#[test]
fn broken_output(rt: HostRuntime) -> Result<(), Fail> {
    let alloc: Global = rt.alloc();
    let service = service(alloc, 1)?;
    let ending = run(&rt, alloc, &service, LogOutput::Broken, 1, Visit::Asks)?;
    let (_, rest) = ending.errors().split_once('\n').ok_or("one line")?;
    assert_eq!(rt; rest, "write fault\n");
    assert_eq!(rt; ending.status, 4);
    Ok(())
}

#[test]
fn port_in_use(rt: HostRuntime) -> Result<(), Fail> {
    let alloc: Global = rt.alloc();
    let taken = TcpListener::bind(&rt, SocketAddr::from(([127, 0, 0, 1], 0)))?;
    let output = LogOutput::Open(Vec::new(alloc));
    let mut service = service(alloc, 1)?;
    service.address = taken.local_addr()?;
    let ending = run(&rt, alloc, &service, output, 0, Visit::Leaves)?;
    assert_eq!(rt; ending.log(), "");
    assert_eq!(rt; ending.errors(), "read fault\n");
    assert_eq!(rt; ending.status, 3);
    Ok(())
}

/// A log that is rotated at three entries is printed as its segments, one after the other, and then the rest.
#[test]
fn rotates_while_it_serves(rt: HostRuntime) -> Result<(), Fail> {
    let alloc: Global = rt.alloc();
    let mut service = service(alloc, 8)?;
    service.rotate = Some(3);
    let output = LogOutput::Open(Vec::new(alloc));
    let ending = run(&rt, alloc, &service, output, 8, Visit::Asks)?;
    assert_eq!(rt; ending.replies.len(), 8);
    let heads = ending.log().matches("nsd-log 3 ").count();
    assert!(rt; heads > 1, "{heads} segments");
    assert!(rt; ending.log().matches("\n{").count() >= 16);
    assert!(rt; is_settled(alloc, &ending)?);
    Ok(())
}

/// A log that is rotated by its bytes of text, here after each entry, is printed in segments and settles.
#[test]
fn rotates_by_its_text(rt: HostRuntime) -> Result<(), Fail> {
    let alloc: Global = rt.alloc();
    let mut service = service(alloc, 8)?;
    service.rotate = Some(1_000);
    service.rotate_bytes = Some(1);
    let output = LogOutput::Open(Vec::new(alloc));
    let ending = run(&rt, alloc, &service, output, 8, Visit::Asks)?;
    assert_eq!(rt; ending.replies.len(), 8);
    let heads = ending.log().matches("nsd-log 3 ").count();
    assert!(rt; heads > 1, "{heads} segments");
    assert!(rt; is_settled(alloc, &ending)?);
    Ok(())
}

/// If a segment can't be written, the server goes on. At the end the log settles, and the last line is the fault.
#[test]
fn a_segment_is_not_written(rt: HostRuntime) -> Result<(), Fail> {
    let alloc: Global = rt.alloc();
    let mut service = service(alloc, 8)?;
    service.rotate = Some(3);
    let ending = run(&rt, alloc, &service, LogOutput::Broken, 8, Visit::Asks)?;
    assert_eq!(rt; ending.replies.len(), 8);
    for replies in ending.replies.iter() {
        assert_eq!(rt;
            text(replies.as_slice())
                .matches("HTTP/1.1 200 OK\r\n")
                .count(),
            2
        );
    }
    assert_eq!(rt; ending.status, 4);
    assert!(rt; ending.errors().lines().last() == Some("write fault"));
    assert!(rt; ending.errors().contains("\nsettled "));
    Ok(())
}
