// What good words ask for.
use ns_api::Driven;
use ns_command_line::{Invocation, read};
use ns_pipe::{Printed, WordsRead};
use ns_types::text::Text;
use std::net::{Ipv4Addr, Ipv6Addr, SocketAddr};
use std::rt::HostRuntime;

/// Whether the words ask for a connection with the secret `root`, and choose this driver and this output.
fn is_pipe(wanted: &Invocation, driven: Driven, printed: Printed) -> bool {
    match wanted {
        Invocation::Run(WordsRead::Pipe(secret, drives, prints)) => {
            secret.get().as_str() == "root" && *drives == driven && *prints == printed
        }
        _ => false,
    }
}

#[test]
fn pipe(rt: HostRuntime) {
    let plain = read(rt.alloc(), &["nsd", "pipe", "--bootstrap", "root"]);
    assert!(rt; is_pipe(&plain, Driven::Nobody, Printed::Replies));
    let words = ["nsd", "pipe", "--print=log", "--drive", "--bootstrap=root"];
    let logged = read(rt.alloc(), &words);
    assert!(rt; is_pipe(&logged, Driven::Worker, Printed::Log));
}

fn are_words(texts: &[Text], words: &[&str]) -> bool {
    let mut right = texts.len() == words.len();
    for (text, word) in texts.iter().zip(words) {
        right &= text.as_str() == *word;
    }
    right
}

/// Whether the words ask to replay the namespace `ta` alone from this entry on, with these pools and these quotas.
fn is_alone(wanted: &Invocation, count: u64, pools: &[&str], quotas: &[&str]) -> bool {
    match wanted {
        Invocation::Run(WordsRead::Alone(replay)) => {
            replay.namespace.as_str() == "ta"
                && replay.from == count
                && are_words(replay.pools.as_slice(), pools)
                && are_words(replay.quotas.as_slice(), quotas)
        }
        _ => false,
    }
}

#[test]
fn alone(rt: HostRuntime) {
    let whole = read(rt.alloc(), &["nsd", "alone", "ta"]);
    assert!(rt; is_alone(&whole, 0, &[], &[]));
    let late = read(rt.alloc(), &["nsd", "alone", "--from", "008", "ta"]);
    assert!(rt; is_alone(&late, 8, &[], &[]));
    let last = read(
        rt.alloc(),
        &["nsd", "alone", "ta", "--from=18446744073709551615"],
    );
    assert!(rt; is_alone(&last, u64::MAX, &[], &[]));
}

#[test]
fn alone_with_pools_and_quotas(rt: HostRuntime) {
    let pool = read(rt.alloc(), &["nsd", "alone", "ta", "--pool", "east"]);
    assert!(rt; is_alone(&pool, 0, &["east"], &[]));
    let quota = read(rt.alloc(), &["nsd", "alone", "--quota=qa", "ta"]);
    assert!(rt; is_alone(&quota, 0, &[], &["qa"]));
    let words = [
        "nsd",
        "alone",
        "--quota",
        "q_2",
        "--pool=east",
        "ta",
        "--pool",
        "p-1",
        "--from",
        "1",
        "--quota=qa",
        "--pool=east",
    ];
    let both = read(rt.alloc(), &words);
    assert!(rt; is_alone(&both, 1, &["east", "p-1", "east"], &["q_2", "qa"]));
}

/// Whether the words ask for a server with this address and secret, and with these workers, connections, connections to accept,
/// idle seconds, entries of the log, and entries and bytes to rotate at.
fn is_serve(
    wanted: &Invocation,
    address: SocketAddr,
    bootstrap: Option<&str>,
    numbers: (
        u64,
        u64,
        Option<u64>,
        Option<u64>,
        u64,
        Option<u64>,
        Option<u64>,
    ),
) -> bool {
    match wanted {
        Invocation::Serve(service) => {
            let given = match &service.bootstrap {
                Some(secret) => Some(secret.get().as_str()),
                None => None,
            };
            service.address == address
                && given == bootstrap
                && (
                    service.workers,
                    service.connections,
                    service.accept,
                    service.idle,
                    service.log_limit,
                    service.rotate,
                    service.rotate_bytes,
                ) == numbers
        }
        Invocation::Run(_) => false,
    }
}

#[test]
fn serve(rt: HostRuntime) {
    let local = SocketAddr::from((Ipv4Addr::LOCALHOST, 4646));
    let plain = read(rt.alloc(), &["nsd", "serve", "--listen", "127.0.0.1:4646"]);
    assert!(rt;
        is_serve(
            &plain,
            local,
            None,
            (2, 4, None, None, 1_000_000, None, None)
        )
    );
    let least = read(
        rt.alloc(),
        &[
            "nsd",
            "serve",
            "--bootstrap",
            "root",
            "--workers=1",
            "--connections=1",
            "--accept=1",
            "--idle=1",
            "--log-limit=1",
            "--listen=[::1]:0",
        ],
    );
    let free = SocketAddr::from((Ipv6Addr::LOCALHOST, 0));
    assert!(rt;
        is_serve(
            &least,
            free,
            Some("root"),
            (1, 1, Some(1), Some(1), 1, None, None)
        )
    );
    let most = read(
        rt.alloc(),
        &[
            "nsd",
            "serve",
            "--workers",
            "63",
            "--connections",
            "64",
            "--accept",
            "18446744073709551615",
            "--idle",
            "86400",
            "--log-limit",
            "18446744073709551615",
            "--rotate",
            "18446744073709551614",
            "--rotate-bytes",
            "18446744073709551615",
            "--listen",
            "127.0.0.1:4646",
        ],
    );
    assert!(rt;
        is_serve(
            &most,
            local,
            None,
            (
                63,
                64,
                Some(u64::MAX),
                Some(86_400),
                u64::MAX,
                Some(u64::MAX - 1),
                Some(u64::MAX)
            )
        )
    );
}
