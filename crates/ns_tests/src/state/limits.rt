// Tables are filled to their limits. One row more is refused as too many, and not for want of memory.

use crate::state::made::{copied, digits, text};
use crate::state::owned::with;
use ns_acl::Acl;
use ns_admin::{RecordChange, opening, put_namespace, put_pool, put_quota, write};
use ns_live_index::Live;
use ns_tables::Tables;
use ns_types::acl::{Policy, TokenKind};
use ns_types::records::{Namespace, Pool, Quota};
use ns_types::refusal::Refusal;
use ns_types::rows::Rows;
use ns_types::step::NewToken;
use ns_types::text::Text;
use std::alloc::{AllocError, Global};
use std::process::Abort;

/// Names are made of the numbers from `FIRST` to `LAST`: more than a table has room for. They all have the same number of
/// digits, so their order is that of the numbers.
const FIRST: u64 = 10_000;

const LAST: u64 = 21_000;

/// The first number whose row was refused, and the refusal.
type Refused = Option<(u64, Refusal)>;

/// Tables, with the index that belongs to them.
#[derive(Drop)]
struct Indexed {
    tables: Tables,
    live: Live,
}

fn opened(alloc: Global) -> Result<Indexed, AllocError> {
    Ok(Indexed {
        tables: opening(alloc)?,
        live: Live::new(alloc),
    })
}

/// What kind of record is put.
#[derive(Clone, Copy)]
enum Kind {
    Namespace,
    Pool,
    Quota,
}

fn namespace(rt: &impl Abort, alloc: Global) -> Namespace {
    Namespace {
        description: text(rt, alloc, ""),
        quota: None,
        default_pool: text(rt, alloc, "default"),
        allowed: None,
        denied: Rows::new(alloc),
    }
}

/// The change that puts a row of this name, or its refusal.
fn prepared(
    rt: &impl Abort,
    tables: &Tables,
    kind: Kind,
    name: &Text,
) -> Result<RecordChange, Refusal> {
    let alloc = tables.alloc;
    match kind {
        Kind::Namespace => put_namespace(tables, name, &namespace(rt, alloc)),
        Kind::Pool => {
            let description = text(rt, alloc, "");
            put_pool(tables, name, &Pool { description })
        }
        Kind::Quota => {
            let (description, limits) = (text(rt, alloc, ""), None);
            put_quota(
                tables,
                name,
                &Quota {
                    description,
                    limits,
                },
            )
        }
    }
}

/// Puts a row whose name is the number. Returns its refusal, if it is refused.
fn put(rt: &impl Abort, state: &mut Indexed, kind: Kind, number: u64) -> Option<Refusal> {
    let name = digits(rt, state.tables.alloc, number);
    let prepared = prepared(rt, &state.tables, kind, &name);
    drop(name);
    match prepared {
        Ok(change) => match write(&mut state.tables, &mut state.live, change) {
            Ok(()) => None,
            Err(_) => Some(Refusal::Memory),
        },
        Err(refusal) => Some(refusal),
    }
}

/// Puts a row of each name in turn, until one is refused.
fn fill(rt: &impl Abort, state: &mut Indexed, kind: Kind) -> Refused {
    for number in FIRST..LAST {
        if let Some(refusal) = put(rt, state, kind, number) {
            return Some((number, refusal));
        }
    }
    None
}

/// The namespace `default` and the pool `default` exist already, so there is room for 9,999 more of each.
fn has_full_tables(rt: &impl Abort, state: &mut Indexed) -> bool {
    let namespaces = fill(rt, state, Kind::Namespace) == Some((19_999, Refusal::Full));
    let pools = fill(rt, state, Kind::Pool) == Some((19_999, Refusal::Full));
    let quotas = fill(rt, state, Kind::Quota) == Some((20_000, Refusal::Full));
    namespaces && pools && quotas
}

#[test]
fn fills_tables(rt: HostRuntime) {
    let state = opened(rt.alloc());
    assert!(rt; with(&rt, state, |state| has_full_tables(&rt, state)));
}

/// Puts a policy with this name.
fn put_policy(rt: &impl Abort, alloc: Global, acl: &mut Acl, name: &Text) -> Option<Refusal> {
    let policy = Policy {
        description: text(rt, alloc, ""),
        text: text(rt, alloc, ""),
        rules: Rows::new(alloc),
    };
    acl.put_policy(name, &policy).err()
}

/// Creates a client's token whose accessor is its secret.
fn create_token(rt: &impl Abort, alloc: Global, acl: &mut Acl, secret: Text) -> Option<Refusal> {
    let token = NewToken {
        accessor: copied(rt, &secret),
        secret,
        name: text(rt, alloc, ""),
        kind: TokenKind::Client,
        policies: Rows::new(alloc),
    };
    acl.create_token(&token).err()
}

/// Puts policies whose names are the numbers, or tokens whose secrets are the numbers, until one is refused.
fn fill_acl(rt: &impl Abort, alloc: Global, acl: &mut Acl, is_token: bool) -> Refused {
    for number in FIRST..LAST {
        let name = digits(rt, alloc, number);
        let refusal = if is_token {
            create_token(rt, alloc, acl, name)
        } else {
            put_policy(rt, alloc, acl, &name)
        };
        if let Some(refusal) = refusal {
            return Some((number, refusal));
        }
    }
    None
}

/// The bootstrap token exists already, so there is room for 9,999 more tokens.
fn has_full_rights(rt: &impl Abort, alloc: Global, acl: &mut Acl) -> bool {
    let policies = fill_acl(rt, alloc, acl, false) == Some((20_000, Refusal::Full));
    let tokens = fill_acl(rt, alloc, acl, true) == Some((19_999, Refusal::Full));
    policies && tokens
}

#[test]
fn fills_rights(rt: HostRuntime) {
    let alloc = rt.alloc();
    let root = text(&rt, alloc, "root");
    let acl = Acl::new(alloc, &root);
    drop(root);
    assert!(rt; with(&rt, acl, |acl| has_full_rights(&rt, alloc, acl)));
}
