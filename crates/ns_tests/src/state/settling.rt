// Receipts of two callers, settled against the log of a server.
use crate::state::keeping::kept;
use crate::state::made::text;
use crate::state::owned::push;
use crate::state::steps::{job_is_registered, pool_is_put};
use ns_log::Owned;
use ns_log::receipts::{Receipt, SettleFault, settle};
use ns_types::body::Body;
use ns_types::reply::Rendered;
use ns_types::shared::Shared;
use ns_types::step::Step;
use ns_work_log::Held;
use std::alloc::Global;
use std::process::Abort;

pub(crate) const REGISTERED: &str =
    "{\"EvalCreateIndex\":1,\"EvalID\":\"00000000-0000-0001-0000-000000000001\",\"JobModifyIndex\":1}";

pub(crate) const TOOK: &str = "{\"Took\":\"00000000-0000-0001-0000-000000000001\"}";

fn rendered(rt: &impl Abort, alloc: Global, index: Option<u64>, body: &str) -> Rendered {
    Rendered {
        status: 200,
        index,
        body: Body::from_str(alloc, body).expect(rt, "memory"),
    }
}

/// The reply, as a receipt owns it.
fn boxed(rt: &impl Abort, alloc: Global, answer: Rendered) -> Owned<Rendered> {
    Owned::boxed(alloc, answer).expect(rt, "memory")
}

/// The step, as a receipt owns it.
fn shared(rt: &impl Abort, alloc: Global, step: Step) -> Shared<Step> {
    Shared::new(alloc, step).expect(rt, "memory")
}

fn of_pool(rt: &impl Abort, alloc: Global) -> Receipt {
    Receipt {
        place: 0,
        step: shared(rt, alloc, pool_is_put(rt, alloc)),
        rendered: boxed(rt, alloc, rendered(rt, alloc, None, "{}")),
    }
}

fn of_job(rt: &impl Abort, alloc: Global, body: &str) -> Receipt {
    Receipt {
        place: 1,
        step: shared(rt, alloc, job_is_registered(rt, alloc)),
        rendered: boxed(rt, alloc, rendered(rt, alloc, Some(1), body)),
    }
}

fn of_worker(rt: &impl Abort, alloc: Global) -> Receipt {
    Receipt {
        place: 2,
        step: shared(rt, alloc, Step::Dequeue(0, text(rt, alloc, "default"), 1)),
        rendered: boxed(rt, alloc, rendered(rt, alloc, None, TOOK)),
    }
}

/// The receipts of a caller: of its request and, if `worked` is set, of the worker's step.
fn seat(rt: &impl Abort, alloc: Global, asked: Receipt, worked: bool) -> Vec<Receipt> {
    let mut seat = Vec::new(alloc);
    push(rt, &mut seat, asked);
    if worked {
        push(rt, &mut seat, of_worker(rt, alloc));
    }
    seat
}

/// Settles the receipts of both callers against the log.
fn settled(
    rt: &impl Abort,
    alloc: Global,
    held: &Held,
    first: Vec<Receipt>,
    second: Vec<Receipt>,
) -> Result<(), SettleFault> {
    let mut seats = Vec::new(alloc);
    push(rt, &mut seats, first);
    push(rt, &mut seats, second);
    settle(alloc, held.log(), seats.as_slice())
}

#[test]
fn receipts_settle_or_differ_at_the_first_fault(rt: HostRuntime) {
    let alloc = rt.alloc();
    let held = kept(&rt, alloc);
    let with = |worked: bool, body: &str, again: bool| {
        let first = seat(&rt, alloc, of_pool(&rt, alloc), worked);
        let second = seat(&rt, alloc, of_job(&rt, alloc, body), again);
        settled(&rt, alloc, &held, first, second)
    };
    let at = |seat: u64, place: u64| Err(SettleFault::Mismatch { seat, place });
    assert!(rt; with(true, REGISTERED, false) == Ok(()));
    assert!(rt; with(false, REGISTERED, true) == Ok(()));
    assert!(rt; with(true, REGISTERED, true) == at(1, 2));
    assert!(rt; with(false, REGISTERED, false) == at(2, 2));
    assert!(rt; with(true, "{}", false) == at(1, 1));
    drop(held);
}
