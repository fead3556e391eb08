// Which blocked evaluations a release wakes, and in which order. What is expected is written by hand. A test ends where memory
// is missing.
ghost use Rattle.std.specs.Prelude.{◌≡◌, ◌∷◌, []};
ghost use Rattle.ns_blocked.specs.Blocked.{are_new, keys_of};
ghost use Rattle.ns_types.specs.State.Names.{has_key};

use crate::state::made::{both, only, text};
use keyed::NumberSlot;
use ns_blocked::{BlockedEvaluation, BlockedList, ReleasedPool, Releases, Waits};
use ns_equality::same_key;
use ns_types::key::EvalKey;
use ns_types::node::{Attribute, Class};
use ns_types::rows::Rows;
use ns_types::text::Text;
use std::alloc::Global;
use std::process::Abort;

/// A key, as its namespace and its number.
pub(crate) type KeyText<'a> = (&'a str, u64);

/// A class, as its name and the value of its attribute `os`.
pub(crate) type Named<'a> = (&'a str, &'a str);

/// What an evaluation waits for, and what is released.
#[derive(Clone, Copy)]
enum Source<'a> {
    Quota(&'a str),
    Pool(&'a str),
}

#[derive(Clone, Copy)]
struct Waiter<'a> {
    key: KeyText<'a>,
    source: Source<'a>,
    escapes: bool,
    infeasible: &'a [Named<'a>],
}

impl<'a> Waiter<'a> {
    /// An evaluation that found no class infeasible.
    fn feasible(key: KeyText<'a>, source: Source<'a>) -> Waiter<'a> {
        Waiter {
            key,
            source,
            escapes: false,
            infeasible: &[],
        }
    }
}

// ---- what goes into the list

fn key(rt: &impl Abort, alloc: Global, (namespace, number): KeyText) -> EvalKey {
    EvalKey::new(text(rt, alloc, namespace), number)
}

pub(crate) fn class(rt: &impl Abort, alloc: Global, (name, os): Named) -> Class {
    let os = Attribute {
        key: text(rt, alloc, "os"),
        value: text(rt, alloc, os),
    };
    Class {
        name: text(rt, alloc, name),
        attributes: only(rt, alloc, os),
    }
}

pub(crate) fn classes(rt: &impl Abort, alloc: Global, names: &[Named]) -> Rows<Class> {
    let mut rows = Rows::new(alloc);
    for named in names {
        rows.push(class(rt, alloc, *named)).expect(rt, "memory");
    }
    rows
}

fn entry(rt: &impl Abort, alloc: Global, waiter: &Waiter) -> BlockedEvaluation {
    BlockedEvaluation {
        key: key(rt, alloc, waiter.key),
        waits: match waiter.source {
            Source::Quota(name) => Waits::Quota(text(rt, alloc, name)),
            Source::Pool(name) => Waits::Pool(text(rt, alloc, name)),
        },
        escapes: waiter.escapes,
        infeasible: classes(rt, alloc, waiter.infeasible),
    }
}

fn has(list: &BlockedList, key: &EvalKey) -> bool
    ensures { result ≡ has_key (keys_of list.now) key.now }
{
    list.has(key.namespace(), key.number())
}

/// Adds an evaluation at the end of the list.
fn block(rt: &impl Abort, alloc: Global, list: &mut BlockedList, waiter: &Waiter) {
    let entries = [entry(rt, alloc, waiter)];
    list.reserve(&entries).expect(rt, "memory");
    let [entry] = entries;
    assert!(rt; !has(list, &entry.key));
    list.block(entry);
}

#[tactic(auto, using(crate::proofs::Fresh::both_new))]
fn are_new(list: &BlockedList, first: &BlockedEvaluation, second: &BlockedEvaluation) -> bool
    ensures { result ≡ are_new (keys_of list.now) (first.now ∷ second.now ∷ []) }
{
    !has(list, &first.key) & !has(list, &second.key) & !same_key(&second.key, &first.key)
}

/// Adds two evaluations at the end of the list, at once.
fn append(rt: &impl Abort, alloc: Global, list: &mut BlockedList, first: &Waiter, second: &Waiter) {
    let first = entry(rt, alloc, first);
    let second = entry(rt, alloc, second);
    assert!(rt; are_new(list, &first, &second));
    let entries = both(rt, alloc, first, second);
    list.reserve(entries.as_slice()).expect(rt, "memory");
    list.append(entries);
}

fn blocked(rt: &impl Abort, alloc: Global, waiters: &[Waiter]) -> BlockedList {
    let mut list = BlockedList::new(alloc);
    for waiter in waiters {
        block(rt, alloc, &mut list, waiter);
    }
    list
}

// ---- what comes out of it

pub(crate) fn is_key(key: &EvalKey, (namespace, number): KeyText) -> bool {
    key.namespace().as_str() == namespace && key.number() == number
}

/// Whether these are the keys, in this order.
fn are_keys(keys: &[EvalKey], expected: &[KeyText]) -> bool {
    let mut right = keys.len() == expected.len();
    for (key, expected) in keys.iter().zip(expected) {
        right &= is_key(key, *expected);
    }
    right
}

fn is_among(keys: &[KeyText], key: &EvalKey) -> bool {
    let mut is_there = false;
    for named in keys {
        is_there |= is_key(key, *named);
    }
    is_there
}

/// Whether the evaluation at the place has this key.
fn has_at(list: &BlockedList, place: u64, expected: KeyText) -> bool {
    match list.at(place) {
        Some(entry) => is_key(&entry.key, expected),
        None => false,
    }
}

/// Whether these are the keys of the evaluations at the slots' places, in this order. A vacant slot has no place.
fn have_keys(list: &BlockedList, slots: &[NumberSlot<()>], expected: &[KeyText]) -> bool {
    let mut rest = expected;
    for slot in slots {
        if slot.1.is_some() {
            match rest {
                [first, others @ ..] if has_at(list, slot.0, *first) => rest = others,
                _ => return false,
            }
        }
    }
    rest.is_empty()
}

/// Whether these evaluations wait for the source, in this order.
fn wait(
    rt: &impl Abort,
    alloc: Global,
    list: &BlockedList,
    source: Source,
    expected: &[KeyText],
) -> bool {
    match source {
        Source::Quota(name) => { have_keys(list, list.of_quota(&text(rt, alloc, name)), expected) }
        Source::Pool(name) => have_keys(list, list.of_pool(&text(rt, alloc, name)), expected),
    }
}

fn released_pool(rt: &impl Abort, alloc: Global, name: &str, names: &[Named]) -> ReleasedPool {
    ReleasedPool {
        pool: text(rt, alloc, name),
        classes: classes(rt, alloc, names),
    }
}

/// The keys that the release of one quota wakes, or of one pool with room on nodes of these classes.
fn woken(
    rt: &impl Abort,
    alloc: Global,
    list: &mut BlockedList,
    source: Source,
    names: &[Named],
) -> Vec<EvalKey> {
    let woken = match source {
        Source::Quota(name) => list.release_quota(&text(rt, alloc, name)),
        Source::Pool(name) => {
            let classes = classes(rt, alloc, names);
            list.release_pool(&text(rt, alloc, name), classes.as_slice())
        }
    };
    woken.expect(rt, "memory")
}

/// The keys that the same release wakes, where it is all that a step releases.
fn woken_by_step(
    rt: &impl Abort,
    alloc: Global,
    list: &mut BlockedList,
    source: Source,
    names: &[Named],
) -> Vec<EvalKey> {
    let releases = match source {
        Source::Quota(name) => Releases {
            pools: Rows::new(alloc),
            quotas: only(rt, alloc, text(rt, alloc, name)),
        },
        Source::Pool(name) => Releases {
            pools: only(rt, alloc, released_pool(rt, alloc, name, names)),
            quotas: Rows::new(alloc),
        },
    };
    list.release(&releases).expect(rt, "memory")
}

/// Whether the list has all of the waiters except the woken ones.
fn keeps_others(
    rt: &impl Abort,
    alloc: Global,
    list: &BlockedList,
    waiters: &[Waiter],
    woken: &[KeyText],
) -> bool {
    let mut right = true;
    for waiter in waiters {
        let key = key(rt, alloc, waiter.key);
        right &= has(list, &key) != is_among(woken, &key);
    }
    right
}

// ---- tests

pub(crate) const LINUX: Named = ("large", "linux");

pub(crate) const BSD: Named = ("large", "bsd");

const SMALL: Named = ("small", "linux");

/// What is released, the classes of the nodes with room, and the evaluations that the release wakes.
type Case<'a> = (Source<'a>, &'a [Named<'a>], &'a [KeyText<'a>]);

/// Whether the release of the case wakes the expected evaluations, by itself or as all that a step releases.
fn wakes_these(
    rt: &impl Abort,
    alloc: Global,
    list: &mut BlockedList,
    (source, names, expected): Case,
    is_step: bool,
) -> bool {
    let keys = if is_step {
        woken_by_step(rt, alloc, list, source, names)
    } else {
        woken(rt, alloc, list, source, names)
    };
    are_keys(keys.as_slice(), expected)
}

/// Whether the release wakes the expected evaluations, and the others still wait.
fn wakes(rt: &impl Abort, alloc: Global, waiters: &[Waiter], case: Case, is_step: bool) -> bool {
    let mut list = blocked(rt, alloc, waiters);
    wakes_these(rt, alloc, &mut list, case, is_step)
        & keeps_others(rt, alloc, &list, waiters, case.2)
}

const DEFAULT: Source = Source::Pool("default");

const GPU: Source = Source::Pool("gpu");

static WAITERS: [Waiter; 7] = [
    Waiter {
        key: ("ta", 1),
        source: DEFAULT,
        escapes: false,
        infeasible: &[],
    },
    Waiter {
        key: ("tb", 1),
        source: Source::Quota("default"),
        escapes: false,
        infeasible: &[],
    },
    Waiter {
        key: ("ta", 2),
        source: GPU,
        escapes: false,
        infeasible: &[],
    },
    Waiter {
        key: ("tb", 2),
        source: DEFAULT,
        escapes: false,
        infeasible: &[LINUX],
    },
    Waiter {
        key: ("ta", 3),
        source: DEFAULT,
        escapes: true,
        infeasible: &[LINUX],
    },
    Waiter {
        key: ("tb", 3),
        source: Source::Quota("q"),
        escapes: false,
        infeasible: &[LINUX],
    },
    Waiter {
        key: ("ta", 4),
        source: DEFAULT,
        escapes: false,
        infeasible: &[LINUX, BSD],
    },
];

static CASES: [Case; 10] = [
    (DEFAULT, &[LINUX], &[("ta", 1), ("ta", 3)]),
    (DEFAULT, &[BSD], &[("ta", 1), ("tb", 2), ("ta", 3)]),
    (
        DEFAULT,
        &[SMALL],
        &[("ta", 1), ("tb", 2), ("ta", 3), ("ta", 4)],
    ),
    (DEFAULT, &[LINUX, BSD], &[("ta", 1), ("tb", 2), ("ta", 3)]),
    (DEFAULT, &[], &[]),
    (GPU, &[LINUX], &[("ta", 2)]),
    (Source::Pool("q"), &[SMALL], &[]),
    (Source::Quota("q"), &[], &[("tb", 3)]),
    (Source::Quota("default"), &[], &[("tb", 1)]),
    (Source::Quota("gpu"), &[], &[]),
];

/// Whether each case has its expected result.
fn all_wake(rt: &impl Abort, alloc: Global, is_step: bool) -> bool {
    let mut right = true;
    for case in &CASES {
        right &= wakes(rt, alloc, &WAITERS, *case, is_step);
    }
    right
}

#[test]
fn a_release_wakes_its_own_that_can_use_a_class(rt: HostRuntime) {
    assert!(rt; all_wake(&rt, rt.alloc(), false));
    assert!(rt; all_wake(&rt, rt.alloc(), true));
}

/// Two pools and two quotas, one of the pools twice.
fn several(rt: &impl Abort, alloc: Global) -> Releases {
    let gpu = released_pool(rt, alloc, "gpu", &[LINUX]);
    let default = released_pool(rt, alloc, "default", &[LINUX]);
    let mut pools = both(rt, alloc, gpu, default);
    pools
        .push(released_pool(rt, alloc, "gpu", &[LINUX]))
        .expect(rt, "memory");
    Releases {
        pools,
        quotas: both(rt, alloc, text(rt, alloc, "qb"), text(rt, alloc, "qa")),
    }
}

/// Whether the release of `several` wakes these evaluations, in this order.
fn several_wake(
    rt: &impl Abort,
    alloc: Global,
    list: &mut BlockedList,
    expected: &[KeyText],
) -> bool {
    let releases = several(rt, alloc);
    let keys = list.release(&releases).expect(rt, "memory");
    drop(releases);
    are_keys(keys.as_slice(), expected)
}

/// Evaluations that wait for several pools and quotas. None of them found a class infeasible.
static SCATTERED: [(KeyText, Source); 8] = [
    (("tb", 9), DEFAULT),
    (("ta", 4), Source::Quota("qa")),
    (("tb", 2), GPU),
    (("ta", 7), Source::Quota("qb")),
    (("ta", 1), Source::Pool("arm")),
    (("ta", 5), DEFAULT),
    (("tb", 4), Source::Quota("qc")),
    (("tb", 3), Source::Quota("qa")),
];

static SCATTERED_WOKEN: [KeyText; 6] = [
    ("tb", 9),
    ("ta", 4),
    ("tb", 2),
    ("ta", 7),
    ("ta", 5),
    ("tb", 3),
];

fn block_scattered(rt: &impl Abort, alloc: Global, list: &mut BlockedList) {
    for (key, source) in &SCATTERED {
        block(rt, alloc, list, &Waiter::feasible(*key, *source));
    }
}

/// Whether the expected evaluations are woken, the others still wait, and a second release wakes none.
fn wakes_in_order(rt: &impl Abort, alloc: Global, list: &mut BlockedList) -> bool {
    several_wake(rt, alloc, list, &SCATTERED_WOKEN)
        & wait(rt, alloc, list, Source::Pool("arm"), &[("ta", 1)])
        & wait(rt, alloc, list, Source::Quota("qc"), &[("tb", 4)])
        & several_wake(rt, alloc, list, &[])
}

#[test]
fn several_are_woken_in_the_order_of_the_list(rt: HostRuntime) {
    let alloc = rt.alloc();
    let mut list = BlockedList::new(alloc);
    block_scattered(&rt, alloc, &mut list);
    assert!(rt; wakes_in_order(&rt, alloc, &mut list));
}

fn untrack(rt: &impl Abort, alloc: Global, list: &mut BlockedList, expected: KeyText) -> bool {
    let key = key(rt, alloc, expected);
    list.untrack(&key);
    !has(list, &key)
}

/// Adds an evaluation of each key at the end of the list.
fn block_each(
    rt: &impl Abort,
    alloc: Global,
    list: &mut BlockedList,
    source: Source,
    keys: &[KeyText],
) {
    for key in keys {
        block(rt, alloc, list, &Waiter::feasible(*key, source));
    }
}

/// Adds an evaluation of each of both keys at the end of the list, at once.
fn append_both(
    rt: &impl Abort,
    alloc: Global,
    list: &mut BlockedList,
    source: Source,
    first: KeyText,
    second: KeyText,
) {
    let first = Waiter::feasible(first, source);
    append(rt, alloc, list, &first, &Waiter::feasible(second, source));
}

static FIRST: [KeyText; 3] = [("tb", 2), ("ta", 2), ("tb", 1)];

static WAITING: [KeyText; 4] = [("tb", 2), ("tb", 1), ("ta", 1), ("ta", 2)];

static WOKEN: [KeyText; 3] = [("tb", 2), ("ta", 1), ("ta", 2)];

/// Whether an evaluation that was untracked is not woken, or, if it was added again, is woken last.
fn forgets(rt: &impl Abort, alloc: Global, list: &mut BlockedList, source: Source) -> bool {
    block_each(rt, alloc, list, source, &FIRST);
    let mut right = untrack(rt, alloc, list, ("ta", 2));
    right &= untrack(rt, alloc, list, ("ta", 1));
    append_both(rt, alloc, list, source, ("ta", 1), ("ta", 2));
    right &= wait(rt, alloc, list, source, &WAITING);
    right &= untrack(rt, alloc, list, ("tb", 1));
    right & wakes_these(rt, alloc, list, (source, &[LINUX], &WOKEN), false)
}

fn a_list_forgets(rt: &impl Abort, alloc: Global, source: Source) -> bool {
    let mut list = BlockedList::new(alloc);
    forgets(rt, alloc, &mut list, source)
}

#[test]
fn untracked_ones_are_not_woken(rt: HostRuntime) {
    let alloc = rt.alloc();
    assert!(rt; a_list_forgets(&rt, alloc, Source::Quota("q")));
    assert!(rt; a_list_forgets(&rt, alloc, DEFAULT));
}
