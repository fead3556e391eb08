//! The calls of a core that take no memory, and so cannot be refused for want of memory.

use crate::words::{ROOT, write_line, write_words};
use itoa::Buffer;
use ns_core::Core;
use ns_types::acl::{PoolRights, Rights};
use ns_types::key::EvalKey;
use ns_types::step::Step;
use ns_types::text::Text;
use std::alloc::{AllocError, Global};
use std::io::{self, Write};
use std::slice;

/// What the calls are about: what a secret may do, whether a namespace has a pool and the quota `qa` to itself, and whether
/// there is room for a step.
#[derive(Drop)]
struct LookTargets {
    secret: Text,
    namespace: Text,
    pool: Text,
    quota: Text,
    step: Step,
}

impl LookTargets {
    fn new(alloc: Global, namespace: &str, pool: &str) -> Result<LookTargets, AllocError> {
        let step = Step::Snap(0, Text::from_str(alloc, namespace)?);
        Ok(LookTargets {
            secret: Text::from_str(alloc, ROOT)?,
            namespace: Text::from_str(alloc, namespace)?,
            pool: Text::from_str(alloc, pool)?,
            quota: Text::from_str(alloc, "qa")?,
            step,
        })
    }
}

/// What the calls return.
#[derive(Clone, Copy, PartialEq, Eq)]
struct Looked {
    served: u64,
    has_served: bool,
    planned: u64,
    busy: u64,
    rights: Rights,
    pool_rights: PoolRights,
    is_there: bool,
    permits: bool,
    shares: bool,
    apart: bool,
    lacks_room: bool,
}

/// The number of the evaluation. 0: there is none.
fn number(key: Option<&EvalKey>) -> u64 {
    match key {
        Some(key) => key.number(),
        None => 0,
    }
}

/// The evaluation of the worker, by the calls that show a worker's row. 0: it is idle.
fn busy_with(core: &Core, worker: u64, namespace: &Text) -> u64 {
    match (core.phase(worker), core.worker_at(worker, namespace)) {
        (Some(busy), Some(row)) if busy.evaluation == row.evaluation() => busy.evaluation,
        _ => 0,
    }
}

fn write_number<W: Write>(out: &mut W, name: &str, number: u64) -> io::Result<()> {
    write_words(out, &[name, Buffer::new().format(number)])
}

fn truth(is_so: bool) -> &'static str {
    if is_so { "true" } else { "false" }
}

impl Looked {
    /// Makes each call once.
    fn at(core: &Core, asked: &LookTargets) -> Looked {
        let LookTargets {
            secret,
            namespace,
            pool,
            quota,
            step,
        } = asked;
        Looked {
            served: number(core.served()),
            has_served: core.has_served(),
            planned: number(core.first_plan()),
            busy: busy_with(core, 0, namespace),
            rights: core.rights(Some(secret), namespace),
            pool_rights: core.pool_rights(Some(secret), pool),
            is_there: core.namespace_at(namespace).is_some(),
            permits: core.permits(namespace, pool),
            shares: core.shares(namespace),
            apart: core.apart(namespace, slice::from_ref(pool), slice::from_ref(quota)),
            lacks_room: core.lacks_room(step),
        }
    }

    fn write_numbers<W: Write>(self, out: &mut W) -> io::Result<()> {
        write_number(out, "served ", self.served)?;
        write_number(out, ", planned ", self.planned)?;
        write_number(out, ", busy ", self.busy)
    }

    /// Writes what the secret may do.
    fn write_rights<W: Write>(self, out: &mut W) -> io::Result<()> {
        write_words(
            out,
            &[
                ", list-jobs ",
                truth(self.rights.list_jobs),
                ", pool read ",
                truth(self.pool_rights.read),
            ],
        )
    }

    /// Writes the rest of the line.
    fn write_others<W: Write>(self, out: &mut W) -> io::Result<()> {
        write_line(
            out,
            &[
                ", there ",
                truth(self.is_there),
                ", permits ",
                truth(self.permits),
                ", shares ",
                truth(self.shares),
                ", apart ",
                truth(self.apart),
                ", has served ",
                truth(self.has_served),
                ", lacks room ",
                truth(self.lacks_room),
            ],
        )
    }

    fn write<W: Write>(self, out: &mut W) -> io::Result<()> {
        self.write_numbers(out)?;
        self.write_rights(out)?;
        self.write_others(out)
    }
}

/// Makes each call `times` times, and writes what they return, which has to be the same each time.
fn write_asked<W: Write>(
    out: &mut W,
    core: &Core,
    asked: &LookTargets,
    times: u64,
) -> anyhow::Result<()> {
    let first = Looked::at(core, asked);
    for _ in 1..times {
        anyhow::ensure!(Looked::at(core, asked) == first, "a look changes something");
    }
    Ok(first.write(out)?)
}

/// Makes each call `times` times about the namespace and the pool, and writes what they return.
pub fn write_looks<W: Write>(
    out: &mut W,
    core: &Core,
    alloc: Global,
    times: u64,
    namespace: &str,
    pool: &str,
) -> anyhow::Result<()> {
    let asked = LookTargets::new(alloc, namespace, pool)?;
    let written = write_asked(out, core, &asked, times);
    drop(asked);
    written
}
