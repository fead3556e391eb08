//! The steps of workers that return a reply.

use crate::answers::write_reply;
use crate::watch::CopyWatch;
use ns_core::Core;
use ns_schedule::plan;
use ns_types::refusal::Refusal;
use ns_types::reply::Reply;
use ns_types::shared::Shared;
use ns_types::snapshot::Snapshot;
use ns_types::text::Text;
use std::alloc::Global;
use std::io::Write;

/// A step, with the snapshot that it needs.
#[derive(Clone, Copy)]
pub enum ScriptStep<'a> {
    Dequeue(u64),
    /// Makes the plan of the snapshot, and submits it.
    Submit(&'a Shared<Snapshot>),
    Apply,
    /// Makes the plan of the snapshot once more, and finishes by it.
    Finish(&'a Shared<Snapshot>),
    Nack,
}

/// Finishes the evaluation by the plan of the snapshot.
fn finished(
    core: &mut Core,
    alloc: Global,
    worker: u64,
    namespace: &Text,
    seen: &Shared<Snapshot>,
) -> Result<Reply, Refusal> {
    let planned = plan(alloc, seen.share()?)?;
    let answer = core.finish(worker, namespace, &planned);
    drop(planned);
    answer
}

impl ScriptStep<'_> {
    fn make(
        self,
        core: &mut Core,
        alloc: Global,
        worker: u64,
        namespace: &Text,
    ) -> Result<Reply, Refusal> {
        match self {
            ScriptStep::Dequeue(number) => core.dequeue(worker, namespace, number),
            ScriptStep::Submit(seen) => core.submit(worker, namespace, plan(alloc, seen.share()?)?),
            ScriptStep::Apply => core.apply(worker, namespace),
            ScriptStep::Finish(seen) => finished(core, alloc, worker, namespace, seen),
            ScriptStep::Nack => core.nack(worker, namespace),
        }
    }

    /// Makes the step, and writes the reply. A step that was refused for want of memory is made once more.
    pub fn make_and_write<W: Write>(
        self,
        core: &mut Core,
        watch: &CopyWatch<'_>,
        alloc: Global,
        worker: u64,
        namespace: &Text,
        out: &mut W,
    ) -> anyhow::Result<()> {
        let before = watch.before(core)?;
        let first = self.make(core, alloc, worker, namespace);
        watch.after(before, core, first.is_err())?;
        let answer = match first {
            Err(Refusal::Memory) => self.make(core, alloc, worker, namespace),
            answer => answer,
        };
        let written = write_reply(out, &answer);
        drop(answer);
        written
    }
}
