//! One step of a driven worker.

ghost use Rattle.std.specs.Prelude.{◌≡◌, IfErr, OnErr, OnOk, Option, Some};
ghost use Rattle.ns_types.specs.declared.snapshot.Snapshot.{Snapshot};
ghost use Rattle.ns_driver.specs.declared.due.Due.TheVariants as Due;
ghost use Rattle.ns_driver.specs.Driving.{MakesOne};
ghost use Rattle.ns_driver.specs.Kept.{seen_of};
ghost use Rattle.ns_driver.specs.Working.{Ends, IsAtEnd, IsDue};

use crate::due::{Due, WORKER, next};
use crate::kept::Kept;
use crate::stopping::Stop;
use crate::worker_step::WorkerStep;
use crate::works::Works;
use ns_types::key::EvalKey;
use ns_types::planned::Planned;
use ns_types::text::Text;
use std::alloc::Global;

fn take<W: Works>(alloc: Global, works: &mut W, key: &EvalKey) -> Result<(), Stop>
    requires { IsDue (W.state works.old).world (Due.Take key.now) }
    ensures made { OnOk result ((has : Option Snapshot) →
        MakesOne W.state W.notes W.lacks works.old has works.new has) }
    ensures ends { IfErr result (λ stop. (has : Option Snapshot) →
        Ends W.state W.notes W.lacks works.old has stop works.new) }
{
    let step = WorkerStep::Dequeue(key.number());
    let reply = works.work(alloc, WORKER, key.namespace(), step)?;
    drop(reply);
    Ok(())
}

fn look<W: Works>(
    alloc: Global,
    works: &mut W,
    kept: &mut Kept,
    namespace: &Text,
) -> Result<(), Stop>
    requires { IsDue (W.state works.old).world (Due.Look namespace.now) }
    ensures made { OnOk result (MakesOne W.state W.notes W.lacks
        works.old (seen_of kept.old) works.new (seen_of kept.new)) }
    ensures ends { IfErr result (λ stop.
        Ends W.state W.notes W.lacks works.old (seen_of kept.new) stop works.new) }
    ensures same { OnErr result (seen_of kept.new ≡ seen_of kept.old) }
{
    let seen = works.snap(alloc, WORKER, namespace)?;
    *kept = Kept::Seen(seen);
    Ok(())
}

fn finish<W: Works>(
    alloc: Global,
    works: &mut W,
    kept: &mut Kept,
    namespace: &Text,
    planned: &Planned,
) -> Result<(), Stop>
    requires end { IsAtEnd (W.state works.old).world namespace.now planned.now }
    requires kept { seen_of kept.old ≡ Some planned.now }
    ensures made { OnOk result (MakesOne W.state W.notes W.lacks
        works.old (seen_of kept.old) works.new (seen_of kept.new)) }
    ensures ends { IfErr result (λ stop.
        Ends W.state W.notes W.lacks works.old (seen_of kept.new) stop works.new) }
    ensures same { OnErr result (seen_of kept.new ≡ seen_of kept.old) }
{
    let reply = works.work(alloc, WORKER, namespace, WorkerStep::Finish(planned))?;
    drop(reply);
    *kept = Kept::Nothing;
    Ok(())
}

/// Submits the plan, or finishes if the plan does nothing.
fn submit<W: Works>(
    alloc: Global,
    works: &mut W,
    kept: &mut Kept,
    namespace: &Text,
    planned: Planned,
) -> Result<(), Stop>
    requires due { IsDue (W.state works.old).world (Due.Plan namespace.now) }
    requires kept { seen_of kept.old ≡ Some planned }
    ensures made { OnOk result (MakesOne W.state W.notes W.lacks
        works.old (seen_of kept.old) works.new (seen_of kept.new)) }
    ensures ends { IfErr result (λ stop.
        Ends W.state W.notes W.lacks works.old (seen_of kept.new) stop works.new) }
    ensures same { OnErr result (seen_of kept.new ≡ seen_of kept.old) }
{
    if planned.does_nothing() {
        let ended = finish(alloc, works, kept, namespace, &planned);
        drop(planned);
        return ended;
    }
    let reply = works.work(alloc, WORKER, namespace, WorkerStep::Submit(planned))?;
    drop(reply);
    Ok(())
}

/// Makes the plan of the worker's snapshot, and submits it or finishes.
fn place<W: Works>(
    alloc: Global,
    works: &mut W,
    kept: &mut Kept,
    namespace: &Text,
) -> Result<(), Stop>
    requires { IsDue (W.state works.old).world (Due.Plan namespace.now) }
    ensures made { OnOk result (MakesOne W.state W.notes W.lacks
        works.old (seen_of kept.old) works.new (seen_of kept.new)) }
    ensures ends { IfErr result (λ stop.
        Ends W.state W.notes W.lacks works.old (seen_of kept.new) stop works.new) }
    ensures same { OnErr result (seen_of kept.new ≡ seen_of kept.old) }
{
    let planned = kept.planned(alloc)?;
    submit(alloc, works, kept, namespace, planned)
}

/// Finishes with the plan that was submitted.
fn end<W: Works>(
    alloc: Global,
    works: &mut W,
    kept: &mut Kept,
    namespace: &Text,
) -> Result<(), Stop>
    requires { IsDue (W.state works.old).world (Due.End namespace.now) }
    ensures made { OnOk result (MakesOne W.state W.notes W.lacks
        works.old (seen_of kept.old) works.new (seen_of kept.new)) }
    ensures ends { IfErr result (λ stop.
        Ends W.state W.notes W.lacks works.old (seen_of kept.new) stop works.new) }
    ensures same { OnErr result (seen_of kept.new ≡ seen_of kept.old) }
{
    let planned = kept.planned(alloc)?;
    let ended = finish(alloc, works, kept, namespace, &planned);
    drop(planned);
    ended
}

fn apply<W: Works>(alloc: Global, works: &mut W, namespace: &Text) -> Result<(), Stop>
    requires { IsDue (W.state works.old).world (Due.Apply namespace.now) }
    ensures made { OnOk result ((has : Option Snapshot) →
        MakesOne W.state W.notes W.lacks works.old has works.new has) }
    ensures ends { IfErr result (λ stop. (has : Option Snapshot) →
        Ends W.state W.notes W.lacks works.old has stop works.new) }
{
    let reply = works.work(alloc, WORKER, namespace, WorkerStep::Apply)?;
    drop(reply);
    Ok(())
}

/// Makes the next step of the worker, or returns why it stops.
pub(crate) fn turn<W: Works>(alloc: Global, works: &mut W, kept: &mut Kept) -> Result<(), Stop>
    ensures made { OnOk result (MakesOne W.state W.notes W.lacks
        works.old (seen_of kept.old) works.new (seen_of kept.new)) }
    ensures ends { IfErr result (λ stop.
        Ends W.state W.notes W.lacks works.old (seen_of kept.new) stop works.new) }
    ensures same { OnErr result (seen_of kept.new ≡ seen_of kept.old) }
{
    match next(works)? {
        Due::Nothing => Err(Stop::Rests),
        Due::Take(key) => take(alloc, works, &key),
        Due::Look(namespace) => look(alloc, works, kept, &namespace),
        Due::Plan(namespace) => place(alloc, works, kept, &namespace),
        Due::Apply(namespace) => apply(alloc, works, &namespace),
        Due::End(namespace) => end(alloc, works, kept, &namespace),
    }
}
