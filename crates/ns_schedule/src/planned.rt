//! The plan of a snapshot.

ghost use Rattle.std.specs.Prelude.{◌≡◌, IfOk, IsOkUnless, IsTrue, OnOk, Some, if◌then◌else◌, map};
ghost use Rattle.ns_types.specs.declared.refusal.Refusal.TheVariants.{Full, Memory};
ghost use Rattle.ns_types.specs.Placing.Plan.{no_quota, opening, placing_of, plan, quota_of};
ghost use Rattle.ns_types.specs.Placing.Planning.{all_placed, place};
ghost use Rattle.ns_types.specs.Placing.Wanted.{demands};
ghost use Rattle.ns_schedule.specs.Fits.{fits};

use crate::opening::{candidates, used_without};
use crate::placing::place_in_order;
use crate::stops::Stops;
use crate::sums::fits;
use crate::wanted::{demands, stopping};
use ns_place::Order;
use ns_types::job::Job;
use ns_types::plan::{Placing, Plan};
use ns_types::planned::Planned;
use ns_types::refusal::Refusal;
use ns_types::resources::{none, unlimited};
use ns_types::rows::Rows;
use ns_types::shared::Shared;
use ns_types::snapshot::{OwnAllocation, QuotaSeen, Snapshot};
use ns_types::text::Text;
use std::alloc::{AllocError, Global};

fn numbers(alloc: Global, stops: &[&OwnAllocation]) -> Result<Rows<u64>, AllocError>
    ensures { IfOk result (λ rows. rows ≡ map (λ a. a.number) (map (λ a. a.now) stops.now)) }
{
    let mut rows = Rows::new(alloc);
    for a in stops {
        rows.push(a.number)?;
    }
    Ok(rows)
}

fn all_placed(alloc: Global) -> Placing
    ensures { result ≡ all_placed }
{
    Placing {
        placements: Rows::new(alloc),
        quota_limited: false,
        class_limited: false,
    }
}

/// The quota that stands for none: it limits nothing.
fn no_quota(alloc: Global) -> QuotaSeen
    ensures { result ≡ no_quota }
{
    QuotaSeen {
        name: Text::from_string(String::new(alloc)),
        limits: unlimited(),
        used: none(),
        release: 0,
        namespaces: Rows::new(alloc),
    }
}

/// Places the job's missing allocations.
fn placing_under(
    alloc: Global,
    snapshot: &Snapshot,
    job: &Job,
    stops: &Stops<'_>,
    quota: &QuotaSeen,
) -> Result<Placing, AllocError>
    requires fits { IsTrue (fits snapshot.now) }
    requires job { snapshot.now.job ≡ Some job.now }
    requires quota { quota.now ≡ quota_of snapshot.now }
    ensures { IfOk result (λ p. p ≡ place quota.now (demands (Some job.now) snapshot.now.own)
        (opening snapshot.now job.now stops.now)) }
{
    let demands = demands(alloc, job, snapshot.own.as_slice())?;
    let Some(first) = demands.first() else {
        return Ok(all_placed(alloc));
    };
    let nodes = snapshot.nodes.as_slice();
    let mut candidates = candidates(alloc, job, &snapshot.namespace, stops, nodes)?;
    let mut order = Order::new(alloc, candidates.as_slice(), first.size)?;
    let used = used_without(quota.used, stops.as_slice());
    place_in_order(alloc, &mut candidates, &mut order, used, quota, &demands)
}

fn placing(alloc: Global, snapshot: &Snapshot, stops: &Stops<'_>) -> Result<Placing, AllocError>
    requires { IsTrue (fits snapshot.now) }
    ensures { IfOk result (λ p. p
        ≡ placing_of snapshot.now snapshot.now.job stops.now) }
{
    match (&snapshot.job, &snapshot.quota) {
        (None, _) => Ok(all_placed(alloc)),
        (Some(job), Some(quota)) => placing_under(alloc, snapshot, job, stops, quota),
        (Some(job), None) => placing_under(alloc, snapshot, job, stops, &no_quota(alloc)),
    }
}

fn plan_of(alloc: Global, snapshot: &Snapshot) -> Result<Plan, AllocError>
    requires { IsTrue (fits snapshot.now) }
    ensures { IfOk result (λ p. p ≡ plan snapshot.now) }
{
    let stopping = stopping(alloc, &snapshot.job, snapshot.own.as_slice())?;
    let stops = numbers(alloc, &stopping)?;
    let placing = placing(alloc, snapshot, &Stops::new(&stopping, stops.as_slice()))?;
    Ok(Plan { stops, placing })
}

/// The plan, to be shared by all its owners.
fn shared_plan(alloc: Global, snapshot: &Snapshot) -> Result<Shared<Plan>, AllocError>
    requires { IsTrue (fits snapshot.now) }
    ensures { IfOk result (λ p. p ≡ plan snapshot.now) }
{
    let plan = plan_of(alloc, snapshot)?;
    Shared::new(alloc, plan)
}

/// The plan of the snapshot: the stops, and then the missing allocations, placed in what the stops leave. `Full`: a sum that it
/// needs does not fit 64 bits. That is checked without memory, and is so of no snapshot that the server keeps
/// (`laws::kept_fits`). Otherwise want of memory is the only error.
pub fn plan(alloc: Global, snapshot: Shared<Snapshot>) -> Result<Planned, Refusal>
    ensures ok { IfOk result (λ planned. planned ≡ snapshot) }
    ensures fits { OnOk result (IsTrue (fits snapshot)) }
    ensures err { IsOkUnless result (if fits snapshot then Memory else Full) }
{
    if !fits(snapshot.get()) {
        drop(snapshot);
        return Err(Refusal::Full);
    }
    match shared_plan(alloc, snapshot.get()) {
        Ok(made) => Ok(Planned::new(snapshot, made)),
        Err(_) => {
            drop(snapshot);
            Err(Refusal::Memory)
        }
    }
}
