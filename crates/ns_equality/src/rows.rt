//! Whether replies show the same of two rows. The indexes of evaluations and allocations are not compared.

ghost use Rattle.std.specs.Prelude.{◌≡◌, option_copied};
ghost use Rattle.std.specs.Option.{option_eq};
ghost use Rattle.ns_types.specs.State.Names.{same_name, same_number};
ghost use Rattle.ns_types.specs.State.Resources.{same_resources};
ghost use Rattle.ns_types.specs.Settling.Same.{same_allocation, same_evaluation, same_flag, same_job};
ghost use Rattle.ns_equality.specs.Parts.{same_cause, same_course, same_fate, same_place};
ghost use Rattle.ns_types.specs.Wire.Words.{client_text, desired_text, kind_text, status_text, trigger_text};

use crate::documents::same_document;
use crate::keys::same_number;
use ns_types::allocation::{Allocation, ClientStatus, DesiredStatus};
use ns_types::evaluation::{Evaluation, Status, Trigger};
use ns_types::job::{Job, JobKind};
use ns_types::resources::same_resources;
use ns_types::text::{Text, same_text};

pub fn same_kind(a: JobKind, b: JobKind) -> bool
    ensures { result ≡ same_name (kind_text a) (kind_text b) }
{
    match a {
        JobKind::Service => matches!(b, JobKind::Service),
        JobKind::Batch => matches!(b, JobKind::Batch),
    }
}

pub fn same_flag(a: bool, b: bool) -> bool
    ensures { result ≡ same_flag a b }
{
    if a { b } else { !b }
}

fn same_status(a: Status, b: Status) -> bool
    ensures { result ≡ same_name (status_text a) (status_text b) }
{
    match a {
        Status::Pending => matches!(b, Status::Pending),
        Status::Blocked => matches!(b, Status::Blocked),
        Status::Complete => matches!(b, Status::Complete),
        Status::Failed => matches!(b, Status::Failed),
        Status::Canceled => matches!(b, Status::Canceled),
    }
}

fn same_trigger(a: Trigger, b: Trigger) -> bool
    ensures { result ≡ same_name (trigger_text a) (trigger_text b) }
{
    match a {
        Trigger::JobRegister => matches!(b, Trigger::JobRegister),
        Trigger::JobDeregister => matches!(b, Trigger::JobDeregister),
        Trigger::NodeUpdate => matches!(b, Trigger::NodeUpdate),
        Trigger::AllocStop => matches!(b, Trigger::AllocStop),
        Trigger::AllocFailure => matches!(b, Trigger::AllocFailure),
        Trigger::Preemption => matches!(b, Trigger::Preemption),
        Trigger::QueuedAllocs => matches!(b, Trigger::QueuedAllocs),
        Trigger::MaxPlanAttempts => matches!(b, Trigger::MaxPlanAttempts),
    }
}

fn same_optional_number(a: Option<u64>, b: Option<u64>) -> bool
    ensures { result ≡ option_eq same_number a b }
{
    match (a, b) {
        (None, None) => true,
        (Some(a), Some(b)) => same_number(a, b),
        _ => false,
    }
}

pub fn same_optional_text(a: Option<&Text>, b: Option<&Text>) -> bool
    ensures { result ≡ option_eq same_name (option_copied a.entry) (option_copied b.entry) }
{
    match (a, b) {
        (None, None) => true,
        (Some(a), Some(b)) => same_text(a, b),
        _ => false,
    }
}

/// Whether both evaluations were made for the same: job, type, priority, pool and trigger.
fn same_cause(a: &Evaluation, b: &Evaluation) -> bool
    ensures { result ≡ same_cause a.now b.now }
{
    same_text(&a.job, &b.job)
        && same_kind(a.kind, b.kind)
        && same_number(a.priority, b.priority)
        && same_text(&a.pool, &b.pool)
        && same_trigger(a.trigger, b.trigger)
}

/// Whether the same became of both evaluations, if the second had that status.
fn same_course(a: &Evaluation, b: &Evaluation, status: Status) -> bool
    ensures { result ≡ same_course a.now (record b.now { status = status }) }
{
    same_status(a.status, status)
        && same_optional_number(a.previous, b.previous)
        && same_optional_number(a.follower, b.follower)
        && same_optional_text(a.quota.as_ref(), b.quota.as_ref())
        && same_flag(a.escapes, b.escapes)
}

/// Whether replies show the same of both evaluations, if the second had that status.
pub fn same_with_status(a: &Evaluation, b: &Evaluation, status: Status) -> bool
    ensures { result ≡ same_evaluation a.now (record b.now { status = status }) }
{
    let cause = same_cause(a, b);
    let course = same_course(a, b, status);
    cause & course
}

/// Whether replies show the same of both evaluations.
pub fn same_evaluation(a: &Evaluation, b: &Evaluation) -> bool
    ensures { result ≡ same_evaluation a.now b.now }
{
    same_with_status(a, b, b.status)
}

/// Whether replies show the same of both jobs, their indexes included.
#[tactic(auto, unfolding(ns_types::specs::Settling::Same::same_job))]
pub fn same_job(a: &Job, b: &Job) -> bool
    ensures { result ≡ same_job a.now b.now }
{
    same_document(a.document.get(), b.document.get())
        && same_flag(a.stop, b.stop)
        && same_number(a.version, b.version)
        && same_number(a.create_index, b.create_index)
        && same_number(a.modify_index, b.modify_index)
}

fn same_desired(a: DesiredStatus, b: DesiredStatus) -> bool
    ensures { result ≡ same_name (desired_text a) (desired_text b) }
{
    match a {
        DesiredStatus::Run => matches!(b, DesiredStatus::Run),
        DesiredStatus::Stop => matches!(b, DesiredStatus::Stop),
        DesiredStatus::Evict => matches!(b, DesiredStatus::Evict),
    }
}

fn same_client(a: ClientStatus, b: ClientStatus) -> bool
    ensures { result ≡ same_name (client_text a) (client_text b) }
{
    match a {
        ClientStatus::Pending => matches!(b, ClientStatus::Pending),
        ClientStatus::Running => matches!(b, ClientStatus::Running),
        ClientStatus::Complete => matches!(b, ClientStatus::Complete),
        ClientStatus::Failed => matches!(b, ClientStatus::Failed),
        ClientStatus::Lost => matches!(b, ClientStatus::Lost),
    }
}

/// Whether both allocations are of the same job, group and evaluation, and on the same node.
fn same_place(a: &Allocation, b: &Allocation) -> bool
    ensures { result ≡ same_place a.now b.now }
{
    same_text(&a.job, &b.job)
        && same_text(&a.group, &b.group)
        && same_number(a.evaluation, b.evaluation)
        && same_text(&a.pool, &b.pool)
        && same_text(&a.node, &b.node)
}

/// Whether both allocations take the same, and the same became of them.
fn same_fate(a: &Allocation, b: &Allocation) -> bool
    ensures { result ≡ same_fate a.now b.now }
{
    same_resources(a.size, b.size)
        && same_number(a.priority, b.priority)
        && same_number(a.job_modify_index, b.job_modify_index)
        && same_desired(a.desired, b.desired)
        && same_client(a.client, b.client)
}

/// Whether replies show the same of both allocations.
pub fn same_allocation(a: &Allocation, b: &Allocation) -> bool
    ensures { result ≡ same_allocation a.now b.now }
{
    let place = same_place(a, b);
    let fate = same_fate(a, b);
    place & fate
}
