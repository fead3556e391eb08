//! The document of a registration.

ghost use Rattle.std.specs.Prelude.{[], None, IfOk, IfErr, IsTrue};
ghost use Rattle.serde_json.specs.View.{view};
ghost use Rattle.ns_types.specs.declared.job.JobKind.TheVariants.{Service};
ghost use Rattle.ns_types.specs.State.Limits.{is_good_registration};
ghost use Rattle.ns_json.specs.Reading.{Gives, same, present, or_else, body_in, IsOfDocument};
ghost use Rattle.ns_json.specs.Registration.{name_if_any, pool_in, kind_in, absent, constraints_in, job_groups_in, work_in, terms_in, names_in, job_in, enforced_in, registration_in};

use crate::constraint::constraints;
use crate::group::groups;
use crate::member::{
    demanded, document, flag_or_false, name, name_if_any, number_or, object, present, read_json,
    text,
};
use ns_types::job::{Constraint, Group, JobKind, Registration};
use ns_types::name::NameKind;
use ns_types::refusal::{Member, Refusal};
use ns_types::rows::Rows;
use ns_types::text::Text;
use serde_json::Value;
use std::alloc::Global;

/// A registration, and the namespace that the job names.
#[derive(Drop)]
pub struct RegistrationDocument {
    pub namespace: Option<Text>,
    pub registration: Registration,
}

fn namespace(alloc: Global, job: &Value) -> Result<Option<Text>, Refusal>
    ensures { Gives same result
        (or_else None (name_if_any Member.Namespace NameKind.Namespace)
        (present Member.Namespace (view job.now))) }
{
    match present(job, Member::Namespace) {
        None => Ok(None),
        Some(value) => name_if_any(alloc, value, Member::Namespace, NameKind::Namespace),
    }
}

#[tactic(auto, unfolding(crate::specs::Registration::pool_in))]
fn pool(alloc: Global, value: &Value) -> Result<Option<Text>, Refusal>
    ensures { Gives same result (pool_in (view value.now)) }
{
    match name_if_any(alloc, value, Member::NodePool, NameKind::Pool)? {
        Some(pool) if pool.as_str() == "all" => Err(Refusal::BadField(Member::NodePool)),
        pool => Ok(pool),
    }
}

fn node_pool(alloc: Global, job: &Value) -> Result<Option<Text>, Refusal>
    ensures { Gives same result
        (or_else None pool_in (present Member.NodePool (view job.now))) }
{
    match present(job, Member::NodePool) {
        None => Ok(None),
        Some(value) => pool(alloc, value),
    }
}

#[tactic(auto, unfolding(crate::specs::Registration::kind_in, crate::specs::Registration::kind_of))]
fn job_kind(value: &Value) -> Result<JobKind, Refusal>
    ensures { Gives same result (kind_in (view value.now)) }
{
    let text = text(value, Member::Type)?;
    if text == "service" {
        return Ok(JobKind::Service);
    }
    if text == "batch" {
        return Ok(JobKind::Batch);
    }
    Err(Refusal::BadField(Member::Type))
}

fn kind_or_service(job: &Value) -> Result<JobKind, Refusal>
    ensures { Gives same result (or_else Service kind_in (present Member.Type (view job.now))) }
{
    match present(job, Member::Type) {
        None => Ok(JobKind::Service),
        Some(value) => job_kind(value),
    }
}

fn constraints_or_none(alloc: Global, job: &Value) -> Result<Rows<Constraint>, Refusal>
    ensures { Gives same result
        (or_else [] constraints_in (present Member.Constraints (view job.now))) }
{
    match present(job, Member::Constraints) {
        None => Ok(Rows::new(alloc)),
        Some(value) => constraints(alloc, value),
    }
}

fn absent(job: &Value, member: Member) -> Result<(), Refusal>
    ensures { Gives same result (absent member (present member (view job.now))) }
{
    match present(job, member) {
        None => Ok(()),
        Some(_) => Err(Refusal::BadField(member)),
    }
}

/// The groups of a job that is neither periodic nor parameterized.
#[tactic(auto, unfolding(crate::specs::Registration::job_groups_in))]
fn job_groups(alloc: Global, job: &Value) -> Result<Rows<Group>, Refusal>
    ensures { Gives same result (job_groups_in (view job.now)) }
{
    absent(job, Member::Periodic)?;
    absent(job, Member::ParameterizedJob)?;
    groups(alloc, demanded(job, Member::TaskGroups)?)
}

/// The constraints of a job, and its groups.
#[tactic(auto, unfolding(crate::specs::Registration::work_in))]
fn work(alloc: Global, job: &Value) -> Result<(Rows<Constraint>, Rows<Group>), Refusal>
    ensures { Gives same result (work_in (view job.now)) }
{
    let constraints = constraints_or_none(alloc, job)?;
    match job_groups(alloc, job) {
        Ok(groups) => Ok((constraints, groups)),
        Err(refusal) => {
            drop(constraints);
            Err(refusal)
        }
    }
}

/// What a job's document has besides its name and its namespace.
#[derive(Drop)]
pub(crate) struct JobTerms {
    kind: JobKind,
    priority: u64,
    pool: Option<Text>,
    constraints: Rows<Constraint>,
    groups: Rows<Group>,
}

#[tactic(auto, unfolding(crate::specs::Registration::terms_in))]
fn terms(alloc: Global, job: &Value) -> Result<JobTerms, Refusal>
    ensures { Gives same result (terms_in (view job.now)) }
{
    let kind = kind_or_service(job)?;
    let priority = number_or(job, Member::Priority, 1, 100, 50)?;
    let pool = node_pool(alloc, job)?;
    match work(alloc, job) {
        Ok((constraints, groups)) => Ok(JobTerms {
            kind,
            priority,
            pool,
            constraints,
            groups,
        }),
        Err(refusal) => {
            drop(pool);
            Err(refusal)
        }
    }
}

/// The name of a job, and the namespace that it names.
#[tactic(auto, unfolding(crate::specs::Registration::names_in))]
fn names(alloc: Global, job: &Value) -> Result<(Text, Option<Text>), Refusal>
    ensures { Gives same result (names_in (view job.now)) }
{
    let id = name(alloc, demanded(job, Member::Id)?, Member::Id, NameKind::Job)?;
    match namespace(alloc, job) {
        Ok(namespace) => Ok((id, namespace)),
        Err(refusal) => {
            drop(id);
            Err(refusal)
        }
    }
}

/// The job's document, as a registration that enforces no index yet.
#[tactic(auto, unfolding(crate::specs::Registration::job_in))]
fn job(alloc: Global, value: &Value) -> Result<RegistrationDocument, Refusal>
    ensures { Gives same result (job_in (view value.now)) }
{
    let job = object(value, Member::Job)?;
    let (id, namespace) = names(alloc, job)?;
    match terms(alloc, job) {
        Ok(terms) => Ok(RegistrationDocument {
            namespace,
            registration: Registration {
                id,
                kind: terms.kind,
                priority: terms.priority,
                pool: terms.pool,
                constraints: terms.constraints,
                groups: terms.groups,
                enforced: None,
            },
        }),
        Err(refusal) => {
            drop(id);
            drop(namespace);
            Err(refusal)
        }
    }
}

/// The index that the registration enforces, if it enforces one.
#[tactic(auto, unfolding(crate::specs::Registration::enforced_in))]
fn enforced(top: &Value) -> Result<Option<u64>, Refusal>
    ensures { Gives same result (enforced_in (view top.now)) }
{
    let enforce = flag_or_false(top, Member::EnforceIndex)?;
    let index = number_or(top, Member::JobModifyIndex, 0, u64::MAX, 0)?;
    Ok(enforce.then_some(index))
}

#[tactic(auto, unfolding(crate::specs::Registration::registration_in))]
fn registration(alloc: Global, value: &Value) -> Result<RegistrationDocument, Refusal>
    ensures { Gives same result (registration_in (view value.now)) }
{
    let top = document(value)?;
    let mut document = job(alloc, demanded(top, Member::Job)?)?;
    match enforced(top) {
        Ok(index) => {
            document.registration.enforced = index;
            Ok(document)
        }
        Err(refusal) => {
            drop(document);
            Err(refusal)
        }
    }
}

/// The registration in a body, or the first refusal.
#[tactic(auto, unfolding(crate::specs::Reading::body_in))]
pub fn read_registration(alloc: Global, body: &[u8]) -> Result<RegistrationDocument, Refusal>
    ensures value { Gives same result (body_in registration_in body.now) }
    // What is read is within the limits.
    ensures good { IfOk result (λ d. IsTrue (is_good_registration d.registration)) }
    // What the refusal can be.
    ensures kinds { IfErr result IsOfDocument }
{
    registration(alloc, &read_json(alloc, body)?)
}
