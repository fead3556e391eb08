//! A number for each job, by namespace: the number of an allocation that the job loses.

ghost use Rattle.std.specs.Prelude.{◌≡◌, ◌&&◌, IfOk, OnOk, None, Some, if◌then◌else◌};
ghost use Rattle.std.specs.Option.{option_copied};
ghost use Rattle.keyed.specs.Table.{row_at};
ghost use Rattle.ns_types.specs.State.Names.{Name, same_name};
ghost use Rattle.ns_change.specs.Waiting.{lesser};
ghost use Rattle.ns_renewal.specs.Losing.{job_number};

use keyed::NameTable;
use ns_types::text::Text;
use std::alloc::{AllocError, Global};

/// The jobs of one namespace, each with a number.
type Jobs = NameTable<u64>;

/// For each job, by namespace, the number of one of its allocations.
#[derive(Drop)]
pub(crate) struct Losses {
    alloc: Global,
    jobs: NameTable<Jobs>,
}

fn lesser(other: Option<&u64>, number: u64) -> u64
    ensures { Some result ≡ lesser (option_copied other.entry) (Some number) }
{
    match other {
        Some(other) => number.min(*other),
        None => number,
    }
}

/// The jobs of a namespace with the job's number lowered to this one, if it has none yet or a greater one.
fn lowered(alloc: Global, jobs: Option<Jobs>, job: &Text, number: u64) -> Result<Jobs, AllocError>
    ensures { IfOk result (λ new. (id : Name) → row_at new id ≡ (if same_name id job.now
        then lesser (job_number jobs job.now) (Some number) else job_number jobs id)) }
{
    let mut jobs = match jobs {
        Some(jobs) => jobs,
        None => NameTable::new(alloc),
    };
    let least = lesser(jobs.get(job), number);
    jobs.reserve(job)?;
    jobs.set(job, least);
    Ok(jobs)
}

impl Losses {
    ghost use Rattle.ns_renewal.specs.Losses.{Puts, number_at};

    /// No job has a number. It takes no memory.
    pub(crate) fn new(alloc: Global) -> Losses
        ensures { (ns job : Name) → number_at result ns job ≡ None }
    {
        Losses {
            alloc,
            jobs: NameTable::new(alloc),
        }
    }

    /// Lowers the job's number to this one, if it has none yet or a greater one. It costs binary searches, and room for a job
    /// that is new.
    pub(crate) fn lower(
        &mut self,
        namespace: &Text,
        job: &Text,
        number: u64,
    ) -> Result<(), AllocError>
        ensures { OnOk result (Puts namespace.now job.now (lesser
            (number_at self.old namespace.now job.now) (Some number)) self.old self.new) }
    {
        self.jobs.reserve(namespace)?;
        let jobs = lowered(self.alloc, self.jobs.take(namespace), job, number)?;
        self.jobs.set(namespace, jobs);
        Ok(())
    }

    /// Takes the job's number out and returns it. It takes no memory.
    pub(crate) fn take(&mut self, namespace: &Text, job: &Text) -> Option<u64>
        ensures number { result ≡ number_at self.old namespace.now job.now }
        ensures others { Puts namespace.now job.now None self.old self.new }
    {
        let Some(mut jobs) = self.jobs.take(namespace) else {
            return None;
        };
        let number = jobs.take(job);
        self.jobs.set(namespace, jobs);
        number
    }
}
