//! Evaluations as replies show them.

ghost use Rattle.std.specs.Prelude.{◌≡◌, IfOk};
ghost use Rattle.ns_types.specs.declared.step.AskCommand.TheVariants as AskCommand;
ghost use Rattle.ns_types.specs.Asking.Reads.{evaluations_where};
ghost use Rattle.ns_jobs.specs.Read.{SaysIn, evaluation_shown, lists_evaluation};
ghost use Rattle.ns_tables.specs.Filing.{evaluation_job};
ghost use Rattle.ns_tables.specs.World.{tenant_of};

use crate::listing::{Listed, rows_listed};
use crate::looking::{self, id_begins};
use keyed::NumberTable;
use ns_equality::same_text;
use ns_tables::TenantRows;
use ns_types::evaluation::Evaluation;
use ns_types::id::IdKind;
use ns_types::refusal::Refusal;
use ns_types::reply::{Content, EvaluationShown};
use ns_types::shared::Shared;
use ns_types::step::AskCommand;
use ns_types::text::Text;
use std::alloc::{AllocError, Global};

impl Listed for Evaluation {
    type Shown = EvaluationShown;

    ghost slots_of = { λ t. t.evaluations.slots };

    ghost job_of = { evaluation_job };

    ghost as_shown = { evaluation_shown };

    ghost is_listed = { lists_evaluation };

    fn rows(tenant: &TenantRows) -> &NumberTable<Evaluation> {
        tenant.evaluations.rows()
    }

    fn numbers_of<'a>(tenant: &'a TenantRows, job: &Text) -> Option<&'a NumberTable<()>> {
        tenant.evaluations.numbers_of(job)
    }

    fn job_asked(command: &AskCommand) -> Option<&Text> {
        match command {
            AskCommand::JobEvaluations(job) => Some(job),
            _ => None,
        }
    }

    fn show(&self, namespace: &Text, number: u64) -> Result<EvaluationShown, AllocError> {
        Ok(EvaluationShown {
            namespace: namespace.clone()?,
            number,
            row: self.clone()?,
        })
    }

    fn is_listed(&self, command: &AskCommand, number: u64) -> bool {
        match command {
            AskCommand::JobEvaluations(job) => same_text(job, &self.job),
            AskCommand::ListEvaluations(prefix) => id_begins(prefix, IdKind::Evaluation, number),
            _ => false,
        }
    }
}

/// The reply to the read of an evaluation. `NotFound`: the namespace has no such evaluation.
pub(crate) fn read_evaluation(
    alloc: Global,
    namespace: &Text,
    tenant: &TenantRows,
    number: u64,
) -> Result<Content, Refusal>
    ensures { SaysIn namespace.now (AskCommand.ReadEvaluation number) tenant.now result }
{
    let Some(row) = looking::evaluation(tenant, number) else {
        return Err(Refusal::NotFound);
    };
    let shown = row.show(namespace, number)?;
    let shown = Shared::new(alloc, shown)?;
    Ok(Content::Evaluation(shown))
}

/// The reply to a list of evaluations.
pub(crate) fn list_evaluations(
    alloc: Global,
    namespace: &Text,
    tenant: &TenantRows,
    command: &AskCommand,
) -> Result<Content, AllocError>
    ensures { let t = tenant_of tenant.now in IfOk result
        (λ said. said ≡ evaluations_where namespace.now t (lists_evaluation command.now)) }
{
    let shown = rows_listed::<Evaluation>(alloc, namespace, tenant, command)?;
    Ok(Content::Evaluations(shown))
}
