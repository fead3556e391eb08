//! Rows of a namespace by id and number, and whether an id begins with a prefix.

ghost use Rattle.std.specs.Prelude.{◌≡◌, option_copied};
ghost use Rattle.std.specs.FinMap.{get};
ghost use Rattle.ns_types.specs.State.Id.{id_text};
ghost use Rattle.ns_types.specs.State.Names.{begins_with};
ghost use Rattle.ns_tables.specs.World.{tenant_of};

use ns_tables::TenantRows;
use ns_types::allocation::Allocation;
use ns_types::evaluation::Evaluation;
use ns_types::id::{IdKind, id_str};
use ns_types::job::Job;
use ns_types::text::Text;

/// The namespace's job of that id.
pub fn job<'a>(tenant: &'a TenantRows, id: &Text) -> Option<&'a Job>
    ensures { option_copied result ≡ get (tenant_of tenant.now).jobs id.now }
{
    tenant.jobs.get(id)
}

pub(crate) fn evaluation(tenant: &TenantRows, number: u64) -> Option<&Evaluation>
    ensures { option_copied result ≡ get (tenant_of tenant.now).evaluations number }
{
    tenant.evaluations.rows().get(number)
}

/// The namespace's allocation of that number.
pub fn allocation(tenant: &TenantRows, number: u64) -> Option<&Allocation>
    ensures { option_copied result ≡ get (tenant_of tenant.now).allocations number }
{
    tenant.allocations.get(number)
}

fn text_begins(prefix: &Text, text: &str) -> bool
    ensures { result ≡ begins_with prefix.now text.now }
{
    text.as_bytes().starts_with(prefix.as_str().as_bytes())
}

/// Whether the id of a job begins with the prefix.
pub(crate) fn begins(prefix: &Text, id: &Text) -> bool
    ensures { result ≡ begins_with prefix.now id.now }
{
    text_begins(prefix, id.as_str())
}

/// Whether the id of that kind and number begins with the prefix.
pub(crate) fn id_begins(prefix: &Text, kind: IdKind, number: u64) -> bool
    ensures { result ≡ begins_with prefix.now (id_text kind number) }
{
    let mut buffer = [0; 36];
    text_begins(prefix, id_str(kind, number, &mut buffer))
}
