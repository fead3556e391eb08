//! The rows of a namespace that a command lists, as replies show them.

ghost use Rattle.std.specs.Prelude.{◌≡◌, ℕ, Bool, [], ◌∷◌, ◌++◌, IfOk, IfSome, OnOk, Option, option_copied};
ghost use Rattle.std.specs.FinMap.{entries};
ghost use Rattle.ns_types.specs.declared.step.AskCommand.{AskCommand};
ghost use Rattle.ns_types.specs.State.Names.{ByNumber, Name};
ghost use Rattle.ns_jobs.specs.Read.{IsAmongThoseOf, rows_shown};
ghost use Rattle.ns_tables.specs.Filing.{AreNumbersUnder, slots_at};
ghost use Rattle.ns_tables.specs.declared.tables.TenantRows.{TenantRows};

use keyed::{NumberSlot, NumberTable};
use ns_tables::TenantRows;
use ns_types::rows::Rows;
use ns_types::step::AskCommand;
use ns_types::text::Text;
use std::alloc::{AllocError, Global};

/// A row that commands list.
pub(crate) trait Listed: Drop {
    /// What a reply shows of the row.
    type Shown: Drop;

    ghost slots_of: { TenantRows → ByNumber (Option Self) };

    ghost job_of: { Self → Option Name };

    ghost as_shown: { Name → ℕ → Self → Self.Shown };

    ghost is_listed: { AskCommand → Self.Shown → Bool };

    /// The namespace's rows of that kind.
    fn rows(tenant: &TenantRows) -> &NumberTable<Self>
        ensures { result.now ≡ slots_of tenant.now };

    /// The numbers of the job's rows.
    fn numbers_of<'a>(tenant: &'a TenantRows, job: &Text) -> Option<&'a NumberTable<()>>
        ensures { AreNumbersUnder job_of job.now (slots_of tenant.now) (option_copied result) };

    /// The job whose rows are the only ones that the command lists, if there is one.
    fn job_asked(command: &AskCommand) -> Option<&Text>
        ensures { IfSome (option_copied result)
            (IsAmongThoseOf as_shown is_listed job_of command.now) };

    fn show(&self, namespace: &Text, number: u64) -> Result<Self::Shown, AllocError>
        ensures { IfOk result (λ shown. shown ≡ as_shown namespace.now number self.now) };

    /// Whether the command lists the row of that number.
    fn is_listed(&self, command: &AskCommand, number: u64) -> bool
        ensures { (namespace : Name)
            → result ≡ is_listed command.now (as_shown namespace number self.now) };
}

/// Adds the row, if the command lists it.
fn add_listed<V: Listed>(
    listed: &mut Rows<V::Shown>,
    namespace: &Text,
    command: &AskCommand,
    number: u64,
    row: Option<&V>,
) -> Result<(), AllocError>
    ensures { OnOk result (listed.new
        ≡ listed.old ++ rows_shown V.as_shown V.is_listed namespace.now
        command.now ((number, option_copied row.entry) ∷ [])) }
{
    if let Some(row) = row {
        if row.is_listed(command, number) {
            listed.push(row.show(namespace, number)?)?;
        }
    }
    Ok(())
}

/// The rows of the slots that the command lists.
fn rows_shown<V: Listed>(
    alloc: Global,
    namespace: &Text,
    command: &AskCommand,
    slots: &[NumberSlot<V>],
) -> Result<Rows<V::Shown>, AllocError>
    ensures { IfOk result (λ shown. shown
        ≡ rows_shown V.as_shown V.is_listed namespace.now command.now slots.now) }
{
    let mut listed = Rows::new(alloc);
    for slot in slots {
        add_listed(&mut listed, namespace, command, slot.0, slot.1.as_ref())?;
    }
    Ok(listed)
}

/// The rows at the numbers that the command lists.
fn shown_at_numbers<V: Listed>(
    alloc: Global,
    namespace: &Text,
    command: &AskCommand,
    rows: &NumberTable<V>,
    slots: &[NumberSlot<()>],
) -> Result<Rows<V::Shown>, AllocError>
    ensures { IfOk result (λ shown. shown ≡ rows_shown V.as_shown V.is_listed namespace.now
        command.now (slots_at rows.now slots.now)) }
{
    let mut listed = Rows::new(alloc);
    for slot in slots {
        add_listed(&mut listed, namespace, command, slot.0, rows.get(slot.0))?;
    }
    Ok(listed)
}

/// The rows that the command lists, if it lists only rows of this job. It looks up only the job's own numbers.
fn shown_of_job<V: Listed>(
    alloc: Global,
    namespace: &Text,
    tenant: &TenantRows,
    command: &AskCommand,
    job: &Text,
) -> Result<Rows<V::Shown>, AllocError>
    requires { IsAmongThoseOf V.as_shown V.is_listed V.job_of command.now job.now }
    ensures { IfOk result (λ shown. shown ≡ rows_shown V.as_shown V.is_listed namespace.now
        command.now (entries (V.slots_of tenant.now))) }
{
    match V::numbers_of(tenant, job) {
        Some(numbers) => {
            let slots = numbers.as_slice();
            shown_at_numbers::<V>(alloc, namespace, command, V::rows(tenant), slots)
        }
        None => Ok(Rows::new(alloc)),
    }
}

/// The rows that the command lists, by number.
pub(crate) fn rows_listed<V: Listed>(
    alloc: Global,
    namespace: &Text,
    tenant: &TenantRows,
    command: &AskCommand,
) -> Result<Rows<V::Shown>, AllocError>
    ensures { IfOk result (λ shown. shown ≡ rows_shown V.as_shown V.is_listed namespace.now
        command.now (entries (V.slots_of tenant.now))) }
{
    match V::job_asked(command) {
        Some(job) => shown_of_job::<V>(alloc, namespace, tenant, command, job),
        None => rows_shown::<V>(alloc, namespace, command, V::rows(tenant).as_slice()),
    }
}
