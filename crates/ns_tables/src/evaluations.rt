//! A namespace's evaluations.

ghost use Rattle.std.specs.Prelude.{◌≡◌, OnOk, option_copied};
ghost use Rattle.std.specs.FinMap.{empty};
ghost use Rattle.keyed.specs.Over.{over};
ghost use Rattle.keyed.specs.Table.{rows, without_vacant};
ghost use Rattle.ns_tables.specs.Evaluations.{HasEvaluationRoom};
ghost use Rattle.ns_types.specs.State.Rows.{is_blocked, is_pending};
ghost use Rattle.ns_tables.specs.Filing.{AreNumbersUnder, evaluation_job, job_where};

use crate::filing::{BlockedJob, EvaluationJob, PendingJob, clear, refile, reserve_all};
use keyed::{KeySet, NumberSlot, NumberTable};
use ns_types::evaluation::Evaluation;
use ns_types::text::Text;
use std::alloc::{AllocError, Global};
use std::marker::Model;

/// Evaluations by number, with the numbers of each job's evaluations: of all, of the pending ones and of the blocked ones.
pub struct EvaluationTable {
    alloc: Global,
    slots: NumberTable<Evaluation>,
    jobs: KeySet,
    pending: KeySet,
    blocked: KeySet,
}

impl Drop for EvaluationTable {
    fn drop(self) {
        let EvaluationTable {
            alloc: _,
            slots: _slots,
            jobs: _jobs,
            pending: _pending,
            blocked: _blocked,
        } = self;
    }
}

impl Model for EvaluationTable {
    ghost use Rattle.keyed.specs.Table.{rows};
    ghost use Rattle.keyed.specs.contracts.key_set.KeySet as set;
    ghost use Rattle.std.specs.FinMap.{code};
    ghost use Rattle.std.specs.Coded.{codes};
    ghost use Rattle.ns_tables.specs.Evaluations.{AreFiled, EvaluationTable};

    ghost Value = { EvaluationTable };

    ghost coded = { Prim.hlevel (codes, code, set.the_row.coded) };

    ghost view = { λ t. record {
      slots = t.slots;
      jobs = t.jobs;
      pending = t.pending;
      blocked = t.blocked;
    } };

    ghost invariant = { λ t. AreFiled t.jobs t.pending t.blocked (rows t.slots) };
}

impl EvaluationTable {
    /// No slots. It takes no memory.
    pub fn new(alloc: Global) -> EvaluationTable
        ensures { result.slots ≡ empty }
    {
        EvaluationTable {
            alloc,
            slots: NumberTable::new(alloc),
            jobs: KeySet::new(alloc),
            pending: KeySet::new(alloc),
            blocked: KeySet::new(alloc),
        }
    }

    /// The evaluations by number.
    pub fn rows(&self) -> &NumberTable<Evaluation>
        ensures { result.now ≡ self.now.slots }
    {
        &self.slots
    }

    /// The numbers of the job's evaluations. They rise.
    pub fn numbers_of(&self, job: &Text) -> Option<&NumberTable<()>>
        ensures { AreNumbersUnder evaluation_job job.now self.now.slots (option_copied result) }
    {
        self.jobs.numbers_of(job)
    }

    /// The numbers of the job's pending evaluations. They rise.
    pub fn pending_of(&self, job: &Text) -> Option<&NumberTable<()>>
        ensures { AreNumbersUnder (job_where is_pending) job.now self.now.slots
            (option_copied result) }
    {
        self.pending.numbers_of(job)
    }

    /// The numbers of the job's blocked evaluations. They rise.
    pub fn blocked_of(&self, job: &Text) -> Option<&NumberTable<()>>
        ensures { AreNumbersUnder (job_where is_blocked) job.now self.now.slots
            (option_copied result) }
    {
        self.blocked.numbers_of(job)
    }

    /// Makes room for each changed row. Want of memory is the only error.
    pub fn reserve_all(&mut self, changes: &NumberTable<Evaluation>) -> Result<(), AllocError>
        ensures rows { rows self.new.slots ≡ rows self.old.slots }
        ensures room { OnOk result (HasEvaluationRoom changes.now self.new) }
    {
        self.slots.reserve_all(changes)?;
        let slots = changes.as_slice();
        reserve_all::<EvaluationJob>(&mut self.jobs, self.alloc, slots)?;
        reserve_all::<PendingJob>(&mut self.pending, self.alloc, slots)?;
        reserve_all::<BlockedJob>(&mut self.blocked, self.alloc, slots)
    }

    /// Writes the changed rows, and takes away those that are gone. It takes no memory.
    pub fn apply(&mut self, changes: NumberTable<Evaluation>)
        requires { HasEvaluationRoom changes self.old }
        ensures { rows self.new.slots ≡ over (rows self.old.slots) changes }
    {
        refile::<EvaluationJob>(&mut self.jobs, &self.slots, &changes);
        refile::<PendingJob>(&mut self.pending, &self.slots, &changes);
        refile::<BlockedJob>(&mut self.blocked, &self.slots, &changes);
        self.slots.apply(changes);
    }

    /// Takes the slot of the changed row out, if it is vacant, with the room that was made for the row's number.
    pub fn clear_slot(&mut self, slot: &NumberSlot<Evaluation>)
        ensures { self.new.slots ≡ without_vacant self.old.slots slot.now.0 }
    {
        self.slots.clear_slot(slot.0);
        clear::<EvaluationJob>(&mut self.jobs, slot);
        clear::<PendingJob>(&mut self.pending, slot);
        clear::<BlockedJob>(&mut self.blocked, slot);
    }
}
