// Threads wait for one another, for a limited time.
use ns_schedule::plan;
use ns_types::planned::Planned;
use ns_types::refusal::Refusal;
use ns_types::shared::Shared;
use ns_types::snapshot::Snapshot;
use ns_workers::{Gate, Point};
use std::alloc::Global;
use std::process::Abort;
use std::rt::Clock;
use std::sync::atomic::{AtomicU64, Ordering};
use std::thread;
use std::time::Duration;

/// How often a thread checks what the others did, a millisecond apart.
const TURNS: u64 = 10_000;

/// Waits until `is_so` returns true. Fails the test if that takes too long.
pub(crate) fn await_that<R: Clock + Abort, F: Fn() -> bool>(rt: &R, is_so: &F)
    requires { F.IsAlwaysCallable is_so.now }
{
    for _ in 0..TURNS {
        if is_so() {
            return;
        }
        thread::sleep(rt, Duration::from_millis(1));
    }
    assert!(rt; is_so(), "not in time");
}

/// What happens to the workers.
#[derive(Clone, Copy, PartialEq, Eq)]
pub(crate) enum Plot {
    /// Each is held inside its first plan until both are in theirs.
    PlanAtOnce,
    /// Each is held after its first snapshot until both have taken one, so that neither sees what the other's plan takes.
    LookAtOnce,
    /// The first worker ends after this step. The second one begins after that.
    Dies(Point),
}

impl Plot {
    pub(crate) fn is_of_an_end(self) -> bool {
        matches!(self, Plot::Dies(_))
    }
}

/// Threads wait here until `wanted` of them have come.
#[derive(Drop)]
pub(crate) struct Meeting {
    pub plot: Plot,
    pub wanted: u64,
    there: AtomicU64,
}

impl Meeting {
    /// A meeting of both workers, or of the one that ends.
    pub(crate) fn new(plot: Plot) -> Meeting {
        Meeting {
            plot,
            wanted: if plot.is_of_an_end() { 1 } else { 2 },
            there: AtomicU64::new(0),
        }
    }

    pub(crate) fn is_full(&self) -> bool {
        self.there.load(Ordering::SeqCst) >= self.wanted
    }

    pub(crate) fn come(&self) {
        self.there.fetch_add(1, Ordering::SeqCst);
    }

    /// Waits until all have come. Fails the test if they do not come in time.
    pub(crate) fn wait<R: Clock + Abort>(&self, rt: &R) {
        await_that(rt, &|| self.is_full());
    }
}

/// Lets workers pass as the plot says.
#[derive(Drop)]
pub(crate) struct MeetingGate<'a, R> {
    pub rt: &'a R,
    pub meeting: &'a Meeting,
}

impl<R: Clock + Abort> MeetingGate<'_, R> {
    /// Holds the worker until all have come, if this is the plot.
    fn hold(&self, plot: Plot) {
        if self.meeting.plot == plot {
            self.meeting.come();
            self.meeting.wait(self.rt);
        }
    }
}

impl<R: Clock + Abort> Gate for MeetingGate<'_, R> {
    fn plan(
        &self,
        alloc: Global,
        _worker: u64,
        snapshot: Shared<Snapshot>,
    ) -> Result<Planned, Refusal> {
        self.hold(Plot::PlanAtOnce);
        plan(alloc, snapshot)
    }

    fn pass(&self, worker: u64, point: Point) -> bool {
        if point == Point::Snapped {
            self.hold(Plot::LookAtOnce);
        }
        worker > 0 || self.meeting.plot != Plot::Dies(point)
    }
}
