//! Shares a server and its log between threads. Each caller has a seat, which keeps the receipts of its calls.
#![tactic(auto)]

mod changes;
mod copying;
mod desk;
mod ended;
mod looking;
mod ready;
mod retention;
mod seat;
mod settling;
mod shared;
mod spent;
mod work;

pub use changes::{ApplierView, BusyWorker, Moment, Planner, Role, WaitsFor, WorkerView};
pub use ended::{Ended, PARTS};
pub use looking::WORKERS_END;
pub use retention::{Forgets, Retains, Retention};
pub use seat::Seat;
pub use settling::SettledLog;
pub use shared::Shared;
