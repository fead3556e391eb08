//! Computes what an Apply writes of a plan, once it is known which nodes do their part: the live stops, the victims and the
//! placements of these nodes, evaluations of the jobs that lose an allocation by preemption, the worker's row, and the
//! reply. Each part is one function of the model, over whatever change stands.
#![tactic(auto)]

mod answering;
mod applying;
mod committed;
mod evicting;
pub mod laws;
mod looking;
mod placing;
mod stopping;
mod writing;

pub use answering::Turn;
pub use applying::{apply_refused, apply_standing};
pub use committed::Committed;
