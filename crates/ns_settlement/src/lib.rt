//! Ends a step. `conclude` refuses the step if a counter would pass its bound; otherwise it settles the change and commits it
//! to the tables, all of it or nothing. The index of live allocations follows the tables. Want of memory comes last: without
//! it the step would have been made. The lemma `makes` of `proofs/Concluding` says that the reply is the model's reply to the
//! step, and the state afterwards the model's state.
//!
//! `settle` completes the change with what the step releases, the evaluations that the releases wake, and the indexes and
//! events of changed rows. The result leads from the world before to the model's `settle` of the world that the change leaves.
//! It reads the change, and looks up what was there before. Its work grows with what the step changes, and with the
//! evaluations that wait in the pools and for the quotas that it releases. `commit` puts the result into the tables.
#![tactic(auto)]

mod commit;
mod concluded;
mod finishing;
mod quotas;
mod reached;
mod rooms;
mod stamping;
mod waking;

pub use concluded::conclude;
pub use finishing::settle;
