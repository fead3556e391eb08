//! Applies the next plan: checks it against the present state, and does what still fits.
//! Nomad's page "Scheduling in Nomad", of the plan queue.
//!
//! `view` shows the present state to that check. `headroom` decides whether the bound of a counter would be passed, before
//! anything is written. `laws` describes the state after an Apply, row by row.
#![tactic(auto)]

mod applying;
mod headroom;
mod judging;
pub mod laws;
mod losing;
mod turn;
pub mod view;

pub use applying::apply;
