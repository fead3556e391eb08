//! Defines what the crates of the server share: the rows of its state, its steps and its replies, and the whole model.
#![tactic(auto)]

pub mod acl;
pub mod allocation;
pub mod body;
pub mod evaluation;
pub mod event;
pub mod good;
pub mod id;
pub mod job;
pub mod key;
pub mod laws;
pub mod live_rows;
pub mod name;
pub mod node;
pub mod plan;
pub mod planned;
pub mod records;
pub mod refusal;
pub mod reply;
pub mod resources;
pub mod rows;
pub mod shared;
pub mod snapshot;
pub mod step;
pub mod text;
pub mod worker;
