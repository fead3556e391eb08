//! Tests, through their public calls, the crates that hold the state and that keep, write and read its log.

mod apart;
mod blocked;
mod bounds;
mod by_key;
mod choosing;
mod counting;
mod full_pool;
mod ids;
mod jobs;
mod keeping;
mod limits;
mod made;
mod missing;
mod nodes;
mod owned;
mod plans;
mod quotas;
mod reading;
mod runs;
mod server;
mod settling;
mod sharing;
mod steps;
mod turns;
mod workers;
