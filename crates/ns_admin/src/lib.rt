//! Prepares and answers administrators' requests for namespaces, quotas and pools, over the tables of the whole world.
//! `confinement` decides whether a namespace has its pools and its quotas to itself.
#![tactic(auto)]

mod beginning;
pub mod confinement;
mod held;
mod laws;
mod lists;
mod looking;
mod namespaces;
mod pools;
mod quotas;
mod record;
mod sharing;
mod writing;

pub use beginning::opening;
pub use laws::{administration_makes, administration_settles, administration_stays_within};
pub use lists::{list_namespaces, list_pools, list_quotas};
pub use looking::{is_confined_in, is_full, permits_in, shares};
pub use namespaces::{delete_namespace, put_namespace};
pub use pools::{delete_pool, put_pool};
pub use quotas::{change_limits, delete_quota, is_relimited, put_quota, read_quota};
pub use record::RecordChange;
pub use sharing::{is_confined, names_quota, overlaps, permits, same_quota};
pub use writing::write;
