//! Compares values. `Equal` tests whether two values are the same in every part, and takes no memory: snapshots, steps and
//! rendered answers, with all that they hold. Rows are compared as the model does, member by member: keys, offers of nodes,
//! limits of quotas, documents of jobs, and what replies show of jobs, evaluations and allocations.
#![tactic(auto)]

mod documents;
mod equal;
mod keys;
mod limits;
mod offers;
mod rows;

pub use documents::same_document;
pub use equal::Equal;
pub use keys::{has_key, has_name, same_key, same_number};
pub use limits::{changes_limits, limits_in};
pub use ns_types::text::same_text;
pub use offers::{class_of, is_free, is_unique, may_use, same_attribute, same_class, same_offer};
pub use rows::{
    same_allocation, same_evaluation, same_flag, same_job, same_optional_text, same_with_status,
};
