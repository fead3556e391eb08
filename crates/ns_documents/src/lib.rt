//! Reads the documents of namespaces, quotas, pools, policies and tokens, and those of nodes.
#![tactic(auto)]

mod members;
mod namespace;
mod node;
mod policy;
mod pool;
mod pools;
mod quota;
mod report;
mod token;

pub use namespace::{NamedNamespace, read_namespace};
pub use node::{read_eligibility, read_node, read_node_status};
pub use policy::read_policy;
pub use pool::{NamedPool, read_pool};
pub use quota::{NamedQuota, read_quota};
pub use report::read_report;
pub use token::{TokenDocument, read_token};
