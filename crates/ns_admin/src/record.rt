//! What administrators' commands on namespaces, quotas and pools write.

use ns_types::records::{Namespace, Pool, Quota};
use ns_types::text::Text;

/// What a command writes: the record of one owner, by its name, or the owner's removal with all that it has.
#[derive(Drop)]
pub enum RecordChange {
    Namespace(Text, Namespace),
    NoNamespace(Text),
    Quota(Text, Quota),
    NoQuota(Text),
    Pool(Text, Pool),
    NoPool(Text),
}
