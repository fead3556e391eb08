//! What a namespace is claimed to have to itself.

use ns_types::text::Text;

/// A namespace with a list of pools and a list of quotas.
#[derive(Clone, Copy)]
pub(crate) struct Claim<'a> {
    pub(crate) namespace: &'a Text,
    pub(crate) pools: &'a [Text],
    pub(crate) quotas: &'a [Text],
}
