//! Rights in a namespace.

ghost use Rattle.std.specs.Prelude.{◌≡◌};
ghost use Rattle.ns_types.specs.Access.Rights.{has_any};

use ns_types::acl::Rights;

/// Whether the rights allow anything at all.
pub fn has_any(rights: Rights) -> bool
    ensures { result ≡ has_any rights }
{
    rights.list_jobs || rights.read_job || rights.submit_job || rights.alloc_lifecycle
}
