//! The text of a log, which is read back as the log.

ghost use Rattle.std.specs.Prelude.{◌≡◌, IfOk, OnOk, string_bytes};
ghost use Rattle.ns_json.specs.Logs.{log_text};
ghost use Rattle.ns_pipe.specs.Readable.{AreAsRead, IsReadBack};

use crate::written::typed::each_is_typed;
use ns_log::{Entry, log_text};
use ns_types::name::Secret;
use std::alloc::{AllocError, Global};

/// The text of a log that is one segment. It is read back as the log if each policy that an entry puts has the rules that its
/// text says, as each policy of a request has.
pub fn readable_text(
    alloc: Global,
    bootstrap: &Secret,
    entries: &[Entry],
) -> Result<String, AllocError>
    ensures text { IfOk result (λ text. string_bytes text ≡ log_text bootstrap.now entries.now) }
    ensures read_back { OnOk result
        (AreAsRead entries.now → IsReadBack bootstrap.now entries.now) }
{
    each_is_typed(entries);
    bootstrap.get();
    let text = log_text(alloc, bootstrap, entries)?;
    Ok(text)
}
