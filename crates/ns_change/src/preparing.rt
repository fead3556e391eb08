//! The result of a command, once its change was made or no memory was left.

ghost use Rattle.std.specs.Prelude.{◌≡◌, OnOk};
ghost use Rattle.ns_types.specs.Settling.Outcome.{Done};
ghost use Rattle.ns_types.specs.State.Rows.{World};
ghost use Rattle.ns_change.specs.Changed.{view};
ghost use Rattle.ns_change.specs.Prepared.{Prepares};
ghost use Rattle.ns_tables.specs.declared.tables.Tables.{Tables};

use crate::change::{Change, Prepared};
use ns_types::refusal::Refusal;
use ns_types::reply::Content;
use std::alloc::AllocError;

/// Returns the reply's content with the change, if the change was made. `Memory`: it was not, and the change is dropped.
pub fn prepare(
    content: Content,
    change: Change,
    made: Result<(), AllocError>,
) -> Result<Prepared, Refusal>
    ensures { (t : Tables) → (w : World) → OnOk made (view t change ≡ w) →
        Prepares (Done content w) t result }
{
    match made {
        Ok(()) => Ok(Prepared { content, change }),
        Err(_) => {
            drop(content);
            drop(change);
            Err(Refusal::Memory)
        }
    }
}
