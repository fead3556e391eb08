//! Which classes a blocked evaluation can use.

ghost use Rattle.std.specs.Prelude.{◌≡◌, option_copied};
ghost use Rattle.ns_blocked.specs.Waking.{can_use, can_use_any, is_usable};

use crate::entry::BlockedEvaluation;
use ns_equality::may_use;
use ns_types::node::Class;

fn can_use(entry: &BlockedEvaluation, class: &Class) -> bool
    ensures { result ≡ can_use entry.now class.now }
{
    may_use(entry.escapes, entry.infeasible.as_slice(), class)
}

fn can_use_any(entry: &BlockedEvaluation, classes: &[Class]) -> bool
    ensures { result ≡ can_use_any classes.now entry.now }
{
    classes.iter().any(|class| can_use(entry, class))
}

/// Whether an entry is there that can use room on a node of one of these classes.
pub(crate) fn is_usable(entry: Option<&BlockedEvaluation>, classes: &[Class]) -> bool
    ensures { result ≡ is_usable classes.now (option_copied entry.entry) }
{
    match entry {
        Some(entry) => can_use_any(entry, classes),
        None => false,
    }
}
