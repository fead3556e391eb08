//! Which names are chosen.

ghost use Rattle.std.specs.Prelude.{◌≡◌};
ghost use Rattle.ns_copies.specs.Chosen.{is_chosen};

use ns_equality::has_name;
use ns_types::text::{Text, same_text};

/// Names whose rows are copied.
#[derive(Clone, Copy)]
pub(crate) enum ChosenNames<'a> {
    All,
    /// That name alone.
    Only(&'a Text),
    /// The names of the list.
    Among(&'a [Text]),
}

impl ChosenNames<'_> {
    /// Whether the name is one of them.
    pub(crate) fn has(self, name: &Text) -> bool
        ensures { result ≡ is_chosen self.entry name.now }
    {
        match self {
            ChosenNames::All => true,
            ChosenNames::Only(one) => same_text(one, name),
            ChosenNames::Among(names) => has_name(names, name),
        }
    }
}
