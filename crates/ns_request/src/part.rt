//! The parts that a path names: names, ids and accessors.

ghost use Rattle.std.specs.Prelude.{◌≡◌};
ghost use Rattle.ns_request.specs.Parts.{is_good};

use ns_types::id::{IdKind, id_read};
use ns_types::name::{Name, NameKind};
use uuid::Uuid;

/// The kind of a part of a path.
#[derive(Clone, Copy)]
pub enum PathPart {
    Name(NameKind),
    Id(IdKind),
    /// The accessor of a token.
    Accessor,
}

impl PathPart {
    /// Whether the text follows the rule of the part.
    #[tactic(auto, unfolding(crate::specs::Parts::is_good))]
    pub fn is_good(self, text: &str) -> bool
        ensures { result ≡ is_good self text.now }
    {
        match self {
            PathPart::Name(kind) => Name::read(kind, text).is_some(),
            PathPart::Id(kind) => matches!(id_read(kind, text), Some(_)),
            PathPart::Accessor => Uuid::parse_str(text).is_ok(),
        }
    }
}
