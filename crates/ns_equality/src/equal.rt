//! The test whether two values are the same, and the values that have no parts.

ghost use Rattle.std.specs.Prelude.{◌≡◌, ◌↔◌, IsTrue};

mod commands;
mod documents;
mod lists;
mod parts;
mod policies;
mod rows;
mod snapshots;
mod steps;

use ns_types::body::Body;
use ns_types::text::{Text, same_text};

/// Values that a program can compare as contracts do: equal if contracts see the same value. The test takes no memory.
pub trait Equal {
    /// Whether both are the same value.
    fn equal(&self, other: &Self) -> bool
        ensures { IsTrue result ↔ (self.now ≡ other.now) };
}

impl Equal for u64 {
    fn equal(&self, other: &u64) -> bool {
        *self == *other
    }
}

impl Equal for bool {
    fn equal(&self, other: &bool) -> bool {
        if *self { *other } else { !*other }
    }
}

impl Equal for Body {
    fn equal(&self, other: &Body) -> bool {
        self.as_str() == other.as_str()
    }
}

impl Equal for Text {
    fn equal(&self, other: &Text) -> bool {
        same_text(self, other)
    }
}
