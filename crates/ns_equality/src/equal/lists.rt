//! Values that hold others.

ghost use Rattle.std.specs.Prelude.{◌≡◌, ◌↔◌, IsTrue};

use crate::equal::Equal;
use ns_types::rows::Rows;
use ns_types::shared::Shared;

impl<T: Equal> Equal for Option<T> {
    fn equal(&self, other: &Option<T>) -> bool {
        match (self, other) {
            (None, None) => true,
            (Some(a), Some(b)) => a.equal(b),
            _ => false,
        }
    }
}

/// Whether the lists have the same length, and the same value at each place.
pub(crate) fn same_list<T: Equal>(a: &[T], b: &[T]) -> bool
    ensures { IsTrue result ↔ (a.now ≡ b.now) }
{
    if a.len() != b.len() {
        return false;
    }
    for (x, y) in a.iter().zip(b) {
        if !x.equal(y) {
            return false;
        }
    }
    true
}

impl<T: Equal> Equal for Rows<T> {
    fn equal(&self, other: &Rows<T>) -> bool {
        same_list(self.as_slice(), other.as_slice())
    }
}

impl<T: Equal + Drop> Equal for Shared<T> {
    fn equal(&self, other: &Shared<T>) -> bool {
        self.get().equal(other.get())
    }
}
