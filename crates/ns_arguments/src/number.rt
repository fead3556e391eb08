//! Numbers within bounds.

ghost use Rattle.std.specs.Prelude.{◌≡◌, option_map};
ghost use Rattle.ns_arguments.specs.Values.{number_between, number_by};

use ns_request::number_of;

/// The number that the text writes, if it lies between `first` and `last`.
pub(crate) fn number_between(first: u64, last: u64, text: &str) -> Option<u64>
    ensures { result ≡ number_between first last text.now }
{
    number_of(text).filter(|number| first <= *number && *number <= last)
}

/// The number that the given text writes, if it lies between `first` and `last`; without a text, the default.
pub(crate) fn number_by(default: u64, first: u64, last: u64, given: Option<&str>) -> Option<u64>
    ensures { result ≡ number_by default first last (option_map (λ s. s.now) given.entry) }
{
    match given {
        None => Some(default),
        Some(text) => number_between(first, last, text),
    }
}
