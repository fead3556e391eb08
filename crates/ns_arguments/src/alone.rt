//! Reads the values of the arguments of `alone`. None: the value is not allowed.

ghost use Rattle.std.specs.Prelude.{◌≡◌, IfOk, map, option_map};
ghost use Rattle.ns_arguments.specs.Values.{count_by, names_by};

use crate::number::number_by;
use ns_types::name::{Name, NameKind};
use ns_types::rows::Rows;
use ns_types::text::Text;
use std::alloc::{AllocError, Global};

/// The number of entries at the front of the log that set up the server: 0 by default.
pub fn count(given: Option<&str>) -> Option<u64>
    ensures { result ≡ count_by (option_map (λ s. s.now) given.entry) }
{
    number_by(0, 0, u64::MAX, given)
}

/// The given texts as names of that kind. Want of memory is the only error.
pub fn names(
    alloc: Global,
    kind: NameKind,
    given: &[&str],
) -> Result<Option<Rows<Text>>, AllocError>
    ensures { IfOk result (λ names. names ≡ names_by kind (map (λ s. s.now) given.entry.now)) }
{
    let mut names = Rows::new(alloc);
    for text in given {
        let Some(name) = Name::read(kind, text) else {
            return Ok(None);
        };
        names.push(Text::from_str(alloc, name.as_str())?)?;
    }
    Ok(Some(names))
}
