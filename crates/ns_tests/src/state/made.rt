// Values that tests are made of. A test ends where memory is missing.
ghost use Rattle.std.specs.Prelude.{◌≡◌, ◌∷◌, [], IsTrue};
ghost use Rattle.ns_types.specs.State.Name.{is_name};

use ns_types::name::{Name, NameKind};
use ns_types::resources::Resources;
use ns_types::rows::Rows;
use ns_types::text::Text;
use std::alloc::Global;
use std::process::Abort;

pub(crate) fn text(rt: &impl Abort, alloc: Global, word: &str) -> Text
    ensures { result ≡ word.now }
{
    Text::from_str(alloc, word).expect(rt, "memory")
}

pub(crate) fn copied(rt: &impl Abort, text: &Text) -> Text
    ensures { result ≡ text.now }
{
    text.clone().expect(rt, "memory")
}

/// The number's digits.
pub(crate) fn digits(rt: &impl Abort, alloc: Global, number: u64) -> Text {
    Text::from_string(format!(in alloc; "{number}").expect(rt, "memory"))
}

/// The digits of the number, as a name of that kind.
pub(crate) fn numbered(rt: &impl Abort, alloc: Global, kind: NameKind, number: u64) -> Text
    ensures { IsTrue (is_name kind result) }
{
    let digits = digits(rt, alloc, number);
    let name = Name::read(kind, digits.as_str()).expect(rt, "a name");
    text(rt, alloc, name.as_str())
}

/// A list of one row.
pub(crate) fn only<T: Drop>(rt: &impl Abort, alloc: Global, row: T) -> Rows<T>
    ensures { result ≡ row ∷ [] }
{
    let mut rows = Rows::new(alloc);
    rows.push(row).expect(rt, "memory");
    rows
}

/// A list of two rows.
pub(crate) fn both<T: Drop>(rt: &impl Abort, alloc: Global, first: T, second: T) -> Rows<T>
    ensures { result ≡ first ∷ second ∷ [] }
{
    let mut rows = only(rt, alloc, first);
    rows.push(second).expect(rt, "memory");
    rows
}

/// The same amount of each resource.
pub(crate) fn each(amount: u64) -> Resources {
    Resources {
        cpu: amount,
        memory: amount,
        disk: amount,
    }
}
