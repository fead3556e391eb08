//! Reads members that several administrators' documents have.

ghost use Rattle.std.specs.Prelude.{◌≡◌, [], option_copied};
ghost use Rattle.serde_json.specs.View.{view, items_view};
ghost use Rattle.ns_json.specs.Reading.{Gives, same, present, or_else, a_text, each, has_name};
ghost use Rattle.ns_documents.specs.Members.{repeated, named, word_in, description_in};
ghost use Rattle.ns_documents.specs.Members.{listed_name, names_in};

use ns_json::member;
use ns_json::member::{demanded, list, present, text};
use ns_types::name::NameKind;
use ns_types::refusal::{Member, Refusal};
use ns_types::rows::Rows;
use ns_types::text::Text;
use serde_json::Value;
use std::alloc::Global;

/// The path's name, which the document's name has to repeat.
#[tactic(auto, unfolding(crate::specs::Members::repeated))]
fn repeated(alloc: Global, path_name: &Text, value: &Value) -> Result<Text, Refusal>
    ensures { Gives same result (repeated path_name.now (view value.now)) }
{
    let name = value.as_str().ok_or(Refusal::BadField(Member::Name))?;
    if name != path_name.as_str() {
        return Err(Refusal::BadField(Member::Name));
    }
    Ok(Text::from_str(alloc, name)?)
}

/// The name of the row to write: the path's, which the document may repeat, or the document's if the path has none.
#[tactic(auto, unfolding(crate::specs::Members::named))]
pub fn named(
    alloc: Global,
    kind: NameKind,
    path_name: Option<&Text>,
    object: &Value,
) -> Result<Text, Refusal>
    ensures { Gives same result (named kind (option_copied path_name.entry) (view object.now)) }
{
    let Some(path_name) = path_name else {
        return member::name(alloc, demanded(object, Member::Name)?, Member::Name, kind);
    };
    match present(object, Member::Name) {
        None => Ok(path_name.clone()?),
        Some(value) => repeated(alloc, path_name, value),
    }
}

/// The member, which has to be a text, or an empty text if it is absent or null.
pub fn text_or_empty(alloc: Global, object: &Value, member: Member) -> Result<Text, Refusal>
    ensures { Gives same result
        (or_else [] (a_text member) (present member (view object.now))) }
{
    match present(object, member) {
        None => Ok(Text::from_str(alloc, "")?),
        Some(value) => Ok(Text::from_str(alloc, text(value, member)?)?),
    }
}

/// The member, which has to be present and a text.
#[tactic(auto, unfolding(crate::specs::Members::word_in))]
pub fn word(object: &Value, member: Member) -> Result<&str, Refusal>
    ensures { Gives (λ s. s.now) result (word_in member (view object.now)) }
{
    text(demanded(object, member)?, member)
}

/// The description, or an empty text.
#[tactic(auto, unfolding(crate::specs::Members::description_in))]
pub fn description(alloc: Global, object: &Value) -> Result<Text, Refusal>
    ensures { Gives same result (description_in (view object.now)) }
{
    text_or_empty(alloc, object, Member::Description)
}

/// Whether the name is among `names`.
pub fn has_name(names: &[Text], name: &str) -> bool
    ensures { result ≡ has_name same names.now name.now }
{
    names.iter().any(|other| other.as_str() == name)
}

/// A name of a list, which must not be among the names before it.
#[tactic(auto, unfolding(crate::specs::Members::listed_name))]
fn listed_name(
    alloc: Global,
    member: Member,
    kind: NameKind,
    before: &[Text],
    value: &Value,
) -> Result<Text, Refusal>
    ensures { Gives same result (listed_name member kind before.now (view value.now)) }
{
    let name = member::name(alloc, value, member, kind)?;
    if has_name(before, name.as_str()) {
        return Err(Refusal::BadField(member));
    }
    Ok(name)
}

fn each_name(
    alloc: Global,
    member: Member,
    kind: NameKind,
    values: &[Value],
) -> Result<Rows<Text>, Refusal>
    ensures { Gives same result (each (listed_name member kind) [] (items_view values.now)) }
{
    let mut names = Rows::new(alloc);
    for value in values {
        let name = listed_name(alloc, member, kind, names.as_slice(), value)?;
        names.push(name)?;
    }
    Ok(names)
}

/// The value, which has to be a list of at most `most` names, none of them twice.
#[tactic(auto, unfolding(crate::specs::Members::names_in))]
pub fn names(
    alloc: Global,
    value: &Value,
    member: Member,
    kind: NameKind,
    most: usize,
) -> Result<Rows<Text>, Refusal>
    ensures { Gives same result (names_in member kind most (view value.now)) }
{
    each_name(alloc, member, kind, list(value, member, 0, most)?)
}
