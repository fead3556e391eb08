//! Members of documents, and the values of each kind.

ghost use Rattle.std.specs.Prelude.{◌≡◌, Option, option_map, false};
ghost use Rattle.serde_json.specs.View.{view, items_view};
ghost use Rattle.ns_json.specs.Reading.{Gives, same, present, demanded, an_object, a_flag, a_number, a_text, a_name, an_id, a_list, or_else, top, json_in};
ghost use Rattle.ns_json.specs.Registration.{name_if_any};

use ns_types::id::{IdKind, id_read};
use ns_types::name::{Name, NameKind};
use ns_types::refusal::{Member, Refusal};
use ns_types::text::Text;
use serde_json::Value;
use std::alloc::Global;

/// The JSON value of a body.
#[tactic(auto, unfolding(crate::specs::Reading::json_in))]
pub fn read_json(alloc: Global, body: &[u8]) -> Result<Value, Refusal>
    ensures { Gives view result (json_in body.now) }
{
    match Value::from_slice(alloc, body) {
        Ok(value) => Ok(value),
        Err(e) => {
            if e.is_memory() {
                Err(Refusal::Memory)
            } else {
                Err(Refusal::BadJson)
            }
        }
    }
}

/// The member, if it is present and not null.
#[tactic(auto, unfolding(crate::specs::Reading::present))]
pub fn present(object: &Value, member: Member) -> Option<&Value>
    ensures { option_map (λ v. view v.now) result ≡ present member (view object.now) }
{
    match object.get(member.name()) {
        Some(Value::Null) | None => None,
        Some(value) => Some(value),
    }
}

/// The member, which has to be present and not null.
#[tactic(auto, unfolding(crate::specs::Reading::demanded))]
pub fn demanded(object: &Value, member: Member) -> Result<&Value, Refusal>
    ensures { Gives (λ v. view v.now) result (demanded member (view object.now)) }
{
    present(object, member).ok_or(Refusal::BadField(member))
}

/// The top of a document, which has to be an object.
#[tactic(auto, unfolding(crate::specs::Reading::top))]
pub fn document(value: &Value) -> Result<&Value, Refusal>
    ensures { Gives (λ v. view v.now) result (top (view value.now)) }
{
    if value.is_object() {
        Ok(value)
    } else {
        Err(Refusal::BadJson)
    }
}

/// The value, which has to be an object.
#[tactic(auto, unfolding(crate::specs::Reading::an_object))]
pub fn object(value: &Value, member: Member) -> Result<&Value, Refusal>
    ensures { Gives (λ v. view v.now) result (an_object member (view value.now)) }
{
    if value.is_object() {
        Ok(value)
    } else {
        Err(Refusal::BadField(member))
    }
}

/// The value, which has to be `true` or `false`.
#[tactic(auto, unfolding(crate::specs::Reading::a_flag))]
pub fn flag(value: &Value, member: Member) -> Result<bool, Refusal>
    ensures { Gives same result (a_flag member (view value.now)) }
{
    value.as_bool().ok_or(Refusal::BadField(member))
}

/// The value, which has to be a whole number from `low` to `high`.
#[tactic(auto, unfolding(crate::specs::Reading::a_number))]
pub fn number(value: &Value, member: Member, low: u64, high: u64) -> Result<u64, Refusal>
    ensures { Gives same result (a_number member low high (view value.now)) }
{
    match value.as_u64() {
        Some(n) if low <= n && n <= high => Ok(n),
        _ => Err(Refusal::BadField(member)),
    }
}

/// The most bytes of a text.
pub const MAX_TEXT: usize = 256;

/// The most that a task may ask for of a resource, or a node may have of it.
pub const MAX_QUANTITY: u64 = 2_147_483_647;

/// The value, which has to be a text of at most 256 bytes.
#[tactic(auto, unfolding(crate::specs::Reading::a_text))]
pub fn text(value: &Value, member: Member) -> Result<&str, Refusal>
    ensures { Gives (λ s. s.now) result (a_text member (view value.now)) }
{
    match value.as_str() {
        Some(text) if text.len() <= MAX_TEXT => Ok(text),
        _ => Err(Refusal::BadField(member)),
    }
}

/// The value, which has to be a name of that kind.
#[tactic(auto, unfolding(crate::specs::Reading::a_name))]
pub fn name(alloc: Global, value: &Value, member: Member, kind: NameKind) -> Result<Text, Refusal>
    ensures { Gives same result (a_name member kind (view value.now)) }
{
    let text = value.as_str().ok_or(Refusal::BadField(member))?;
    let name = Name::read(kind, text).ok_or(Refusal::BadField(member))?;
    Ok(Text::from_str(alloc, name.as_str())?)
}

/// The number of the value, which has to be an id of that kind.
#[tactic(auto, unfolding(crate::specs::Reading::an_id))]
pub fn id(value: &Value, member: Member, kind: IdKind) -> Result<u64, Refusal>
    ensures { Gives same result (an_id member kind (view value.now)) }
{
    let text = value.as_str().ok_or(Refusal::BadField(member))?;
    match id_read(kind, text) {
        Some(number) => Ok(number),
        None => Err(Refusal::BadField(member)),
    }
}

/// The value, which has to be a list of `low` to `high` items.
#[tactic(auto, using(crate::proofs::Items::counts), unfolding(crate::specs::Reading::a_list))]
pub fn list(value: &Value, member: Member, low: usize, high: usize) -> Result<&[Value], Refusal>
    ensures { Gives (λ s. items_view s.now) result (a_list member low high (view value.now)) }
{
    match value.as_array() {
        Some(list) if low <= list.len() && list.len() <= high => Ok(list.as_slice()),
        _ => Err(Refusal::BadField(member)),
    }
}

/// The member, which has to be a whole number from `low` to `high`, or `default` if it is absent or null.
pub fn number_or(
    object: &Value,
    member: Member,
    low: u64,
    high: u64,
    default: u64,
) -> Result<u64, Refusal>
    ensures { Gives same result
        (or_else default (a_number member low high) (present member (view object.now))) }
{
    match present(object, member) {
        None => Ok(default),
        Some(value) => number(value, member, low, high),
    }
}

/// Whether the flag is set. One that is absent or null is not.
pub fn flag_or_false(object: &Value, member: Member) -> Result<bool, Refusal>
    ensures { Gives same result
        (or_else false (a_flag member) (present member (view object.now))) }
{
    match present(object, member) {
        None => Ok(false),
        Some(value) => flag(value, member),
    }
}

/// The value, which has to be a name of that kind; an empty text counts as absent.
#[tactic(auto, unfolding(crate::specs::Registration::name_if_any))]
pub fn name_if_any(
    alloc: Global,
    value: &Value,
    member: Member,
    kind: NameKind,
) -> Result<Option<Text>, Refusal>
    ensures { Gives same result (name_if_any member kind (view value.now)) }
{
    if text(value, member)?.is_empty() {
        return Ok(None);
    }
    let name = name(alloc, value, member, kind)?;
    Ok(Some(name))
}
