//! Reads members of an object by their names.

ghost use Rattle.std.specs.Prelude.{◌≡◌, ◌<◌, IfOk, IsTrue};
ghost use Rattle.serde_json.specs.Data.{depth};
ghost use Rattle.serde_json.specs.View.{view};
ghost use Rattle.ns_types.specs.State.Name.{is_name};
ghost use Rattle.ns_log_reader.specs.Lines.{fits, fits_if_any};
ghost use Rattle.ns_log_reader.specs.Reading.{Gives, same, has, member_in, text_in, name_in, number_in, flag_in, text_or_null_in, number_or_null_in};

use crate::fault::LineFault;
use ns_types::body::Body;
use ns_types::name::{Name, NameKind};
use ns_types::text::Text;
use serde_json::Value;
use std::alloc::Global;

/// Whether the object has the member.
pub fn has(object: &Value, name: &str) -> bool
    ensures { result ≡ has name.now (view object.now) }
{
    object.get(name).is_some()
}

/// The member, which is nested less deeply than the object. The line is bad without it.
#[tactic(auto, unfolding(crate::specs::Reading::member_in))]
pub fn member<'v>(object: &'v Value, name: &str) -> Result<&'v Value, LineFault>
    ensures value { Gives (λ v. view v.now) result (member_in name.now (view object.now)) }
    ensures within { IfOk result (λ v. depth (view v.now) < depth (view object.now)) }
{
    match object.get(name) {
        Some(value) => Ok(value),
        None => Err(LineFault::Bad),
    }
}

#[tactic(auto, unfolding(crate::specs::Reading::text_in))]
pub fn word<'v>(object: &'v Value, name: &str) -> Result<&'v str, LineFault>
    ensures { Gives (λ s. s.now) result (text_in name.now (view object.now)) }
{
    member(object, name)?.as_str().ok_or(LineFault::Bad)
}

pub fn text(alloc: Global, object: &Value, name: &str) -> Result<Text, LineFault>
    ensures { Gives same result (text_in name.now (view object.now)) }
{
    Ok(Text::from_str(alloc, word(object, name)?)?)
}

/// Reads the member as the body of an answer.
pub fn body(alloc: Global, object: &Value, name: &str) -> Result<Body, LineFault>
    ensures { Gives same result (text_in name.now (view object.now)) }
{
    Ok(Body::from_str(alloc, word(object, name)?)?)
}

/// Reads the member as a name of that kind.
#[tactic(auto, unfolding(crate::specs::Reading::name_in))]
pub fn name(alloc: Global, object: &Value, member: &str, kind: NameKind) -> Result<Text, LineFault>
    ensures value { Gives same result (name_in kind member.now (view object.now)) }
    ensures named { IfOk result (λ s. IsTrue (is_name kind s)) }
{
    match Name::read(kind, word(object, member)?) {
        Some(name) => Ok(Text::from_str(alloc, name.as_str())?),
        None => Err(LineFault::Bad),
    }
}

#[tactic(auto, unfolding(crate::specs::Reading::number_in))]
pub fn number(object: &Value, name: &str) -> Result<u64, LineFault>
    ensures value { Gives same result (number_in name.now (view object.now)) }
    ensures fits { IfOk result (λ n. IsTrue (fits n)) }
{
    match member(object, name)?.as_u64() {
        Some(number) => Ok(number),
        None => Err(LineFault::Bad),
    }
}

#[tactic(auto, unfolding(crate::specs::Reading::flag_in))]
pub fn flag(object: &Value, name: &str) -> Result<bool, LineFault>
    ensures { Gives same result (flag_in name.now (view object.now)) }
{
    member(object, name)?.as_bool().ok_or(LineFault::Bad)
}

/// Reads the member as a text, or as none where it is null.
#[tactic(auto, unfolding(crate::specs::Reading::text_or_null_in))]
pub fn text_or_null(alloc: Global, object: &Value, name: &str) -> Result<Option<Text>, LineFault>
    ensures { Gives same result (text_or_null_in name.now (view object.now)) }
{
    match member(object, name)? {
        Value::Null => Ok(None),
        value => {
            let text = value.as_str().ok_or(LineFault::Bad)?;
            Ok(Some(Text::from_str(alloc, text)?))
        }
    }
}

/// Reads the member as a number, or as none where it is null.
#[tactic(auto, unfolding(crate::specs::Reading::number_or_null_in))]
pub fn number_or_null(object: &Value, name: &str) -> Result<Option<u64>, LineFault>
    ensures value { Gives same result (number_or_null_in name.now (view object.now)) }
    ensures fits { IfOk result (λ n. IsTrue (fits_if_any n)) }
{
    match member(object, name)? {
        Value::Null => Ok(None),
        value => match value.as_u64() {
            Some(number) => Ok(Some(number)),
            None => Err(LineFault::Bad),
        },
    }
}
