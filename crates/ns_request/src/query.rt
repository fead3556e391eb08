//! The parameters of a query.

ghost use Rattle.std.specs.Prelude.{◌≡◌, IfOk, None, Some, false, if◌then◌else◌};
ghost use Rattle.std.specs.Char.{is_ascii_digit};
ghost use Rattle.std.specs.List.{list_all};
ghost use Rattle.std.specs.Option.{option_copied, option_map_or};
ghost use Rattle.std.specs.Str.Parse.{digits_value};
ghost use Rattle.ns_json.specs.Reading.{same};
ghost use Rattle.ns_request.specs.Gives.{Gives};
ghost use Rattle.ns_request.specs.Queries.{index_in, is_awaited, is_not_empty, is_number, is_star, is_unserved, namespace_in, prefix_of, purge_in};

use crate::endpoint::Endpoint;
use crate::method::Method;
use crate::parameters::QueryValues;
use ns_types::name::{Name, NameKind};
use ns_types::refusal::{Member, Refusal};
use ns_types::text::Text;
use std::alloc::{AllocError, Global};
use std::marker::Model;

/// The parameters of a query, read once. Contracts see the query.
pub struct Query<'a> {
    text: &'a str,
    /// The values, or none if no parameter was given. They are behind a pointer, since most requests have no query, and the
    /// query is moved along with its request.
    values: Option<Box<QueryValues>>,
}

impl<'a> Drop for Query<'a> {
    fn drop(self) {
        let Query {
            text: _,
            values: _values,
        } = self;
    }
}

impl<'a> Model for Query<'a> {
    ghost use Rattle.std.specs.Prelude.{List, ℕ};

    ghost Value = { List ℕ };

    ghost use Rattle.std.specs.Prelude.{◌≡◌};
    ghost use Rattle.ns_request.specs.Values.{or_no_values, values_of};

    ghost view = { λ query. query.text.now };

    ghost invariant = { λ query. or_no_values query.values ≡ values_of query.text.now };
}

/// Whether the value asks for all namespaces at once.
fn is_star(value: Option<&Text>) -> bool
    ensures { result ≡ option_map_or is_star (option_copied value.entry) false }
{
    match value {
        Some(value) => value.as_str() == "*",
        None => false,
    }
}

/// Whether the value is there and not empty.
fn is_given(value: Option<&Text>) -> bool
    ensures { result ≡ option_map_or is_not_empty (option_copied value.entry) false }
{
    match value {
        Some(value) => !value.as_str().is_empty(),
        None => false,
    }
}

/// Whether the value is an index to wait for: neither empty nor `0`.
fn is_awaited(value: Option<&Text>) -> bool
    ensures { result ≡ option_map_or is_awaited (option_copied value.entry) false }
{
    match value {
        Some(value) => !value.as_str().is_empty() && value.as_str() != "0",
        None => false,
    }
}

fn has_digits_alone(text: &str) -> bool
    ensures { result ≡ list_all is_ascii_digit text.now }
{
    text.as_bytes().iter().all(|b| b.is_ascii_digit())
}

/// The number below 2^64 that the text writes in decimal digits, or none. A text with a sign is none here; `parse` would take
/// it.
pub fn number_of(text: &str) -> Option<u64>
    ensures { result ≡ (if is_number text.now then Some (digits_value 10 text.now) else None) }
{
    if !has_digits_alone(text) {
        return None;
    }
    text.parse().ok()
}

impl<'a> Query<'a> {
    /// Reads the parameters of the query. Want of memory is the only error.
    pub fn read(alloc: Global, text: &'a str) -> Result<Query<'a>, AllocError>
        ensures { IfOk result (λ query. query ≡ text.now) }
    {
        let values = QueryValues::read(alloc, text)?;
        Ok(Query { text, values })
    }

    /// Whether the query asks for something that no path serves.
    #[tactic(auto, unfolding(crate::specs::Queries::is_unserved))]
    pub fn is_unserved(&self, endpoint: Endpoint, method: Option<Method>) -> bool
        ensures { result ≡ is_unserved endpoint method self.now }
    {
        let Some(values) = &self.values else {
            return false;
        };
        if is_star(values.namespace.as_ref())
            || is_given(values.filter.as_ref())
            || is_given(values.per_page.as_ref())
            || is_given(values.next_token.as_ref())
        {
            return true;
        }
        match (method, endpoint) {
            (Some(Method::Get), Endpoint::EventStream) => false,
            (Some(Method::Get), _) => is_awaited(values.index.as_ref()),
            _ => false,
        }
    }

    /// The namespace that the query names, or none. The errors are a name that breaks the rule for names, and want of memory.
    #[tactic(auto, unfolding(crate::specs::Queries::namespace_in))]
    pub fn namespace(&self, alloc: Global) -> Result<Option<Text>, Refusal>
        ensures { Gives same result (namespace_in self.now) }
    {
        let Some(values) = &self.values else {
            return Ok(None);
        };
        let Some(value) = &values.namespace else {
            return Ok(None);
        };
        let text = value.as_str();
        if text.is_empty() {
            return Ok(None);
        }
        match Name::read(NameKind::Namespace, text) {
            Some(name) => Ok(Some(Text::from_str(alloc, name.as_str())?)),
            None => Err(Refusal::BadField(Member::NamespaceParameter)),
        }
    }

    /// The text with which the ids of a list begin, empty without the parameter.
    pub fn prefix(&self) -> &str
        ensures { result.now ≡ prefix_of self.now }
    {
        let Some(values) = &self.values else {
            return "";
        };
        match &values.prefix {
            Some(value) => value.as_str(),
            None => "",
        }
    }

    /// Whether the deregistered job is purged. The only error is a value that says neither yes nor no.
    #[tactic(auto, unfolding(crate::specs::Queries::purge_in))]
    pub fn purge(&self) -> Result<bool, Refusal>
        ensures { Gives same result (purge_in self.now) }
    {
        let Some(values) = &self.values else {
            return Ok(false);
        };
        let Some(value) = &values.purge else {
            return Ok(false);
        };
        let text = value.as_str();
        if text == "true" || text == "1" {
            return Ok(true);
        }
        if text.is_empty() || text == "false" || text == "0" {
            return Ok(false);
        }
        Err(Refusal::BadField(Member::Purge))
    }

    /// The index from which events are requested, 0 by default. The only error is a value that is not a number.
    #[tactic(auto, unfolding(crate::specs::Queries::index_in))]
    pub fn index(&self) -> Result<u64, Refusal>
        ensures { Gives same result (index_in self.now) }
    {
        let Some(values) = &self.values else {
            return Ok(0);
        };
        let Some(value) = &values.index else {
            return Ok(0);
        };
        match number_of(value.as_str()) {
            Some(index) => Ok(index),
            None => Err(Refusal::BadField(Member::Index)),
        }
    }
}
