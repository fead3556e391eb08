//! Finds the values of a query's parameters, the first one of each name.

ghost use Rattle.std.specs.Prelude.{◌≡◌, IfOk, OnOk, Some};
ghost use Rattle.std.specs.Option.{option_or};

use form_urlencoded::parse;
use ns_types::text::Text;
use std::alloc::{AllocError, Global};

/// The values of the parameters that the server knows. The first value of each counts.
#[derive(Drop)]
pub struct QueryValues {
    pub namespace: Option<Text>,
    pub filter: Option<Text>,
    pub per_page: Option<Text>,
    pub next_token: Option<Text>,
    pub index: Option<Text>,
    pub prefix: Option<Text>,
    pub purge: Option<Text>,
}

const NO_VALUES: QueryValues = QueryValues {
    namespace: None,
    filter: None,
    per_page: None,
    next_token: None,
    index: None,
    prefix: None,
    purge: None,
};

/// Keeps the value, if there is none yet. Want of memory is the only error.
fn keep_first(alloc: Global, kept: &mut Option<Text>, value: &str) -> Result<(), AllocError>
    ensures { OnOk result (kept.new ≡ option_or kept.old (Some value.now)) }
{
    if kept.is_none() {
        *kept = Some(Text::from_str(alloc, value)?);
    }
    Ok(())
}

impl QueryValues {
    ghost use Rattle.ns_request.specs.Values.{no_values, or_no_values, values_of, values_with};

    /// Keeps the value of a parameter that the server knows, if it has none yet. Want of memory is the only error.
    fn keep(&mut self, alloc: Global, name: &str, value: &str) -> Result<(), AllocError>
        ensures { OnOk result (self.new ≡ values_with name.now value.now self.old) }
    {
        match name {
            "namespace" => keep_first(alloc, &mut self.namespace, value),
            "filter" => keep_first(alloc, &mut self.filter, value),
            "per_page" => keep_first(alloc, &mut self.per_page, value),
            "next_token" => keep_first(alloc, &mut self.next_token, value),
            "index" => keep_first(alloc, &mut self.index, value),
            "prefix" => keep_first(alloc, &mut self.prefix, value),
            "purge" => keep_first(alloc, &mut self.purge, value),
            _ => Ok(()),
        }
    }

    /// Keeps the values of the query; no value is kept yet. Want of memory is the only error.
    fn keep_all(&mut self, alloc: Global, text: &str) -> Result<(), AllocError>
        requires { self.old ≡ no_values }
        ensures { OnOk result (self.new ≡ values_of text.now) }
    {
        for pair in parse(alloc, text.as_bytes()) {
            let (name, value) = pair?;
            self.keep(alloc, name.as_str(), value.as_str())?;
        }
        Ok(())
    }

    /// Reads the values of the query, none if it is empty. Want of memory is the only error.
    pub fn read(alloc: Global, text: &str) -> Result<Option<Box<QueryValues>>, AllocError>
        ensures { IfOk result (λ values. or_no_values values ≡ values_of text.now) }
    {
        if text.is_empty() {
            return Ok(None);
        }
        let mut values = Box::new(alloc, NO_VALUES)?;
        match values.keep_all(alloc, text) {
            Ok(()) => Ok(Some(values)),
            Err(error) => {
                drop(values);
                Err(error)
            }
        }
    }
}
