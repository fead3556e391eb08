//! Reads the rules of a policy's text, in both its forms.
#![tactic(auto)]

mod fault;
mod json;
pub mod laws;
mod lex;
mod parser;
mod rule;

ghost use Rattle.ns_policy.specs.Reading.{Reads};
ghost use Rattle.ns_policy.specs.Rules.{Gives, same};
ghost use Rattle.ns_policy.specs.Json.{rules_of};

pub use fault::RuleFault;
use ns_types::acl::Rule;
use ns_types::rows::Rows;
use std::alloc::Global;

/// The rules of a text, which is JSON or a list of blocks, in their order there; or the first fault.
pub fn read_rules(alloc: Global, text: &str) -> Result<Rows<Rule>, RuleFault>
    ensures value { Gives same result (rules_of text.now) }
    ensures meaning { Reads result text.now }
{
    if lex::is_json(text.as_bytes()) {
        json::read_json(alloc, text)
    } else {
        parser::read_blocks(alloc, text.as_bytes())
    }
}
