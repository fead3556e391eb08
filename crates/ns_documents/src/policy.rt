//! The document of a policy.

ghost use Rattle.std.specs.Prelude.{IfOk, IfErr, IsTrue};
ghost use Rattle.serde_json.specs.View.{view};
ghost use Rattle.ns_types.specs.State.Limits.{is_good_policy};
ghost use Rattle.ns_json.specs.Reading.{Gives, same, body_in, IsOfDocument};
ghost use Rattle.ns_policy.specs.Json.{rules_of};
ghost use Rattle.ns_documents.specs.Access.{rules_text_in, or_bad_rules, policy_in};

use crate::members::description;
use ns_json::member::{demanded, document, read_json};
use ns_policy::{RuleFault, read_rules};
use ns_types::acl::{Policy, Rule};
use ns_types::refusal::{Member, Refusal};
use ns_types::rows::Rows;
use ns_types::text::Text;
use serde_json::Value;
use std::alloc::Global;

const MAX_RULES: usize = 65_536;

#[tactic(auto, unfolding(crate::specs::Access::rules_text_in))]
fn rules_text(value: &Value) -> Result<&str, Refusal>
    ensures { Gives (λ s. s.now) result (rules_text_in (view value.now)) }
{
    match value.as_str() {
        Some(text) if text.len() <= MAX_RULES => Ok(text),
        _ => Err(Refusal::BadField(Member::Rules)),
    }
}

fn rules(alloc: Global, text: &str) -> Result<Rows<Rule>, Refusal>
    ensures { Gives same result (or_bad_rules (rules_of text.now)) }
{
    match read_rules(alloc, text) {
        Ok(rules) => Ok(rules),
        Err(RuleFault::Memory) => Err(Refusal::Memory),
        Err(RuleFault::Syntax | RuleFault::Value) => Err(Refusal::BadField(Member::Rules)),
    }
}

#[tactic(auto, unfolding(crate::specs::Access::policy_in))]
fn policy(alloc: Global, value: &Value) -> Result<Policy, Refusal>
    ensures { Gives same result (policy_in (view value.now)) }
{
    let top = document(value)?;
    let description = description(alloc, top)?;
    let text = rules_text(demanded(top, Member::Rules)?)?;
    let rules = rules(alloc, text)?;
    Ok(Policy {
        description,
        text: Text::from_str(alloc, text)?,
        rules,
    })
}

/// The policy that the body describes, with the rules of its text, or the first refusal.
#[tactic(auto, unfolding(ns_json::specs::Reading::body_in))]
pub fn read_policy(alloc: Global, body: &[u8]) -> Result<Policy, Refusal>
    ensures value { Gives same result (body_in policy_in body.now) }
    // What is read is within the limits.
    ensures good { IfOk result (λ p. IsTrue (is_good_policy p)) }
    // What the refusal can be.
    ensures kinds { IfErr result IsOfDocument }
{
    policy(alloc, &read_json(alloc, body)?)
}
