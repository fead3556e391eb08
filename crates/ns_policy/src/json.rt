//! The JSON form of rules.

ghost use Rattle.std.specs.Prelude.{◌≡◌, option_map};
ghost use Rattle.serde_json.specs.View.{view, items_view, members_view};
ghost use Rattle.ns_policy.specs.Rules.{Gives, same};
ghost use Rattle.serde_json.specs.Find.{as_array};
ghost use Rattle.ns_policy.specs.Json.{or_value, present, policy_in, capabilities_in, each_capability, one_capability, json_form, rule_in, with_rule, each_rule, kind_rules, member_name, json_rules, json_text};

use crate::fault::RuleFault;
use crate::rule::{one_more, read_pattern, with_capability, with_policy};
use ns_types::acl::{Grants, NO_GRANTS, Rule, RuleKind};
use ns_types::rows::Rows;
use serde_json::{Map, Value};
use std::alloc::Global;

/// The member, if it is present and not null.
#[tactic(auto, unfolding(crate::specs::Json::present))]
fn present<'v>(object: &'v Value, name: &str) -> Option<&'v Value>
    ensures { option_map (λ v. view v.now) result ≡ present name.now (view object.now) }
{
    match object.get(name) {
        Some(Value::Null) | None => None,
        Some(value) => Some(value),
    }
}

#[tactic(auto, unfolding(crate::specs::Json::policy_in))]
fn policy_of(kind: RuleKind, rule: &Value) -> Result<Grants, RuleFault>
    ensures { Gives same result (policy_in kind (view rule.now)) }
{
    match present(rule, "policy") {
        None => Ok(NO_GRANTS),
        Some(value) => {
            let word = value.as_str().ok_or(RuleFault::Value)?;
            with_policy(kind, NO_GRANTS, word.as_bytes())
        }
    }
}

#[tactic(auto, unfolding(crate::specs::Json::capabilities_in))]
fn with_capabilities(kind: RuleKind, grants: Grants, rule: &Value) -> Result<Grants, RuleFault>
    ensures { Gives same result (capabilities_in kind grants (view rule.now)) }
{
    match present(rule, "capabilities") {
        None => Ok(grants),
        Some(value) => {
            let list = list_of(value)?;
            with_each(kind, grants, list)
        }
    }
}

fn list_of(value: &Value) -> Result<&[Value], RuleFault>
    ensures { Gives (λ s. items_view s.now) result (or_value (as_array (view value.now))) }
{
    match value.as_array() {
        Some(list) => Ok(list.as_slice()),
        None => Err(RuleFault::Value),
    }
}

fn with_each(kind: RuleKind, grants: Grants, values: &[Value]) -> Result<Grants, RuleFault>
    ensures { Gives same result (each_capability kind grants (items_view values.now)) }
{
    let mut all = grants;
    for value in values {
        all = with_one(kind, all, value)?;
    }
    Ok(all)
}

fn with_one(kind: RuleKind, grants: Grants, value: &Value) -> Result<Grants, RuleFault>
    ensures { Gives same result (one_capability kind grants (view value.now)) }
{
    let word = value.as_str().ok_or(RuleFault::Value)?;
    with_capability(kind, grants, word.as_bytes())
}

#[tactic(auto, unfolding(crate::specs::Json::rule_in))]
fn rule_of(alloc: Global, kind: RuleKind, label: &str, value: &Value) -> Result<Rule, RuleFault>
    ensures { Gives same result (rule_in kind label.now (view value.now)) }
{
    let pattern = read_pattern(alloc, kind, label.as_bytes())?;
    if !value.is_object() {
        return Err(RuleFault::Value);
    }
    let grants = policy_of(kind, value)?;
    let grants = with_capabilities(kind, grants, value)?;
    Ok(Rule {
        kind,
        pattern,
        grants,
    })
}

/// The rules with the one of this pattern added, unless its value is null.
#[tactic(auto, unfolding(crate::specs::Json::with_rule))]
fn add_rule(
    alloc: Global,
    rules: Rows<Rule>,
    kind: RuleKind,
    label: &str,
    value: &Value,
) -> Result<Rows<Rule>, RuleFault>
    ensures { Gives same result (with_rule kind rules label.now (view value.now)) }
{
    if value.is_null() {
        return Ok(rules);
    }
    match rule_of(alloc, kind, label, value) {
        Ok(rule) => one_more(rules, rule),
        Err(fault) => {
            drop(rules);
            Err(fault)
        }
    }
}

fn add_rules(
    alloc: Global,
    rules: Rows<Rule>,
    kind: RuleKind,
    members: &Map<String, Value>,
) -> Result<Rows<Rule>, RuleFault>
    ensures { Gives same result (each_rule kind rules (members_view members.now.entries)) }
{
    let mut all = rules;
    for (label, value) in members.iter() {
        all = add_rule(alloc, all, kind, label.as_str(), value)?;
    }
    Ok(all)
}

#[tactic(auto, unfolding(crate::specs::Json::kind_rules))]
fn add_kind(
    alloc: Global,
    rules: Rows<Rule>,
    kind: RuleKind,
    text: &Value,
) -> Result<Rows<Rule>, RuleFault>
    ensures { Gives same result (kind_rules kind rules (view text.now)) }
{
    match present(text, name_of(kind)) {
        None => Ok(rules),
        Some(value) => match value.as_object() {
            Some(members) => add_rules(alloc, rules, kind, members),
            None => {
                drop(rules);
                Err(RuleFault::Value)
            }
        },
    }
}

fn name_of(kind: RuleKind) -> &'static str
    ensures { result.now ≡ member_name kind }
{
    match kind {
        RuleKind::Namespace => "namespace",
        RuleKind::Pool => "node_pool",
    }
}

#[tactic(auto, unfolding(crate::specs::Json::json_rules))]
fn rules_in(alloc: Global, text: &Value) -> Result<Rows<Rule>, RuleFault>
    ensures { Gives same result (json_rules (view text.now)) }
{
    let rules = add_kind(alloc, Rows::new(alloc), RuleKind::Namespace, text)?;
    add_kind(alloc, rules, RuleKind::Pool, text)
}

#[tactic(auto, unfolding(crate::specs::Json::json_text))]
fn value_of(alloc: Global, text: &str) -> Result<Value, RuleFault>
    ensures { Gives view result (json_text text.now) }
{
    match Value::from_str(alloc, text) {
        Ok(value) => Ok(value),
        Err(e) => {
            if e.is_memory() {
                Err(RuleFault::Memory)
            } else {
                Err(RuleFault::Syntax)
            }
        }
    }
}

/// The rules of a text in the JSON form, or the first fault.
pub fn read_json(alloc: Global, text: &str) -> Result<Rows<Rule>, RuleFault>
    ensures { Gives same result (json_form text.now) }
{
    let value = value_of(alloc, text)?;
    rules_in(alloc, &value)
}
