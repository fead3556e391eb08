//! The documents of nodes, and their status and eligibility.

ghost use Rattle.std.specs.Prelude.{[], IfOk, IfErr, IsTrue};
ghost use Rattle.serde_json.specs.View.{view, members_view};
ghost use Rattle.ns_types.specs.State.Limits.{is_good_offer, IsInOrder};
ghost use Rattle.ns_json.specs.Reading.{Gives, same, present, or_else, body_in, IsOfDocument};
ghost use Rattle.ns_documents.specs.Nodes.{AreByKey, with_attribute, each_attribute, attributes_in};
ghost use Rattle.ns_documents.specs.Nodes.{amount_in, node_in, node_status_in, eligibility_in};

use crate::members::{text_or_empty, word};
use ns_json::member::{
    MAX_QUANTITY, MAX_TEXT, demanded, document, number, number_or, present, read_json, text,
};
use ns_types::node::{Attribute, NodeStatus, Offer};
use ns_types::refusal::{Member, Refusal};
use ns_types::resources::Resources;
use ns_types::rows::Rows;
use ns_types::text::Text;
use serde_json::{Map, Value};
use std::alloc::Global;

const MAX_ATTRIBUTES: usize = 64;

/// The disk, in MB, of a node whose document has none.
const DEFAULT_DISK: u64 = 100_000;

/// The attributes with one more, unless its value is null.
#[tactic(auto, unfolding(crate::specs::Nodes::with_attribute))]
fn add_attribute(
    alloc: Global,
    attributes: Rows<Attribute>,
    key: &str,
    value: &Value,
) -> Result<Rows<Attribute>, Refusal>
    ensures { Gives same result (with_attribute attributes key.now (view value.now)) }
{
    if value.is_null() {
        return Ok(attributes);
    }
    let value = text(value, Member::Attributes)?;
    if key.len() > MAX_TEXT || attributes.as_slice().len() >= MAX_ATTRIBUTES {
        return Err(Refusal::BadField(Member::Attributes));
    }
    let attribute = Attribute {
        key: Text::from_str(alloc, key)?,
        value: Text::from_str(alloc, value)?,
    };
    let mut all = attributes;
    all.push(attribute)?;
    Ok(all)
}

fn each_attribute(alloc: Global, members: &Map<String, Value>) -> Result<Rows<Attribute>, Refusal>
    ensures value { Gives same result (each_attribute [] (members_view members.now.entries)) }
    ensures in_order { IfOk result AreByKey }
{
    let mut attributes = Rows::new(alloc);
    for (key, value) in members.iter() {
        attributes = add_attribute(alloc, attributes, key.as_str(), value)?;
    }
    Ok(attributes)
}

#[tactic(auto, unfolding(crate::specs::Nodes::attributes_in))]
fn attributes(alloc: Global, value: &Value) -> Result<Rows<Attribute>, Refusal>
    ensures value { Gives same result (attributes_in (view value.now)) }
    ensures in_order { IfOk result AreByKey }
{
    let members = value
        .as_object()
        .ok_or(Refusal::BadField(Member::Attributes))?;
    each_attribute(alloc, members)
}

fn attributes_or_none(alloc: Global, document: &Value) -> Result<Rows<Attribute>, Refusal>
    ensures value { Gives same result
        (or_else [] attributes_in (present Member.Attributes (view document.now))) }
    ensures in_order { IfOk result AreByKey }
{
    match present(document, Member::Attributes) {
        None => Ok(Rows::new(alloc)),
        Some(value) => attributes(alloc, value),
    }
}

#[tactic(auto, unfolding(crate::specs::Nodes::amount_in))]
fn amount(node: &Value, member: Member) -> Result<u64, Refusal>
    ensures { Gives same result (amount_in member (view node.now)) }
{
    number(demanded(node, member)?, member, 1, MAX_QUANTITY)
}

#[tactic(auto, unfolding(crate::specs::Nodes::node_in))]
fn node(alloc: Global, value: &Value) -> Result<Offer, Refusal>
    ensures value { Gives same result (node_in (view value.now)) }
    ensures in_order { IfOk result IsInOrder }
{
    let top = document(value)?;
    let class = text_or_empty(alloc, top, Member::NodeClass)?;
    let attributes = attributes_or_none(alloc, top)?;
    let cpu = amount(top, Member::Cpu)?;
    let memory = amount(top, Member::MemoryMb)?;
    let disk = number_or(top, Member::DiskMb, 1, MAX_QUANTITY, DEFAULT_DISK)?;
    Ok(Offer {
        class,
        attributes,
        capacity: Resources { cpu, memory, disk },
    })
}

/// What the node that the body describes offers, or the first refusal. Its name is in the path alone.
#[tactic(auto, unfolding(ns_json::specs::Reading::body_in))]
pub fn read_node(alloc: Global, body: &[u8]) -> Result<Offer, Refusal>
    ensures value { Gives same result (body_in node_in body.now) }
    // What is read is within the limits.
    ensures good { IfOk result (λ o. IsTrue (is_good_offer o)) }
    // Attributes are in the order of their keys, each key once.
    ensures in_order { IfOk result IsInOrder }
    // What the refusal can be.
    ensures kinds { IfErr result IsOfDocument }
{
    node(alloc, &read_json(alloc, body)?)
}

#[tactic(auto, unfolding(crate::specs::Nodes::node_status_in))]
fn node_status(value: &Value) -> Result<NodeStatus, Refusal>
    ensures { Gives same result (node_status_in (view value.now)) }
{
    let word = word(document(value)?, Member::Status)?;
    if word == "ready" {
        return Ok(NodeStatus::Ready);
    }
    if word == "down" {
        return Ok(NodeStatus::Down);
    }
    Err(Refusal::BadField(Member::Status))
}

/// The status that the body sets, or the first refusal.
#[tactic(auto, unfolding(ns_json::specs::Reading::body_in))]
pub fn read_node_status(alloc: Global, body: &[u8]) -> Result<NodeStatus, Refusal>
    ensures value { Gives same result (body_in node_status_in body.now) }
    // What the refusal can be.
    ensures kinds { IfErr result IsOfDocument }
{
    node_status(&read_json(alloc, body)?)
}

#[tactic(auto, unfolding(crate::specs::Nodes::eligibility_in))]
fn eligibility(value: &Value) -> Result<bool, Refusal>
    ensures { Gives same result (eligibility_in (view value.now)) }
{
    let word = word(document(value)?, Member::Eligibility)?;
    if word == "eligible" {
        return Ok(true);
    }
    if word == "ineligible" {
        return Ok(false);
    }
    Err(Refusal::BadField(Member::Eligibility))
}

/// Whether the body sets the node eligible, or the first refusal.
#[tactic(auto, unfolding(ns_json::specs::Reading::body_in))]
pub fn read_eligibility(alloc: Global, body: &[u8]) -> Result<bool, Refusal>
    ensures value { Gives same result (body_in eligibility_in body.now) }
    // What the refusal can be.
    ensures kinds { IfErr result IsOfDocument }
{
    eligibility(&read_json(alloc, body)?)
}
