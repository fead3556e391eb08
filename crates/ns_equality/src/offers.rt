//! Offers of nodes: classes, attributes and amounts.

ghost use Rattle.std.specs.Prelude.{◌≡◌, not, filter, IfOk};
ghost use Rattle.std.specs.Cmp.Lexicographic.{pointwise};
ghost use Rattle.std.specs.Ordering.{eq_by_cmp};
ghost use Rattle.ns_types.specs.State.Names.{attribute_cmp, has_class, same_class};
ghost use Rattle.ns_types.specs.Settling.Releases.{may_use, same_offer};
ghost use Rattle.ns_types.specs.State.Rows.{class_of, is_free, is_unique};

use ns_types::node::{Attribute, Class, Node, NodeStatus, Offer};
use ns_types::resources::same_resources;
use ns_types::rows::Rows;
use ns_types::text::{Text, same_text};
use std::alloc::{AllocError, Global};

/// Whether the attributes are equal.
#[tactic(auto, using(crate::proofs::Classes::attribute_ties))]
pub fn same_attribute(a: &Attribute, b: &Attribute) -> bool
    ensures { result ≡ eq_by_cmp attribute_cmp a.now b.now }
{
    same_text(&a.key, &b.key) && same_text(&a.value, &b.value)
}

fn same_attributes(a: &[Attribute], b: &[Attribute]) -> bool
    ensures { result ≡ pointwise (eq_by_cmp attribute_cmp) a.now b.now }
{
    match (a, b) {
        ([], []) => true,
        ([first, others @ ..], [second, more @ ..]) => {
            same_attribute(first, second) && same_attributes(others, more)
        }
        _ => false,
    }
}

/// Whether the classes are equal.
#[tactic(auto, using(crate::proofs::Classes::class_ties))]
pub fn same_class(a: &Class, b: &Class) -> bool
    ensures { result ≡ same_class a.now b.now }
{
    same_text(&a.name, &b.name) && same_attributes(a.attributes.as_slice(), b.attributes.as_slice())
}

fn has_class(classes: &[Class], class: &Class) -> bool
    ensures { result ≡ has_class classes.now class.now }
{
    classes.iter().any(|other| same_class(class, other))
}

/// Whether an evaluation may use room on a node of this class: it escapes classes, or did not find the class infeasible.
pub fn may_use(escapes: bool, infeasible: &[Class], class: &Class) -> bool
    ensures { result ≡ may_use escapes infeasible.now class.now }
{
    escapes || !has_class(infeasible, class)
}

/// Whether the offers are equal.
pub fn same_offer(a: &Offer, b: &Offer) -> bool
    ensures { result ≡ same_offer a.now b.now }
{
    same_text(&a.class, &b.class)
        && same_attributes(a.attributes.as_slice(), b.attributes.as_slice())
        && same_resources(a.capacity, b.capacity)
}

/// Whether the node may take new allocations: it is ready and eligible.
pub fn is_free(node: &Node) -> bool
    ensures { result ≡ is_free node.now }
{
    match node.status {
        NodeStatus::Ready => node.eligible,
        NodeStatus::Down => false,
    }
}

/// Whether the attribute of that key is not part of a node's class.
pub fn is_unique(key: &Text) -> bool
    ensures { result ≡ is_unique key.now }
{
    key.as_str().as_bytes().starts_with(b"unique.")
}

fn shared_attributes(alloc: Global, attributes: &[Attribute]) -> Result<Rows<Attribute>, AllocError>
    ensures { IfOk result (λ rows. rows ≡ filter (λ a. not (is_unique a.key)) attributes.now) }
{
    let mut rows = Rows::new(alloc);
    for attribute in attributes {
        if !is_unique(&attribute.key) {
            rows.push(attribute.clone()?)?;
        }
    }
    Ok(rows)
}

/// The class of a node, with all of its attributes that are not unique. Want of memory is the only error.
pub fn class_of(alloc: Global, node: &Node) -> Result<Class, AllocError>
    ensures { IfOk result (λ class. class ≡ class_of node.now) }
{
    Ok(Class {
        name: node.offer.class.clone()?,
        attributes: shared_attributes(alloc, node.offer.attributes.as_slice())?,
    })
}
