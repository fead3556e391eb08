//! Copies of rows.

ghost use Rattle.std.specs.Prelude.{◌≡◌, IfOk};

use ns_types::allocation::Allocation;
use ns_types::node::{Node, Offer};
use ns_types::text::Text;
use std::alloc::AllocError;

/// A copy of what a node offers.
pub fn copied_offer(offer: &Offer) -> Result<Offer, AllocError>
    ensures { IfOk result (λ copy. copy ≡ offer.now) }
{
    Ok(Offer {
        class: offer.class.clone()?,
        attributes: offer.attributes.clone()?,
        capacity: offer.capacity,
    })
}

/// A copy of the row.
pub fn copied_node(row: &Node) -> Result<Node, AllocError>
    ensures { IfOk result (λ copy. copy ≡ row.now) }
{
    Ok(Node {
        offer: copied_offer(&row.offer)?,
        status: row.status,
        eligible: row.eligible,
        places: row.places,
    })
}

fn copied_pair(first: &Text, second: &Text) -> Result<(Text, Text), AllocError>
    ensures { IfOk result (λ copies. copies ≡ (first.now, second.now)) }
{
    Ok((first.clone()?, second.clone()?))
}

/// A copy of the row.
pub fn copied_allocation(row: &Allocation) -> Result<Allocation, AllocError>
    ensures { IfOk result (λ copy. copy ≡ row.now) }
{
    let (job, group) = copied_pair(&row.job, &row.group)?;
    let (pool, node) = copied_pair(&row.pool, &row.node)?;
    Ok(Allocation {
        job,
        group,
        evaluation: row.evaluation,
        pool,
        node,
        place: row.place,
        size: row.size,
        priority: row.priority,
        job_modify_index: row.job_modify_index,
        desired: row.desired,
        client: row.client,
        create_index: row.create_index,
        modify_index: row.modify_index,
    })
}
