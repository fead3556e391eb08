//! Reads requests about nodes, and reports about the allocations on them.

ghost use Rattle.std.specs.Prelude.{◌≡◌, IfOk, IsTrue};
ghost use Rattle.ns_types.specs.declared.name.NameKind.TheVariants as NameKind;
ghost use Rattle.ns_types.specs.State.Name.{is_name};
ghost use Rattle.ns_http.specs.Head.{asked};
ghost use Rattle.ns_endpoints.specs.Parts.{fourth_part, sixth_part};
ghost use Rattle.ns_endpoints.specs.Nodes.{eligibility_put, node_put, report_put, status_put};
ghost use Rattle.ns_endpoints.specs.Wanted.{IsServedWanted, Wants};

use crate::wanted::{Wanted, commands};
use ns_documents::{read_eligibility, read_node, read_node_status, read_report};
use ns_http::Request;
use ns_types::refusal::Refusal;
use ns_types::step::NodeCommand;
use ns_types::text::Text;
use std::alloc::Global;

/// A put of the node that the path names, in its pool.
#[tactic(auto, unfolding(crate::specs::Nodes::node_by, crate::specs::Nodes::node_of, crate::specs::Parts::bearer_in, crate::specs::Wanted::step_of))]
pub fn put_node(
    alloc: Global,
    request: &Request<'_>,
    pool: &Text,
    node: &Text,
) -> Result<Wanted, Refusal>
    requires pool { pool.now ≡ fourth_part (asked request.now) }
    requires node { node.now ≡ sixth_part (asked request.now) }
    requires named { IsTrue (is_name NameKind.Node node.now) }
    ensures wanted { Wants request.now result node_put }
    ensures served { IfOk result IsServedWanted }
{
    let pool = pool.clone()?;
    let node = node.clone()?;
    let offer = read_node(alloc, request.body)?;
    Ok(commands(pool, NodeCommand::PutNode(node, offer)))
}

/// A put of the status of the node that the path names.
#[tactic(auto, unfolding(crate::specs::Nodes::node_by, crate::specs::Nodes::node_of, crate::specs::Parts::bearer_in, crate::specs::Wanted::step_of))]
pub fn put_status(
    alloc: Global,
    request: &Request<'_>,
    pool: &Text,
    node: &Text,
) -> Result<Wanted, Refusal>
    requires pool { pool.now ≡ fourth_part (asked request.now) }
    requires node { node.now ≡ sixth_part (asked request.now) }
    ensures wanted { Wants request.now result status_put }
    ensures served { IfOk result IsServedWanted }
{
    let status = read_node_status(alloc, request.body)?;
    Ok(commands(pool.clone()?, NodeCommand::SetStatus(node.clone()?, status)))
}

/// A put of the eligibility of the node that the path names.
#[tactic(auto, unfolding(crate::specs::Nodes::node_by, crate::specs::Nodes::node_of, crate::specs::Parts::bearer_in, crate::specs::Wanted::step_of))]
pub fn put_eligibility(
    alloc: Global,
    request: &Request<'_>,
    pool: &Text,
    node: &Text,
) -> Result<Wanted, Refusal>
    requires pool { pool.now ≡ fourth_part (asked request.now) }
    requires node { node.now ≡ sixth_part (asked request.now) }
    ensures wanted { Wants request.now result eligibility_put }
    ensures served { IfOk result IsServedWanted }
{
    let eligible = read_eligibility(alloc, request.body)?;
    Ok(commands(
        pool.clone()?,
        NodeCommand::SetEligible(node.clone()?, eligible),
    ))
}

/// A report of an allocation on the node that the path names. The document names the allocation.
#[tactic(auto, unfolding(crate::specs::Nodes::node_by, crate::specs::Nodes::node_of, crate::specs::Parts::bearer_in, crate::specs::Wanted::step_of))]
pub fn put_report(
    alloc: Global,
    request: &Request<'_>,
    pool: &Text,
    node: &Text,
) -> Result<Wanted, Refusal>
    requires pool { pool.now ≡ fourth_part (asked request.now) }
    requires node { node.now ≡ sixth_part (asked request.now) }
    ensures wanted { Wants request.now result report_put }
    ensures served { IfOk result IsServedWanted }
{
    let report = read_report(alloc, request.body)?;
    Ok(commands(pool.clone()?, NodeCommand::Report(node.clone()?, report)))
}
