//! The documents in commands.

ghost use Rattle.std.specs.Prelude.{OnOk};
ghost use Rattle.ns_json.specs.Logs.{offer_json};
ghost use Rattle.ns_json.specs.Part.{Follows, tokens_of};
ghost use Rattle.ns_json.specs.Rendering.{namespace_json, quota_json, pool_json, policy_json};
ghost use Rattle.ns_log.specs.Members.{document_json};

use crate::registration::write_registration;
use json::Writer;
use ns_json::part::{Part, write_parts};
use ns_replies::node::write_attributes;
use ns_replies::records::{write_limits, write_pools};
use ns_replies::shown::Shown;
use ns_replies::words::text_or_empty;
use ns_types::acl::Policy;
use ns_types::job::Registration;
use ns_types::node::Offer;
use ns_types::records::{Namespace, Pool, Quota};
use ns_types::step::NewToken;
use ns_types::text::Text;
use std::alloc::{AllocError, Global};

/// A document, with the name that its row is stored by.
#[derive(Clone, Copy)]
pub enum Document<'a> {
    Registration(&'a Registration),
    Namespace(&'a Text, &'a Namespace),
    Quota(&'a Text, &'a Quota),
    Pool(&'a Text, &'a Pool),
    Policy(&'a Text, &'a Policy),
    Token(&'a NewToken),
    Offer(&'a Offer),
}

pub fn write_document(
    out: &mut Writer,
    alloc: Global,
    document: Document<'_>,
) -> Result<(), AllocError>
    ensures { OnOk result (Follows out.old out.new (tokens_of (document_json document.entry))) }
{
    match document {
        Document::Registration(registration) => write_registration(out, alloc, registration),
        Document::Namespace(name, namespace) => write_namespace(out, name, namespace),
        Document::Quota(name, quota) => write_quota(out, name, quota),
        Document::Pool(name, pool) => write_pool(out, name, pool),
        Document::Policy(name, policy) => write_policy(out, name, policy),
        Document::Token(token) => token.write_json(out),
        Document::Offer(offer) => write_offer(out, offer),
    }
}

fn write_namespace<'a>(
    out: &mut Writer,
    name: &'a Text,
    namespace: &'a Namespace,
) -> Result<(), AllocError>
    ensures { OnOk result (Follows out.old out.new
        (tokens_of (namespace_json (record { name = name.now; row = namespace.now })))) }
{
    write_parts(
        out,
        &[
            Part::BeginObject,
            Part::Key("Description"),
            Part::Text(namespace.description.as_str()),
            Part::Key("Name"),
            Part::Text(name.as_str()),
            Part::Key("NodePoolConfiguration"),
        ],
    )?;
    write_pools(out, namespace)?;
    write_parts(
        out,
        &[
            Part::Key("Quota"),
            Part::Text(text_or_empty(&namespace.quota)),
            Part::EndObject,
        ],
    )
}

fn write_quota<'a>(out: &mut Writer, name: &'a Text, quota: &'a Quota) -> Result<(), AllocError>
    ensures { OnOk result (Follows out.old out.new
        (tokens_of (quota_json (record { name = name.now; row = quota.now })))) }
{
    write_parts(
        out,
        &[
            Part::BeginObject,
            Part::Key("Description"),
            Part::Text(quota.description.as_str()),
            Part::Key("Limits"),
        ],
    )?;
    write_limits(out, &quota.limits)?;
    write_parts(
        out,
        &[
            Part::Key("Name"),
            Part::Text(name.as_str()),
            Part::EndObject,
        ],
    )
}

fn write_pool<'a>(out: &mut Writer, name: &'a Text, pool: &'a Pool) -> Result<(), AllocError>
    ensures { OnOk result (Follows out.old out.new
        (tokens_of (pool_json (record { name = name.now; row = pool.now })))) }
{
    write_parts(
        out,
        &[
            Part::BeginObject,
            Part::Key("Description"),
            Part::Text(pool.description.as_str()),
            Part::Key("Name"),
            Part::Text(name.as_str()),
            Part::EndObject,
        ],
    )
}

fn write_policy<'a>(out: &mut Writer, name: &'a Text, policy: &'a Policy) -> Result<(), AllocError>
    ensures { OnOk result (Follows out.old out.new
        (tokens_of (policy_json (record { name = name.now; row = policy.now })))) }
{
    write_parts(
        out,
        &[
            Part::BeginObject,
            Part::Key("Description"),
            Part::Text(policy.description.as_str()),
            Part::Key("Name"),
            Part::Text(name.as_str()),
            Part::Key("Rules"),
            Part::Text(policy.text.as_str()),
            Part::EndObject,
        ],
    )
}

fn write_offer(out: &mut Writer, offer: &Offer) -> Result<(), AllocError>
    ensures { OnOk result (Follows out.old out.new (tokens_of (offer_json offer.now))) }
{
    write_parts(out, &[Part::BeginObject, Part::Key("Attributes")])?;
    write_attributes(out, offer.attributes.as_slice())?;
    write_parts(
        out,
        &[
            Part::Key("CPU"),
            Part::Number(offer.capacity.cpu),
            Part::Key("DiskMB"),
            Part::Number(offer.capacity.disk),
            Part::Key("MemoryMB"),
            Part::Number(offer.capacity.memory),
            Part::Key("NodeClass"),
            Part::Text(offer.class.as_str()),
            Part::EndObject,
        ],
    )
}
