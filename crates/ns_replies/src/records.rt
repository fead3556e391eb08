//! Namespaces, quotas and pools as replies show them.

ghost use Rattle.std.specs.Prelude.{◌≡◌, IfOk, OnOk, string_bytes, ◌∷◌, []};
ghost use Rattle.serde_json.specs.Written.{compact_text};
ghost use Rattle.ns_json.specs.Part.{Follows, token_of, tokens_of};
ghost use Rattle.ns_json.specs.Rendering.{resources_json, allowed_json, pools_json, namespace_json, limit_json, limits_json, quota_json, usage_json, pool_json};

use crate::shown::{Shown, written_text};
use crate::words::text_or_empty;
use json::Writer;
use ns_json::part::{Part, write_parts};
use ns_types::records::Namespace;
use ns_types::reply::{NamespaceShown, PoolShown, QuotaShown};
use ns_types::resources::{Limit, Limits, Resources};
use ns_types::rows::Rows;
use ns_types::text::Text;
use std::alloc::{AllocError, Global};

impl Shown for Resources {
    ghost json = { λ resources. resources_json resources };

    fn write_json(&self, out: &mut Writer) -> Result<(), AllocError> {
        write_parts(
            out,
            &[
                Part::BeginObject,
                Part::Key("CPU"),
                Part::Number(self.cpu),
                Part::Key("DiskMB"),
                Part::Number(self.disk),
                Part::Key("MemoryMB"),
                Part::Number(self.memory),
                Part::EndObject,
            ],
        )
    }
}

/// Writes the namespace's list of allowed pools, or null if it has none.
fn write_allowed(out: &mut Writer, allowed: &Option<Rows<Text>>) -> Result<(), AllocError>
    ensures { OnOk result (Follows out.old out.new (tokens_of (allowed_json allowed.now))) }
{
    match allowed {
        Some(pools) => pools.write_json(out),
        None => write_parts(out, &[Part::Null]),
    }
}

pub fn write_pools(out: &mut Writer, namespace: &Namespace) -> Result<(), AllocError>
    ensures { OnOk result (Follows out.old out.new (tokens_of (pools_json namespace.now))) }
{
    write_parts(out, &[Part::BeginObject, Part::Key("Allowed")])?;
    write_allowed(out, &namespace.allowed)?;
    write_parts(
        out,
        &[
            Part::Key("Default"),
            Part::Text(namespace.default_pool.as_str()),
            Part::Key("Denied"),
        ],
    )?;
    namespace.denied.write_json(out)?;
    write_parts(out, &[Part::EndObject])
}

impl Shown for NamespaceShown {
    ghost json = { λ namespace. namespace_json namespace };

    fn write_json(&self, out: &mut Writer) -> Result<(), AllocError> {
        write_parts(
            out,
            &[
                Part::BeginObject,
                Part::Key("Description"),
                Part::Text(self.row.description.as_str()),
                Part::Key("Name"),
                Part::Text(self.name.as_str()),
                Part::Key("NodePoolConfiguration"),
            ],
        )?;
        write_pools(out, &self.row)?;
        write_parts(
            out,
            &[
                Part::Key("Quota"),
                Part::Text(text_or_empty(&self.row.quota)),
                Part::EndObject,
            ],
        )
    }
}

fn limit_part<'a>(limit: Limit) -> Part<'a>
    ensures { tokens_of (limit_json limit) ≡ token_of result ∷ [] }
{
    match limit {
        Limit::Unlimited => Part::Number(0),
        Limit::AtMost(most) => Part::Number(most),
        Limit::Nothing => Part::Signed(-1),
    }
}

/// Writes the limits as a list of one entry, or an empty list if there are none.
pub fn write_limits(out: &mut Writer, limits: &Option<Limits>) -> Result<(), AllocError>
    ensures { OnOk result (Follows out.old out.new (tokens_of (limits_json limits.now))) }
{
    let Some(limits) = limits else {
        return write_parts(out, &[Part::BeginArray, Part::EndArray]);
    };
    write_parts(
        out,
        &[
            Part::BeginArray,
            Part::BeginObject,
            Part::Key("Region"),
            Part::Text("global"),
            Part::Key("RegionLimit"),
            Part::BeginObject,
            Part::Key("CPU"),
            limit_part(limits.cpu),
            Part::Key("DiskMB"),
            limit_part(limits.disk),
            Part::Key("MemoryMB"),
            limit_part(limits.memory),
            Part::EndObject,
            Part::EndObject,
            Part::EndArray,
        ],
    )
}

impl Shown for QuotaShown {
    ghost json = { λ quota. quota_json quota };

    fn write_json(&self, out: &mut Writer) -> Result<(), AllocError> {
        write_parts(
            out,
            &[
                Part::BeginObject,
                Part::Key("Description"),
                Part::Text(self.row.description.as_str()),
                Part::Key("Limits"),
            ],
        )?;
        write_limits(out, &self.row.limits)?;
        write_parts(
            out,
            &[
                Part::Key("Name"),
                Part::Text(self.name.as_str()),
                Part::EndObject,
            ],
        )
    }
}

fn write_usage(out: &mut Writer, name: &Text, used: &Resources) -> Result<(), AllocError>
    ensures { OnOk result (Follows out.old out.new (tokens_of (usage_json name.now used.now))) }
{
    write_parts(
        out,
        &[
            Part::BeginObject,
            Part::Key("Name"),
            Part::Text(name.as_str()),
            Part::Key("Used"),
        ],
    )?;
    used.write_json(out)?;
    write_parts(out, &[Part::EndObject])
}

/// The text of a quota's use. Want of memory is the only error.
pub fn usage_text(alloc: Global, name: &Text, used: &Resources) -> Result<String, AllocError>
    ensures { IfOk result (λ s. string_bytes s ≡ compact_text (usage_json name.now used.now)) }
{
    let mut out = Writer::new(Vec::new(alloc));
    write_usage(&mut out, name, used)?;
    Ok(written_text(out))
}

impl Shown for PoolShown {
    ghost json = { λ pool. pool_json pool };

    fn write_json(&self, out: &mut Writer) -> Result<(), AllocError> {
        write_parts(
            out,
            &[
                Part::BeginObject,
                Part::Key("Description"),
                Part::Text(self.row.description.as_str()),
                Part::Key("Name"),
                Part::Text(self.name.as_str()),
                Part::EndObject,
            ],
        )
    }
}
