//! Nodes as replies show them.

ghost use Rattle.std.specs.Prelude.{OnOk, ◌∷◌, []};
ghost use Rattle.std.specs.List.{flat_map};
ghost use Rattle.json.specs.Token.{key, string};
ghost use Rattle.ns_json.specs.Part.{Follows, tokens_of};
ghost use Rattle.ns_json.specs.Rendering.{attributes_json, node_json};

use crate::shown::Shown;
use crate::words::{eligibility_text, node_status_text};
use json::Writer;
use ns_json::part::{Part, write_parts};
use ns_types::node::Attribute;
use ns_types::reply::NodeShown;
use std::alloc::AllocError;

fn write_each(out: &mut Writer, attributes: &[Attribute]) -> Result<(), AllocError>
    ensures { OnOk result (Follows out.old out.new
        (flat_map (λ a. key a.key ∷ string a.value ∷ []) attributes.now)) }
{
    for attribute in attributes {
        write_attribute(out, attribute)?;
    }
    Ok(())
}

fn write_attribute(out: &mut Writer, attribute: &Attribute) -> Result<(), AllocError>
    ensures { OnOk result (Follows out.old out.new
        (key attribute.now.key ∷ string attribute.now.value ∷ [])) }
{
    write_parts(
        out,
        &[
            Part::Key(attribute.key.as_str()),
            Part::Text(attribute.value.as_str()),
        ],
    )
}

pub fn write_attributes(out: &mut Writer, attributes: &[Attribute]) -> Result<(), AllocError>
    ensures { OnOk result (Follows out.old out.new (tokens_of (attributes_json attributes.now))) }
{
    write_parts(out, &[Part::BeginObject])?;
    write_each(out, attributes)?;
    write_parts(out, &[Part::EndObject])
}

impl Shown for NodeShown {
    ghost json = { λ node. node_json node };

    fn write_json(&self, out: &mut Writer) -> Result<(), AllocError> {
        write_parts(out, &[Part::BeginObject, Part::Key("Attributes")])?;
        write_attributes(out, self.row.offer.attributes.as_slice())?;
        write_parts(
            out,
            &[
                Part::Key("CPU"),
                Part::Number(self.row.offer.capacity.cpu),
                Part::Key("DiskMB"),
                Part::Number(self.row.offer.capacity.disk),
                Part::Key("Eligibility"),
                Part::Text(eligibility_text(self.row.eligible)),
                Part::Key("MemoryMB"),
                Part::Number(self.row.offer.capacity.memory),
                Part::Key("Name"),
                Part::Text(self.name.as_str()),
                Part::Key("NodeClass"),
                Part::Text(self.row.offer.class.as_str()),
                Part::Key("NodePool"),
                Part::Text(self.pool.as_str()),
                Part::Key("Status"),
                Part::Text(node_status_text(self.row.status)),
                Part::Key("Used"),
            ],
        )?;
        self.used.write_json(out)?;
        write_parts(out, &[Part::EndObject])
    }
}
