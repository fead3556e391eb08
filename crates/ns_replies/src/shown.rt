//! Values that replies show, and lists of them.

ghost use Rattle.std.specs.Prelude.{◌≡◌, IfOk, OnOk, string_bytes, []};
ghost use Rattle.std.specs.List.{flat_map};
ghost use Rattle.json.specs.Print.{print};
ghost use Rattle.serde_json.specs.Data.{string};
ghost use Rattle.serde_json.specs.Written.{compact_text};
ghost use Rattle.ns_json.specs.Part.{Follows, tokens_of};
ghost use Rattle.ns_json.specs.Rendering.{list_of};

use json::Writer;
use ns_json::part::{Part, write_parts};
use ns_types::rows::Rows;
use ns_types::text::Text;
use std::alloc::{AllocError, Global};

/// A value that replies show as JSON.
pub trait Shown {
    ghost use Rattle.serde_json.specs.Data.{Data};

    ghost json: { Self → Data };

    /// Writes the value behind what was written before.
    fn write_json(&self, out: &mut Writer) -> Result<(), AllocError>
        ensures { OnOk result (Follows out.old out.new (tokens_of (json self.now))) };
}

impl Shown for Text {
    ghost json = { λ text. string text };

    fn write_json(&self, out: &mut Writer) -> Result<(), AllocError> {
        write_parts(out, &[Part::Text(self.as_str())])
    }
}

impl<T: Shown> Shown for Rows<T> {
    ghost json = { λ rows. list_of T.json rows };

    fn write_json(&self, out: &mut Writer) -> Result<(), AllocError> {
        write_parts(out, &[Part::BeginArray])?;
        write_each(out, self.as_slice())?;
        write_parts(out, &[Part::EndArray])
    }
}

fn write_each<T: Shown>(out: &mut Writer, items: &[T]) -> Result<(), AllocError>
    ensures { OnOk result (Follows out.old out.new
        (flat_map (λ x. tokens_of (T.json x)) items.now)) }
{
    for item in items {
        item.write_json(out)?;
    }
    Ok(())
}

/// The value as a JSON text. Want of memory is the only error.
pub fn text_of<T: Shown>(alloc: Global, shown: &T) -> Result<String, AllocError>
    ensures { IfOk result (λ s. string_bytes s ≡ compact_text (T.json shown.now)) }
{
    let mut out = Writer::new(Vec::with_capacity(alloc, 128)?);
    shown.write_json(&mut out)?;
    Ok(written_text(out))
}

/// The text that was written into a buffer that was empty.
pub fn written_text(out: Writer) -> String
    requires { out.before ≡ [] }
    ensures { string_bytes result ≡ print out.tokens }
{
    // What a writer wrote is UTF-8.
    unsafe { String::from_utf8_unchecked(out.into_inner()) }
}
