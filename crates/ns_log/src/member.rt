//! Members of objects.

ghost use Rattle.std.specs.Prelude.{◌≡◌, OnOk, map};
ghost use Rattle.std.specs.List.{flat_map};
ghost use Rattle.ns_json.specs.Logs.{documented, number_or_null, with_secret};
ghost use Rattle.ns_json.specs.Part.{Follows, tokens_of};
ghost use Rattle.ns_json.specs.Rendering.{object_of};
ghost use Rattle.ns_log.specs.Members.{document_json, member_of, member_tokens, end_tokens};

use crate::document::{Document, write_document};
use json::Writer;
use ns_json::part::{Part, write_parts};
use ns_types::text::Text;
use std::alloc::{AllocError, Global};

/// A member's name and its value. A document's name is `Doc`.
#[derive(Clone, Copy)]
pub enum Member<'a> {
    Text(&'a str, &'a Text),
    Word(&'a str, &'a str),
    Number(&'a str, u64),
    Flag(&'a str, bool),
    Null(&'a str),
    Document(Document<'a>),
}

/// A member with the number, or null if there is none.
pub fn number_or_null(name: &str, number: Option<u64>) -> Member<'_>
    ensures { member_of result ≡ (name.now, number_or_null number) }
{
    match number {
        Some(number) => Member::Number(name, number),
        None => Member::Null(name),
    }
}

/// The member with the secret, or null if there is none.
pub fn secret_or_null(secret: &Option<Text>) -> Member<'_>
    ensures { member_of result ≡ with_secret secret.now }
{
    match secret {
        Some(secret) => Member::Text("Secret", secret),
        None => Member::Null("Secret"),
    }
}

fn write_documented(
    out: &mut Writer,
    alloc: Global,
    document: Document<'_>,
) -> Result<(), AllocError>
    ensures { OnOk result (Follows out.old out.new
        (member_tokens (documented (document_json document.entry)))) }
{
    write_parts(out, &[Part::Key("Doc")])?;
    write_document(out, alloc, document)
}

fn write_member(out: &mut Writer, alloc: Global, member: Member<'_>) -> Result<(), AllocError>
    ensures { OnOk result (Follows out.old out.new (member_tokens (member_of member.entry))) }
{
    match member {
        Member::Text(name, text) => write_parts(out, &[Part::Key(name), Part::Text(text.as_str())]),
        Member::Word(name, word) => write_parts(out, &[Part::Key(name), Part::Text(word)]),
        Member::Number(name, number) => write_parts(out, &[Part::Key(name), Part::Number(number)]),
        Member::Flag(name, flag) => write_parts(out, &[Part::Key(name), Part::Flag(flag)]),
        Member::Null(name) => write_parts(out, &[Part::Key(name), Part::Null]),
        Member::Document(document) => write_documented(out, alloc, document),
    }
}

fn write_each(out: &mut Writer, alloc: Global, members: &[Member<'_>]) -> Result<(), AllocError>
    ensures { OnOk result (Follows out.old out.new
        (flat_map (λ m. member_tokens (member_of m)) members.now)) }
{
    for member in members {
        write_member(out, alloc, *member)?;
    }
    Ok(())
}

/// Writes the last members of an object, and its end.
pub fn write_end(out: &mut Writer, alloc: Global, members: &[Member<'_>]) -> Result<(), AllocError>
    ensures { OnOk result (Follows out.old out.new (end_tokens (map member_of members.now))) }
{
    write_each(out, alloc, members)?;
    write_parts(out, &[Part::EndObject])
}

/// Writes an object with these members.
pub fn write_object(
    out: &mut Writer,
    alloc: Global,
    members: &[Member<'_>],
) -> Result<(), AllocError>
    ensures { OnOk result (Follows out.old out.new
        (tokens_of (object_of (map member_of members.now)))) }
{
    write_parts(out, &[Part::BeginObject])?;
    write_end(out, alloc, members)
}
