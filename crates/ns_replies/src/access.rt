//! Policies and tokens as replies show them.

ghost use Rattle.std.specs.Prelude.{OnOk};
ghost use Rattle.ns_types.specs.Asking.Policies.{made_token};
ghost use Rattle.ns_json.specs.Part.{Follows, tokens_of};
ghost use Rattle.ns_json.specs.Rendering.{policy_json, token_json};

use crate::shown::Shown;
use crate::words::token_kind_text;
use json::Writer;
use ns_json::part::{Part, write_parts};
use ns_types::acl::TokenKind;
use ns_types::reply::{PolicyShown, TokenShown};
use ns_types::rows::Rows;
use ns_types::step::NewToken;
use ns_types::text::Text;
use std::alloc::AllocError;

impl Shown for PolicyShown {
    ghost json = { λ policy. policy_json policy };

    fn write_json(&self, out: &mut Writer) -> Result<(), AllocError> {
        write_parts(
            out,
            &[
                Part::BeginObject,
                Part::Key("Description"),
                Part::Text(self.row.description.as_str()),
                Part::Key("Name"),
                Part::Text(self.name.as_str()),
                Part::Key("Rules"),
                Part::Text(self.row.text.as_str()),
                Part::EndObject,
            ],
        )
    }
}

fn write_token<'a>(
    out: &mut Writer,
    accessor: &'a Text,
    secret: &'a Text,
    name: &'a Text,
    kind: TokenKind,
    policies: &Rows<Text>,
) -> Result<(), AllocError>
    ensures { OnOk result (Follows out.old out.new (tokens_of (token_json (record {
      accessor = accessor.now;
      secret = secret.now;
      name = name.now;
      kind = kind;
      policies = policies.now;
    })))) }
{
    write_parts(
        out,
        &[
            Part::BeginObject,
            Part::Key("AccessorID"),
            Part::Text(accessor.as_str()),
            Part::Key("Name"),
            Part::Text(name.as_str()),
            Part::Key("Policies"),
        ],
    )?;
    policies.write_json(out)?;
    write_parts(
        out,
        &[
            Part::Key("SecretID"),
            Part::Text(secret.as_str()),
            Part::Key("Type"),
            Part::Text(token_kind_text(kind)),
            Part::EndObject,
        ],
    )
}

impl Shown for TokenShown {
    ghost json = { λ token. token_json token };

    fn write_json(&self, out: &mut Writer) -> Result<(), AllocError> {
        write_token(
            out,
            &self.accessor,
            &self.secret,
            &self.name,
            self.kind,
            &self.policies,
        )
    }
}

/// A new token is shown as the token that it makes.
impl Shown for NewToken {
    ghost json = { λ new. token_json (made_token new) };

    fn write_json(&self, out: &mut Writer) -> Result<(), AllocError> {
        write_token(
            out,
            &self.accessor,
            &self.secret,
            &self.name,
            self.kind,
            &self.policies,
        )
    }
}
