//! The document of a token.

ghost use Rattle.std.specs.Prelude.{ℕ, List, [], IfOk, IfErr, IsTrue};
ghost use Rattle.serde_json.specs.View.{view};
ghost use Rattle.ns_types.specs.declared.acl.TokenKind.TheVariants.{Client};
ghost use Rattle.ns_types.specs.State.Limits.{is_good_token};
ghost use Rattle.ns_json.specs.Reading.{Gives, same, present, or_else, body_in, IsOfDocument};
ghost use Rattle.ns_documents.specs.Members.{names_in};
ghost use Rattle.ns_documents.specs.Access.{with_accessor, token_kind_in, token_in};

use crate::members::{names, text_or_empty};
use ns_json::member::{document, present, read_json, text};
use ns_types::acl::TokenKind;
use ns_types::name::NameKind;
use ns_types::refusal::{Member, Refusal};
use ns_types::rows::Rows;
use ns_types::text::Text;
use serde_json::Value;
use std::alloc::Global;

/// A token without its secret and its accessor.
#[derive(Drop)]
pub struct TokenDocument {
    pub name: Text,
    pub kind: TokenKind,
    pub policies: Rows<Text>,
}

#[tactic(auto, unfolding(crate::specs::Access::token_kind_in, crate::specs::Access::token_kind_of))]
fn token_kind(value: &Value) -> Result<TokenKind, Refusal>
    ensures { Gives same result (token_kind_in (view value.now)) }
{
    let text = text(value, Member::Type)?;
    if text == "client" {
        return Ok(TokenKind::Client);
    }
    if text == "management" {
        return Ok(TokenKind::Management);
    }
    Err(Refusal::BadField(Member::Type))
}

fn kind_or_client(document: &Value) -> Result<TokenKind, Refusal>
    ensures { Gives same result
        (or_else Client token_kind_in (present Member.Type (view document.now))) }
{
    match present(document, Member::Type) {
        None => Ok(TokenKind::Client),
        Some(value) => token_kind(value),
    }
}

fn policies_or_none(alloc: Global, document: &Value) -> Result<Rows<Text>, Refusal>
    ensures { Gives same result
        (or_else [] (names_in Member.Policies NameKind.Policy 64)
        (present Member.Policies (view document.now))) }
{
    match present(document, Member::Policies) {
        None => Ok(Rows::new(alloc)),
        Some(value) => names(alloc, value, Member::Policies, NameKind::Policy, 64),
    }
}

#[tactic(auto, unfolding(crate::specs::Access::token_in))]
fn token(alloc: Global, value: &Value) -> Result<TokenDocument, Refusal>
    ensures { Gives same result (token_in (view value.now)) }
{
    let top = document(value)?;
    let name = text_or_empty(alloc, top, Member::Name)?;
    let kind = kind_or_client(top)?;
    let policies = policies_or_none(alloc, top)?;
    Ok(TokenDocument {
        name,
        kind,
        policies,
    })
}

/// The token that the body describes, or the first refusal.
#[tactic(auto, unfolding(ns_json::specs::Reading::body_in))]
pub fn read_token(alloc: Global, body: &[u8]) -> Result<TokenDocument, Refusal>
    ensures value { Gives same result (body_in token_in body.now) }
    // With any accessor it is a token within the limits.
    ensures good { IfOk result (λ d. (accessor : List ℕ) →
        IsTrue (is_good_token (with_accessor accessor d))) }
    // What the refusal can be.
    ensures kinds { IfErr result IsOfDocument }
{
    token(alloc, &read_json(alloc, body)?)
}
