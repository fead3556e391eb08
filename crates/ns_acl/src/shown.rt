//! What replies show of policies and tokens, and the row of a new token.

ghost use Rattle.std.specs.Prelude.{◌≡◌, IfOk};
ghost use Rattle.ns_types.specs.Asking.Policies.{made_token, token_of};
ghost use Rattle.ns_acl.specs.Tokens.{policy_content};

use ns_types::acl::{Policy, Token};
use ns_types::reply::{Content, PolicyShown, TokenShown};
use ns_types::step::NewToken;
use ns_types::text::Text;
use std::alloc::AllocError;

pub(crate) fn policy_content(name: &Text, policy: &Policy) -> Result<Content, AllocError>
    ensures { IfOk result (λ content. content ≡ policy_content name.now policy.now) }
{
    Ok(Content::Policy(PolicyShown {
        name: name.clone()?,
        row: policy.clone()?,
    }))
}

/// What the reply shows of a new token: all of it, with its secret.
pub(crate) fn made_token(new: &NewToken) -> Result<TokenShown, AllocError>
    ensures { IfOk result (λ shown. shown ≡ made_token new.now) }
{
    Ok(TokenShown {
        accessor: new.accessor.clone()?,
        secret: new.secret.clone()?,
        name: new.name.clone()?,
        kind: new.kind,
        policies: new.policies.clone()?,
    })
}

/// The row of a new token.
pub(crate) fn new_row(new: &NewToken) -> Result<Token, AllocError>
    ensures { IfOk result (λ token. token ≡ token_of new.now) }
{
    Ok(Token {
        accessor: new.accessor.clone()?,
        name: new.name.clone()?,
        kind: new.kind,
        policies: new.policies.clone()?,
    })
}
