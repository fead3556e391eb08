//! The bearers of secrets.

ghost use Rattle.std.specs.Prelude.{◌≡◌};
ghost use Rattle.ns_types.specs.Access.Rights.{bearer_with};
ghost use Rattle.ns_acl.specs.Bearers.{bearer_of};

use ns_types::acl::{Token, TokenKind};
use ns_types::text::Text;

/// The bearer of a secret. `Unknown`: no token has the secret.
#[derive(Clone, Copy)]
pub(crate) enum TokenBearer<'a> {
    Unknown,
    Manager,
    /// The bearer of a client token with these policies.
    Holder(&'a [Text]),
}

/// The bearer of a token's secret.
pub(crate) fn of_token(token: &Token) -> TokenBearer<'_>
    ensures { bearer_of result ≡ bearer_with token.now.kind token.now.policies }
{
    match token.kind {
        TokenKind::Management => TokenBearer::Manager,
        TokenKind::Client => TokenBearer::Holder(token.policies.as_slice()),
    }
}
