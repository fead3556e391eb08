//! Tokens by their accessors, and the bootstrap token.

ghost use Rattle.std.specs.Prelude.{◌≡◌, IfOk, OnOk, OnErr, option_copied};
ghost use Rattle.std.specs.List.{list_any};
ghost use Rattle.keyed.specs.Table.{rows};
ghost use Rattle.ns_types.specs.Asking.Policies.{bootstrap_accessor, made_token};
ghost use Rattle.ns_types.specs.State.Names.{same_name};
ghost use Rattle.ns_acl.specs.Tokens.{bootstrap_token, is_of, secret_in, with_token};

use crate::shown::{made_token, new_row};
use crate::tables::put;
use keyed::{NameSlot, NameTable};
use ns_types::acl::{Token, TokenKind};
use ns_types::reply::TokenShown;
use ns_types::rows::Rows;
use ns_types::step::NewToken;
use ns_types::text::{Text, same_text};
use std::alloc::{AllocError, Global};

/// The accessor of the bootstrap token.
const BOOTSTRAP_ACCESSOR: &str = "00000000-0000-0000-0000-000000000000";

/// The bootstrap token, a management token.
pub(crate) fn bootstrap_token(alloc: Global) -> Result<Token, AllocError>
    ensures { IfOk result (λ token. token ≡ bootstrap_token) }
{
    Ok(Token {
        accessor: Text::from_str(alloc, BOOTSTRAP_ACCESSOR)?,
        name: Text::from_str(alloc, "")?,
        kind: TokenKind::Management,
        policies: Rows::new(alloc),
    })
}

#[tactic(auto, using(ns_types::proofs::Named::text_ties))]
pub(crate) fn is_bootstrap(accessor: &Text) -> bool
    ensures { result ≡ same_name accessor.now bootstrap_accessor }
{
    accessor.as_str() == BOOTSTRAP_ACCESSOR
}

fn is_of(slot: &NameSlot<Token>, accessor: &Text) -> bool
    ensures { result ≡ is_of accessor.now slot.now }
{
    match &slot.1 {
        Some(token) => same_text(accessor, &token.accessor),
        None => false,
    }
}

/// Whether a token has that accessor.
pub(crate) fn has_accessor(slots: &[NameSlot<Token>], accessor: &Text) -> bool
    ensures { result ≡ list_any (is_of accessor.now) slots.now }
{
    slots.iter().any(|slot| is_of(slot, accessor))
}

/// The secret of the first token with that accessor.
pub(crate) fn secret_of<'a>(slots: &'a [NameSlot<Token>], accessor: &Text) -> Option<&'a Text>
    ensures { option_copied result ≡ secret_in accessor.now slots.now }
{
    slots
        .iter()
        .find(|slot| is_of(slot, accessor))
        .map(|slot| &slot.0)
}

/// Adds the row of a new token, and returns what is shown of it. Want of memory is the only error, and leaves the rows as they
/// are.
pub(crate) fn add_token(
    tokens: &mut NameTable<Token>,
    new: &NewToken,
) -> Result<TokenShown, AllocError>
    ensures ok { OnOk result (rows tokens.new ≡ with_token new.now (rows tokens.old)) }
    ensures shown { IfOk result (λ shown. shown ≡ made_token new.now) }
    ensures err { OnErr result (rows tokens.new ≡ rows tokens.old) }
{
    let shown = made_token(new)?;
    let token = new_row(new)?;
    put(tokens, &new.secret, token)?;
    Ok(shown)
}
