//! Copies of policies and tokens. A vacant slot is not copied.

ghost use Rattle.std.specs.Prelude.{◌≡◌, IfOk};
ghost use Rattle.keyed.specs.Table.{rows};

use keyed::NameTable;
use ns_types::acl::{Policy, Token};
use std::alloc::{AllocError, Global};

fn copied_token(token: &Token) -> Result<Token, AllocError>
    ensures { IfOk result (λ copy. copy ≡ token.now) }
{
    Ok(Token {
        accessor: token.accessor.clone()?,
        name: token.name.clone()?,
        kind: token.kind,
        policies: token.policies.clone()?,
    })
}

pub(crate) fn copied_policies(
    alloc: Global,
    policies: &NameTable<Policy>,
) -> Result<NameTable<Policy>, AllocError>
    ensures { IfOk result (λ copy. rows copy ≡ rows policies.now) }
{
    let mut slots = Vec::new(alloc);
    for slot in policies.as_slice() {
        if let Some(policy) = &slot.1 {
            slots.push((slot.0.clone()?, Some(policy.clone()?)))?;
        }
    }
    Ok(NameTable::from_slots(slots))
}

pub(crate) fn copied_tokens(
    alloc: Global,
    tokens: &NameTable<Token>,
) -> Result<NameTable<Token>, AllocError>
    ensures { IfOk result (λ copy. rows copy ≡ rows tokens.now) }
{
    let mut slots = Vec::new(alloc);
    for slot in tokens.as_slice() {
        if let Some(token) = &slot.1 {
            slots.push((slot.0.clone()?, Some(copied_token(token)?)))?;
        }
    }
    Ok(NameTable::from_slots(slots))
}
