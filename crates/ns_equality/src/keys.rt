//! Numbers and keys.

ghost use Rattle.std.specs.Prelude.{◌≡◌};
ghost use Rattle.ns_types.specs.State.Names.{has_key, has_name, same_key, same_number};

use ns_types::key::EvalKey;
use ns_types::text::{Text, same_text};

/// Whether the numbers are equal.
#[tactic(auto, using(ns_types::proofs::Named::number_ties))]
pub fn same_number(a: u64, b: u64) -> bool
    ensures { result ≡ same_number a b }
{
    a == b
}

/// Whether the keys are equal.
pub fn same_key(a: &EvalKey, b: &EvalKey) -> bool
    ensures { result ≡ same_key a.now b.now }
{
    same_text(a.namespace(), b.namespace()) && same_number(a.number(), b.number())
}

/// Whether the name is among these.
pub fn has_name(names: &[Text], name: &Text) -> bool
    ensures { result ≡ has_name names.now name.now }
{
    names.iter().any(|other| same_text(name, other))
}

/// Whether the key is among these.
pub fn has_key(keys: &[EvalKey], key: &EvalKey) -> bool
    ensures { result ≡ has_key keys.now key.now }
{
    keys.iter().any(|other| same_key(key, other))
}
