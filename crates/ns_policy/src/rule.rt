//! Which rights the words of a rule give, and for which names.

ghost use Rattle.std.specs.Prelude.{◌≡◌, ◌∷◌, ◌++◌, [], Ok};
ghost use Rattle.ns_policy.specs.Rules.{Gives, same, name_kind, namespace_policy, pool_policy, with_policy, namespace_capability, pool_capability, with_capability, pattern_of};

use crate::fault::RuleFault;
use ns_types::acl::{Grants, Pattern, Rule, RuleKind};
use ns_types::name::{NameKind, has_name_bytes};
use ns_types::rows::Rows;
use ns_types::text::Text;
use std::alloc::Global;

fn namespace_policy(grants: Grants, word: &[u8]) -> Result<Grants, RuleFault>
    ensures { Gives same result (namespace_policy word.now grants) }
{
    if word == b"deny".as_slice() {
        return Ok(Grants {
            deny: true,
            ..grants
        });
    }
    if word == b"read".as_slice() {
        return Ok(Grants {
            list_jobs: true,
            read_job: true,
            ..grants
        });
    }
    if word == b"write".as_slice() {
        return Ok(Grants {
            list_jobs: true,
            read_job: true,
            submit_job: true,
            alloc_lifecycle: true,
            ..grants
        });
    }
    if word == b"scale".as_slice() {
        return Ok(grants);
    }
    Err(RuleFault::Value)
}

fn pool_policy(grants: Grants, word: &[u8]) -> Result<Grants, RuleFault>
    ensures { Gives same result (pool_policy word.now grants) }
{
    if word == b"deny".as_slice() {
        return Ok(Grants {
            deny: true,
            ..grants
        });
    }
    if word == b"read".as_slice() {
        return Ok(Grants {
            read_pool: true,
            ..grants
        });
    }
    if word == b"write".as_slice() {
        return Ok(Grants {
            read_pool: true,
            write_pool: true,
            ..grants
        });
    }
    Err(RuleFault::Value)
}

/// The rights that a rule gives once it has this policy. `Value`: there is no such policy.
#[tactic(auto, unfolding(crate::specs::Rules::with_policy))]
pub fn with_policy(kind: RuleKind, grants: Grants, word: &[u8]) -> Result<Grants, RuleFault>
    ensures { Gives same result (with_policy kind word.now grants) }
{
    match kind {
        RuleKind::Namespace => namespace_policy(grants, word),
        RuleKind::Pool => pool_policy(grants, word),
    }
}

fn namespace_capability(grants: Grants, word: &[u8]) -> Grants
    ensures { result ≡ namespace_capability word.now grants }
{
    if word == b"deny".as_slice() {
        return Grants {
            deny: true,
            ..grants
        };
    }
    if word == b"list-jobs".as_slice() {
        return Grants {
            list_jobs: true,
            ..grants
        };
    }
    if word == b"read-job".as_slice() {
        return Grants {
            read_job: true,
            ..grants
        };
    }
    if word == b"submit-job".as_slice() {
        return Grants {
            submit_job: true,
            ..grants
        };
    }
    if word == b"alloc-lifecycle".as_slice() {
        return Grants {
            alloc_lifecycle: true,
            ..grants
        };
    }
    grants
}

fn pool_capability(grants: Grants, word: &[u8]) -> Result<Grants, RuleFault>
    ensures { Gives same result (pool_capability word.now grants) }
{
    if word == b"delete".as_slice() {
        return Ok(grants);
    }
    pool_policy(grants, word)
}

/// The rights that a rule gives with one more capability. `Value`: a pool has no such capability; for a namespace an unknown
/// one gives nothing.
#[tactic(auto, unfolding(crate::specs::Rules::with_capability))]
pub fn with_capability(kind: RuleKind, grants: Grants, word: &[u8]) -> Result<Grants, RuleFault>
    ensures { Gives same result (with_capability kind word.now grants) }
{
    match kind {
        RuleKind::Namespace => Ok(namespace_capability(grants, word)),
        RuleKind::Pool => pool_capability(grants, word),
    }
}

fn name_kind(kind: RuleKind) -> NameKind
    ensures { result ≡ name_kind kind }
{
    match kind {
        RuleKind::Namespace => NameKind::Namespace,
        RuleKind::Pool => NameKind::Pool,
    }
}

const MAX_NAME: usize = 128;

/// The rules with one more at their end. Want of memory is the only error.
pub fn one_more(rules: Rows<Rule>, rule: Rule) -> Result<Rows<Rule>, RuleFault>
    ensures { Gives same result (Ok (rules ++ rule ∷ [])) }
{
    let mut rules = rules;
    match rules.push(rule) {
        Ok(()) => Ok(rules),
        Err(_) => {
            drop(rules);
            Err(RuleFault::Memory)
        }
    }
}

/// The pattern that a label spells. `Value`: it is no name, and no beginning of names with a star behind it.
#[tactic(auto, using(crate::proofs::Patterns::names_are_utf8), unfolding(crate::specs::Rules::pattern_of))]
pub fn read_pattern(alloc: Global, kind: RuleKind, label: &[u8]) -> Result<Pattern, RuleFault>
    ensures { Gives same result (pattern_of kind label.now) }
{
    let (last, front) = label.split_last().ok_or(RuleFault::Value)?;
    let is_prefix = *last == b'*';
    let name = if is_prefix { front } else { label };
    if label.len() > MAX_NAME || !has_name_bytes(name_kind(kind), name) {
        return Err(RuleFault::Value);
    }
    let name = str::from_utf8(name).map_err(|_| RuleFault::Value)?;
    let text = Text::from_str(alloc, name)?;
    Ok(Pattern { text, is_prefix })
}
