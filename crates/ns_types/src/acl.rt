//! Policies and tokens.

ghost use Rattle.std.specs.Prelude.{◌≡◌};

use crate::rows::Rows;
use crate::text::Text;
use std::alloc::AllocError;

#[derive(Clone, Copy, PartialEq, Eq)]
pub enum RuleKind {
    Namespace,
    Pool,
}

/// The names that begin with a text, or the one name that is the text.
#[derive(Drop)]
pub struct Pattern {
    pub text: Text,
    pub is_prefix: bool,
}

impl Clone for Pattern {
    ghost is_clone = { λ a b. b ≡ a };

    fn clone(&self) -> Result<Pattern, AllocError> {
        Ok(Pattern {
            text: self.text.clone()?,
            is_prefix: self.is_prefix,
        })
    }
}

/// What a rule grants, or that it denies.
#[derive(Clone, Copy, PartialEq, Eq)]
pub struct Grants {
    pub list_jobs: bool,
    pub read_job: bool,
    pub submit_job: bool,
    pub alloc_lifecycle: bool,
    pub read_pool: bool,
    pub write_pool: bool,
    pub deny: bool,
}

pub const NO_GRANTS: Grants = Grants {
    list_jobs: false,
    read_job: false,
    submit_job: false,
    alloc_lifecycle: false,
    read_pool: false,
    write_pool: false,
    deny: false,
};

pub struct Rule {
    pub kind: RuleKind,
    pub pattern: Pattern,
    pub grants: Grants,
}

impl Drop for Rule {
    fn drop(self) {
        let Rule {
            kind: _kind,
            pattern: _pattern,
            grants: _grants,
        } = self;
    }
}

impl Clone for Rule {
    ghost is_clone = { λ a b. b ≡ a };

    fn clone(&self) -> Result<Rule, AllocError> {
        Ok(Rule {
            kind: self.kind,
            pattern: self.pattern.clone()?,
            grants: self.grants,
        })
    }
}

/// A policy. The access lists have it by its name.
pub struct Policy {
    pub description: Text,
    /// The text of the rules, as given.
    pub text: Text,
    pub rules: Rows<Rule>,
}

impl Drop for Policy {
    fn drop(self) {
        let Policy {
            description: _description,
            text: _text,
            rules: _rules,
        } = self;
    }
}

impl Clone for Policy {
    ghost is_clone = { λ a b. b ≡ a };

    fn clone(&self) -> Result<Policy, AllocError> {
        Ok(Policy {
            description: self.description.clone()?,
            text: self.text.clone()?,
            rules: self.rules.clone()?,
        })
    }
}

#[derive(Clone, Copy, PartialEq, Eq)]
pub enum TokenKind {
    Client,
    Management,
}

/// A token. The access lists have it by its secret.
pub struct Token {
    /// The text of a UUID, in lower case with hyphens.
    pub accessor: Text,
    pub name: Text,
    pub kind: TokenKind,
    pub policies: Rows<Text>,
}

impl Drop for Token {
    fn drop(self) {
        let Token {
            accessor: _accessor,
            name: _name,
            kind: _,
            policies: _policies,
        } = self;
    }
}

/// What a secret may do in a namespace.
#[derive(Clone, Copy, PartialEq, Eq)]
pub struct Rights {
    pub list_jobs: bool,
    pub read_job: bool,
    pub submit_job: bool,
    pub alloc_lifecycle: bool,
}

/// What a secret may do in a pool.
#[derive(Clone, Copy, PartialEq, Eq)]
pub struct PoolRights {
    pub read: bool,
    pub write: bool,
}
