//! Policies by name and tokens by secret.

ghost use Rattle.std.specs.Prelude.{◌≡◌, IfOk, option_copied};
ghost use Rattle.ns_types.specs.Asking.Policies.{create_token, delete_policy, delete_token, has_accessor, put_policy, read_policy, secret_of};
ghost use Rattle.ns_types.specs.Settling.Outcome.{Changes};
ghost use Rattle.ns_types.specs.Access.Rights.{bearer, granted, is_known, is_manager, pool_rights_of, rights_in, rights_of};
ghost use Rattle.ns_types.specs.Steps.{opening_acl};
ghost use Rattle.ns_acl.specs.Bearers.{bearer_of};
ghost use Rattle.ns_acl.specs.Tokens.{is_taken};

use crate::bearer::{TokenBearer, of_token};
use crate::copying::{copied_policies, copied_tokens};
use crate::gathering::Gathered;
use crate::shown::policy_content;
use crate::tables::{has_no_room, has_row, is_full, put, write_policy};
use crate::tokens::{self, add_token};
use keyed::NameTable;
use ns_types::acl::{Grants, Policy, PoolRights, Rights, RuleKind, Token};
use ns_types::refusal::Refusal;
use ns_types::reply::Content;
use ns_types::rows::Rows;
use ns_types::step::NewToken;
use ns_types::text::Text;
use std::alloc::{AllocError, Global};
use std::marker::Model;

/// The policy of a request without a secret.
const ANONYMOUS: &str = "anonymous";

const NO_RIGHTS: Rights = Rights {
    list_jobs: false,
    read_job: false,
    submit_job: false,
    alloc_lifecycle: false,
};

const ALL_RIGHTS: Rights = Rights {
    list_jobs: true,
    read_job: true,
    submit_job: true,
    alloc_lifecycle: true,
};

/// Policies by name and tokens by secret.
pub struct Acl {
    policies: NameTable<Policy>,
    /// By secret.
    pub(crate) tokens: NameTable<Token>,
    /// The names of the policies of a request without a secret: `anonymous` alone.
    anonymous: Rows<Text>,
}

impl Drop for Acl {
    fn drop(self) {
        let Acl {
            policies: _policies,
            tokens: _tokens,
            anonymous: _anonymous,
        } = self;
    }
}

impl Model for Acl {
    ghost use Rattle.std.specs.Prelude.{◌≡◌, ◌∷◌, [], codes};
    ghost use Rattle.std.specs.Coded;
    ghost use Rattle.std.specs.FinMap.{code};
    ghost use Rattle.keyed.specs.Table.{rows};
    ghost use Rattle.ns_types.specs.State.Rows.{Acl};

    ghost Value = { Acl };

    ghost coded = { Prim.hlevel (Coded.codes, code) };

    ghost view = { λ a. record { policies = rows a.policies; tokens = rows a.tokens } };

    ghost invariant = { λ a. a.anonymous ≡ codes "anonymous" ∷ [] };
}

fn rights_in(grants: Grants) -> Rights
    ensures { result ≡ rights_in grants }
{
    Rights {
        list_jobs: grants.list_jobs,
        read_job: grants.read_job,
        submit_job: grants.submit_job,
        alloc_lifecycle: grants.alloc_lifecycle,
    }
}

impl Acl {
    /// Access lists without a policy and with one token, a management token with that secret. Want of memory is the only error.
    pub fn new(alloc: Global, bootstrap: &Text) -> Result<Acl, AllocError>
        ensures { IfOk result (λ acl. acl ≡ opening_acl bootstrap.now) }
    {
        let mut tokens = NameTable::new(alloc);
        put(&mut tokens, bootstrap, tokens::bootstrap_token(alloc)?)?;
        let mut anonymous = Rows::new(alloc);
        anonymous.push(Text::from_str(alloc, ANONYMOUS)?)?;
        Ok(Acl {
            policies: NameTable::new(alloc),
            tokens,
            anonymous,
        })
    }

    /// A copy. Want of memory is the only error.
    pub fn copy(&self, alloc: Global) -> Result<Acl, AllocError>
        ensures { IfOk result (λ copy. copy ≡ self.now) }
    {
        Ok(Acl {
            policies: copied_policies(alloc, &self.policies)?,
            tokens: copied_tokens(alloc, &self.tokens)?,
            anonymous: self.anonymous.clone()?,
        })
    }

    /// The bearer of the secret. A request without a secret has the policy `anonymous`.
    fn bearer<'a>(&'a self, secret: Option<&Text>) -> TokenBearer<'a>
        ensures { bearer_of result ≡ bearer self.now (option_copied secret.entry) }
    {
        let Some(secret) = secret else {
            return TokenBearer::Holder(self.anonymous.as_slice());
        };
        match self.tokens.get(secret) {
            None => TokenBearer::Unknown,
            Some(token) => of_token(token),
        }
    }

    /// The rights that the policies with these names give for the name `target`. A policy that does not exist gives none.
    fn granted(&self, kind: RuleKind, policies: &[Text], target: &Text) -> Grants
        ensures { result ≡ granted self.now kind policies.now target.now }
    {
        let mut gathered = Gathered::new();
        for name in policies {
            if let Some(policy) = self.policies.get(name) {
                gathered = gathered.with_rules(kind, target, policy.rules.as_slice());
            }
        }
        gathered.grants()
    }

    /// What the secret may do in the namespace, which need not exist. It takes no memory.
    pub fn rights(&self, secret: Option<&Text>, namespace: &Text) -> Rights
        ensures { result ≡ rights_of self.now (option_copied secret.entry) namespace.now }
    {
        match self.bearer(secret) {
            TokenBearer::Unknown => NO_RIGHTS,
            TokenBearer::Manager => ALL_RIGHTS,
            TokenBearer::Holder(policies) => {
                rights_in(self.granted(RuleKind::Namespace, policies, namespace))
            }
        }
    }

    /// What the secret may do in the pool, which need not exist. It takes no memory.
    pub fn pool_rights(&self, secret: Option<&Text>, pool: &Text) -> PoolRights
        ensures { result ≡ pool_rights_of self.now (option_copied secret.entry) pool.now }
    {
        match self.bearer(secret) {
            TokenBearer::Unknown => PoolRights {
                read: false,
                write: false,
            },
            TokenBearer::Manager => PoolRights {
                read: true,
                write: true,
            },
            TokenBearer::Holder(policies) => {
                let grants = self.granted(RuleKind::Pool, policies, pool);
                PoolRights {
                    read: grants.read_pool,
                    write: grants.write_pool,
                }
            }
        }
    }

    /// Whether the secret is a token's, or absent.
    pub fn is_known(&self, secret: Option<&Text>) -> bool
        ensures { result ≡ is_known self.now (option_copied secret.entry) }
    {
        match self.bearer(secret) {
            TokenBearer::Unknown => false,
            TokenBearer::Manager | TokenBearer::Holder(_) => true,
        }
    }

    /// Whether the secret is a management token's.
    pub fn is_manager(&self, secret: Option<&Text>) -> bool
        ensures { result ≡ is_manager self.now (option_copied secret.entry) }
    {
        match self.bearer(secret) {
            TokenBearer::Manager => true,
            TokenBearer::Unknown | TokenBearer::Holder(_) => false,
        }
    }

    /// The policy, with its name. `NotFound`: there is none. Else want of memory is the only error.
    pub fn read_policy(&self, name: &Text) -> Result<Content, Refusal>
        ensures { Changes (read_policy name.now self.now) self.now result self.now }
    {
        let Some(policy) = self.policies.get(name) else {
            return Err(Refusal::NotFound);
        };
        let content = policy_content(name, policy)?;
        Ok(content)
    }

    /// Writes the policy, over the one with that name if there is one. `Full`: it is new, and there are 10,000. Else want of
    /// memory is the only error.
    pub fn put_policy(&mut self, name: &Text, policy: &Policy) -> Result<Content, Refusal>
        ensures { Changes (put_policy name.now policy.now self.old) self.old result self.new }
    {
        if is_full(&self.policies, name) {
            return Err(Refusal::Full);
        }
        write_policy(&mut self.policies, name, policy)?;
        Ok(Content::Written)
    }

    /// Deletes the policy. `NotFound`: there is none.
    pub fn delete_policy(&mut self, name: &Text) -> Result<Content, Refusal>
        ensures { Changes (delete_policy name.now self.old) self.old result self.new }
    {
        if !has_row(&self.policies, name) {
            return Err(Refusal::NotFound);
        }
        self.policies.remove(name);
        Ok(Content::Written)
    }

    /// Whether a token has that accessor.
    fn has_accessor(&self, accessor: &Text) -> bool
        ensures { result ≡ has_accessor self.now accessor.now }
    {
        tokens::has_accessor(self.tokens.as_slice(), accessor)
    }

    /// The secret of the token with that accessor.
    fn secret_of(&self, accessor: &Text) -> Option<&Text>
        ensures { option_copied result ≡ secret_of self.now accessor.now }
    {
        tokens::secret_of(self.tokens.as_slice(), accessor)
    }

    fn is_taken(&self, new: &NewToken) -> bool
        ensures { result ≡ is_taken new.now self.now }
    {
        has_row(&self.tokens, &new.secret) || self.has_accessor(&new.accessor)
    }

    /// Adds the token. `Conflict`: a token has its secret or its accessor. Then `Full`: there are 10,000. Else want of memory
    /// is the only error.
    pub fn create_token(&mut self, new: &NewToken) -> Result<Content, Refusal>
        ensures { Changes (create_token new.now self.old) self.old result self.new }
    {
        if self.is_taken(new) {
            return Err(Refusal::Conflict);
        }
        if has_no_room(&self.tokens) {
            return Err(Refusal::Full);
        }
        let shown = add_token(&mut self.tokens, new)?;
        Ok(Content::Token(shown))
    }

    /// Deletes the token with that accessor. `NotFound`: there is none. `InUse`: it is the bootstrap token. Else want of memory
    /// is the only error.
    pub fn delete_token(&mut self, accessor: &Text) -> Result<Content, Refusal>
        ensures { Changes (delete_token accessor.now self.old) self.old result self.new }
    {
        let Some(secret) = self.secret_of(accessor) else {
            return Err(Refusal::NotFound);
        };
        if tokens::is_bootstrap(accessor) {
            return Err(Refusal::InUse);
        }
        let secret = secret.clone()?;
        self.tokens.remove(&secret);
        Ok(Content::Written)
    }
}
