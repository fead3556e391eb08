//! The records that administrators write: namespaces, quotas and pools, by name.

ghost use Rattle.std.specs.Prelude.{◌≡◌};

use crate::resources::Limits;
use crate::rows::Rows;
use crate::text::Text;
use std::alloc::AllocError;

pub struct Namespace {
    pub description: Text,
    pub quota: Option<Text>,
    pub default_pool: Text,
    pub allowed: Option<Rows<Text>>,
    pub denied: Rows<Text>,
}

impl Drop for Namespace {
    fn drop(self) {
        let Namespace {
            description: _description,
            quota: _quota,
            default_pool: _default_pool,
            allowed: _allowed,
            denied: _denied,
        } = self;
    }
}

impl Clone for Namespace {
    ghost is_clone = { λ a b. b ≡ a };

    fn clone(&self) -> Result<Namespace, AllocError> {
        Ok(Namespace {
            description: self.description.clone()?,
            quota: self.quota.clone()?,
            default_pool: self.default_pool.clone()?,
            allowed: self.allowed.clone()?,
            denied: self.denied.clone()?,
        })
    }
}

pub struct Quota {
    pub description: Text,
    /// Without an entry nothing is limited.
    pub limits: Option<Limits>,
}

impl Drop for Quota {
    fn drop(self) {
        let Quota {
            description: _description,
            limits: _limits,
        } = self;
    }
}

impl Clone for Quota {
    ghost is_clone = { λ a b. b ≡ a };

    fn clone(&self) -> Result<Quota, AllocError> {
        Ok(Quota {
            description: self.description.clone()?,
            limits: self.limits,
        })
    }
}

pub struct Pool {
    pub description: Text,
}

impl Drop for Pool {
    fn drop(self) {
        let Pool {
            description: _description,
        } = self;
    }
}

impl Clone for Pool {
    ghost is_clone = { λ a b. b ≡ a };

    fn clone(&self) -> Result<Pool, AllocError> {
        Ok(Pool {
            description: self.description.clone()?,
        })
    }
}
