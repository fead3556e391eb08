//! The key of an evaluation: its namespace and its number there.

ghost use Rattle.std.specs.Prelude.{◌≡◌};

use crate::text::Text;
use std::alloc::AllocError;
use std::marker::Model;

/// An entry of a list of evaluations.
pub struct EvalKey {
    namespace: Text,
    number: u64,
}

impl Drop for EvalKey {
    fn drop(self) {
        let EvalKey {
            namespace: _namespace,
            number: _,
        } = self;
    }
}

impl Model for EvalKey {
    ghost use Rattle.std.specs.Prelude.{List, ℕ};

    ghost Value = { List ℕ × ℕ };

    ghost view = { λ k. (k.namespace, k.number) };
}

impl EvalKey {
    /// The key of the namespace's evaluation of that number.
    pub fn new(namespace: Text, number: u64) -> EvalKey
        ensures { result ≡ (namespace, number) }
    {
        EvalKey { namespace, number }
    }

    pub fn namespace(&self) -> &Text
        ensures { result.now ≡ self.now.0 }
    {
        &self.namespace
    }

    pub fn number(&self) -> u64
        ensures { result ≡ self.now.1 }
    {
        self.number
    }
}

impl Clone for EvalKey {
    ghost is_clone = { λ key copy. copy ≡ key };

    fn clone(&self) -> Result<EvalKey, AllocError> {
        let namespace = self.namespace.clone()?;
        Ok(EvalKey {
            namespace,
            number: self.number,
        })
    }
}
