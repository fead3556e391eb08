//! Why a text is refused as the rules of a policy.

ghost use Rattle.std.specs.Prelude.{◌≡◌};
ghost use Rattle.ns_policy.specs.declared.fault.RuleFault.TheVariants.{Memory};

use std::alloc::AllocError;
use thiserror::Error;

#[derive(Clone, Copy, Debug, PartialEq, Eq, Error)]
pub enum RuleFault {
    /// The text does not follow the grammar.
    #[error("the text is not a list of rules")]
    Syntax,
    /// A pattern, a policy or a capability is not valid.
    #[error("a pattern, a policy or a capability is not valid")]
    Value,
    #[error("out of memory")]
    Memory,
}

impl From<AllocError> for RuleFault {
    ghost from_gives = { λ _ e. e ≡ Memory };

    fn from(_error: AllocError) -> RuleFault {
        RuleFault::Memory
    }
}
