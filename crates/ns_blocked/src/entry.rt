//! A blocked evaluation, what it waits for, and which classes wake it.

use keyed::Keyed;
use ns_types::key::EvalKey;
use ns_types::node::Class;
use ns_types::rows::Rows;
use ns_types::text::Text;

/// What a blocked evaluation waits for: its quota, or else its pool.
#[derive(Drop)]
pub enum Waits {
    Quota(Text),
    Pool(Text),
}

/// A blocked evaluation, what it waits for as long as it is blocked, and which classes of its pool wake it.
#[derive(Drop)]
pub struct BlockedEvaluation {
    pub key: EvalKey,
    pub waits: Waits,
    /// Whether every class wakes it.
    pub escapes: bool,
    /// The classes that do not wake it, unless `escapes` holds.
    pub infeasible: Rows<Class>,
}

impl Keyed for BlockedEvaluation {
    ghost key_of = { λ e. e.key };

    fn key(&self) -> &EvalKey {
        &self.key
    }
}
