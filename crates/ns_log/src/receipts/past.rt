//! Receipts that are no longer in memory.

ghost use Rattle.std.specs.Borrow.{ftrue};
ghost use Rattle.std.specs.Prelude.{◌≡◌, ◌++◌, List, []};
ghost use Rattle.ns_log.specs.declared.receipts.receipt.Receipt.{Receipt};

use crate::receipts::receipt::Receipt;
use std::marker::Model;

/// Receipts in the order of the calls, which only contracts see. They take no memory, so nothing can be settled with them.
#[derive(Drop)]
pub struct Past {
    pub ghost receipts: { List Receipt },
}

impl Model for Past {
    ghost also_owns = { λ _. ftrue };
}

impl Past {
    /// No receipts yet.
    pub fn new() -> Past
        ensures { result.receipts ≡ [] }
    {
        Past {}
    }

    /// The receipts before, and behind them these.
    pub fn with(_before: &Past, _receipts: &Vec<Receipt>) -> Past
        ensures { result.receipts ≡ _before.now.receipts ++ _receipts.now.items }
    {
        Past {}
    }
}

// It owns nothing.
unsafe impl Send for Past {}
