//! Decides whether the receipts of a seat stay in memory.

ghost use Rattle.std.specs.Prelude.{◌≡◌, Bool, false, true};

/// Whether the receipts of a seat stay in memory.
pub trait Retention: Drop {
    ghost retains: { Bool };

    fn retains() -> bool
        ensures { result ≡ retains };
}

/// All receipts stay, so that the seat can be settled.
#[derive(Drop)]
pub struct Retains;

impl Retention for Retains {
    ghost retains = { true };

    fn retains() -> bool {
        true
    }
}

/// Each call drops the receipts of the calls before it, so that the seat stays small. Such a seat can't be settled.
#[derive(Drop)]
pub struct Forgets;

impl Retention for Forgets {
    ghost retains = { false };

    fn retains() -> bool {
        false
    }
}
