//! The allocations that stop, by number.

use ns_place::marking::Marked;
use ns_types::snapshot::OwnAllocation;
use std::marker::Model;

/// Allocations of the job that stop, with their numbers. Contracts see the allocations.
#[derive(Drop)]
pub(crate) struct Stops<'a> {
    own: &'a [&'a OwnAllocation],
    numbers: Marked<'a>,
}

impl<'a> Model for Stops<'a> {
    ghost use Rattle.std.specs.Prelude.{◌≡◌, List, map};
    ghost use Rattle.ns_types.specs.declared.snapshot.OwnAllocation.{OwnAllocation};

    ghost Value = { List OwnAllocation };

    ghost view = { λ s. map (λ a. a.now) s.own.now };

    ghost invariant = { λ s. s.numbers ≡ map (λ a. a.number) (map (λ a. a.now) s.own.now) };
}

impl<'a> Stops<'a> {
    ghost use Rattle.std.specs.Prelude.{◌≡◌, map};
    ghost use Rattle.ns_types.specs.Placing.Plan.{is_among};

    /// The stops `own`, whose numbers are `numbers`. It costs a walk over the numbers.
    pub(crate) fn new(own: &'a [&'a OwnAllocation], numbers: &'a [u64]) -> Stops<'a>
        requires { numbers.now ≡ map (λ a. a.number) (map (λ a. a.now) own.now) }
        ensures { result ≡ map (λ a. a.now) own.now }
    {
        Stops {
            own,
            numbers: Marked::new(numbers),
        }
    }

    pub(crate) fn as_slice(&self) -> &[&OwnAllocation]
        ensures { map (λ a. a.now) result.now ≡ self.now }
    {
        self.own
    }

    /// Whether one of the stops has the number. It costs no walk if their numbers rise.
    pub(crate) fn has(&self, number: u64) -> bool
        ensures { result ≡ is_among self.now number }
    {
        self.numbers.has(number)
    }
}
