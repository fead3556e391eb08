//! A list of places, as those of a pool's nodes, in which a place below 1,000 is looked up at once.

ghost use Rattle.std.specs.Prelude.{◌≡◌};
ghost use Rattle.ns_types.specs.State.Names.{has_number};
ghost use Rattle.ns_place.specs.Marks.{AreFlags};

use crate::marking::flags::Flags;
use std::marker::Model;

/// The flags of the places that are below 1,000.
fn flags_of(places: &[u16]) -> Flags
    ensures { AreFlags result places.now }
{
    let mut flags = Flags::new();
    for place in places {
        if *place < 1000 {
            flags.flag(u64::from(*place));
        }
    }
    flags
}

#[tactic(auto, using(ns_types::proofs::Named::number_ties))]
fn has_number(places: &[u16], number: u64) -> bool
    ensures { result ≡ has_number places.now number }
{
    places.iter().any(|place| number == u64::from(*place))
}

/// A list of places. Contracts see the list.
#[derive(Drop)]
pub struct Places<'a> {
    places: &'a [u16],
    flags: Flags,
}

impl<'a> Model for Places<'a> {
    ghost use Rattle.std.specs.Prelude.{ℕ, List};
    ghost use Rattle.ns_place.specs.Marks.{AreFlags};

    ghost Value = { List ℕ };

    ghost view = { λ p. p.places.now };

    ghost invariant = { λ p. AreFlags p.flags p.places.now };
}

impl<'a> Places<'a> {
    ghost use Rattle.std.specs.Prelude.{◌≡◌};
    ghost use Rattle.ns_types.specs.State.Names.{has_number};

    /// The list of these places. It costs a walk over them.
    pub fn new(places: &'a [u16]) -> Places<'a>
        ensures { result ≡ places.now }
    {
        Places {
            places,
            flags: flags_of(places),
        }
    }

    pub fn as_slice(&self) -> &[u16]
        ensures { result.now ≡ self.now }
    {
        self.places
    }

    /// Whether the number is among the places. A number of 1,000 or more costs a walk.
    pub fn has(&self, number: u64) -> bool
        ensures { result ≡ has_number self.now number }
    {
        if number < 1000 {
            self.flags.has(number)
        } else {
            has_number(self.places, number)
        }
    }
}
