//! A list of numbers, in which a number is looked up without a walk if they rise.

ghost use Rattle.std.specs.Prelude.{◌≡◌, ◌<◌, IsTrue, ℕ, length, slice_index_or, take};
ghost use Rattle.std.specs.List.Sorted.{IsNonDecreasing};
ghost use Rattle.ns_types.specs.State.Names.{has_number};

use std::marker::Model;

#[tactic(auto, using(ns_types::proofs::Named::number_ties))]
fn has_number(numbers: &[u64], number: u64) -> bool
    ensures { result ≡ has_number numbers.now number }
{
    numbers.iter().any(|n| number == *n)
}

/// Whether no number is less than the one before.
fn rises(numbers: &[u64]) -> bool
    ensures { IsTrue result → IsNonDecreasing numbers.now }
{
    numbers.is_sorted()
}

/// Whether the number is among numbers that rise, by a binary search.
fn is_in_rising(numbers: &[u64], number: u64) -> bool
    requires { IsNonDecreasing numbers.now }
    ensures { result ≡ has_number numbers.now number }
{
    numbers.binary_search(&number).is_ok()
}

/// Whether the number at the place equals the number before it, in numbers that rise.
fn is_repeated(numbers: &[u64], place: usize) -> bool
    requires rises { IsNonDecreasing numbers.now }
    requires inside { place < length numbers.now }
    ensures { (d : ℕ) → result ≡
        has_number (take place numbers.now) (slice_index_or numbers.now place d) }
{
    place > 0 && numbers[place - 1] == numbers[place]
}

/// A list of numbers. Contracts see the list.
#[derive(Drop)]
pub struct Marked<'a> {
    numbers: &'a [u64],
    rises: bool,
}

impl<'a> Model for Marked<'a> {
    ghost use Rattle.std.specs.Prelude.{IsTrue, ℕ, List};
    ghost use Rattle.std.specs.List.Sorted.{IsNonDecreasing};

    ghost Value = { List ℕ };

    ghost view = { λ m. m.numbers.now };

    ghost invariant = { λ m. IsTrue m.rises → IsNonDecreasing m.numbers.now };
}

impl<'a> Marked<'a> {
    ghost use Rattle.std.specs.Prelude.{◌≡◌, ◌<◌, ℕ, length, slice_index_or, take};
    ghost use Rattle.ns_types.specs.State.Names.{has_number};

    /// The list of these numbers. It costs a walk over them.
    pub fn new(numbers: &'a [u64]) -> Marked<'a>
        ensures { result ≡ numbers.now }
    {
        Marked {
            numbers,
            rises: rises(numbers),
        }
    }

    pub fn as_slice(&self) -> &[u64]
        ensures { result.now ≡ self.now }
    {
        self.numbers
    }

    /// Whether the number is among them. Where the numbers rise it is a binary search, else it costs a walk.
    pub fn has(&self, number: u64) -> bool
        ensures { result ≡ has_number self.now number }
    {
        if self.rises {
            is_in_rising(self.numbers, number)
        } else {
            has_number(self.numbers, number)
        }
    }

    /// Whether the number at the place stands earlier too. Where the numbers rise only the one before it is looked at. Else
    /// it costs a walk over all before it.
    pub fn stands_earlier(&self, place: usize) -> bool
        requires { place < length self.now }
        ensures { (d : ℕ) → result ≡
            has_number (take place self.now) (slice_index_or self.now place d) }
    {
        if self.rises {
            is_repeated(self.numbers, place)
        } else {
            has_number(&self.numbers[..place], self.numbers[place])
        }
    }
}
