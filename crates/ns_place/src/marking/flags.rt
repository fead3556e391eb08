//! A flag for each number below 1,000.

use std::marker::Model;

/// Which numbers below 1,000 stand in a list, which is not held. Contracts see the flags, by number.
#[derive(Drop)]
pub struct Flags {
    set: [bool; 1000],
}

impl Model for Flags {
    ghost use Rattle.std.specs.Prelude.{Bool, List};

    ghost Value = { List Bool };

    ghost view = { λ f. f.set };
}

impl Flags {
    ghost use Rattle.std.specs.Prelude.{◌≡◌, ◌<◌, ◌++◌, ◌∷◌, [], ℕ, List};
    ghost use Rattle.ns_types.specs.State.Names.{has_number};
    ghost use Rattle.ns_place.specs.Marks.{AreFlags};

    /// Flags of an empty list.
    pub fn new() -> Flags
        ensures { AreFlags result [] }
    {
        Flags { set: [false; 1000] }
    }

    /// Flags the number, as if it were added to the end of the list.
    pub fn flag(&mut self, number: u64)
        requires { number < 1000 }
        ensures { (numbers : List ℕ) → AreFlags self.old numbers →
            AreFlags self.new (numbers ++ number ∷ []) }
    {
        self.set[number as usize] = true;
    }

    /// Whether the number stands in the list.
    pub fn has(&self, number: u64) -> bool
        requires { number < 1000 }
        ensures { (numbers : List ℕ) → AreFlags self.now numbers →
            result ≡ has_number numbers number }
    {
        self.set[number as usize]
    }
}
