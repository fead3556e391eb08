//! Evictions that are gone through one by one.

ghost use Rattle.std.specs.Prelude.{◌≡◌, ◌∷◌, [], List, MatchOption};
ghost use Rattle.ns_types.specs.declared.plan.Eviction.{Eviction};

use ns_types::plan::Eviction;

/// Evictions in their order. It takes no memory to go through them.
pub trait Evictions: Copy {
    /// The evictions as a list.
    ghost list: { Self → List Eviction };

    /// The first eviction, and the others in their order.
    fn split_first(&self) -> Option<(&Eviction, Self)>
        ensures { MatchOption result (list self.now ≡ [])
            (λ split. list self.now ≡ split.0.now ∷ list split.1) };
}

impl Evictions for &[Eviction] {
    ghost list = { λ s. s.now };

    fn split_first(&self) -> Option<(&Eviction, Self)> {
        let evictions: &[Eviction] = *self;
        match evictions {
            [first, others @ ..] => Some((first, others)),
            [] => None,
        }
    }
}
