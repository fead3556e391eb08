//! Laws of the definitions, each the contract of a function that does nothing.

ghost use Rattle.std.specs.Prelude.{◌≡◌, filter, map, not};
ghost use Rattle.ns_blocked.specs.Waking.{entries_still_in, is_woken, released};
ghost use Rattle.ns_blocked.specs.Waking.{without_passing, woken_by};
ghost use Rattle.ns_types.specs.Settling.Releases.{woken};
ghost use Rattle.ns_types.specs.State.Names.{has_key};
ghost use Rattle.ns_types.specs.State.Rows.{World};

/// Of the entries that are in the list before the step and after its own change, the step's releases wake exactly those that
/// the model wakes, in the same order.
pub fn wakes_are_the_models()
    ensures { (w w' : World) → woken_by (released w w') (entries_still_in w w') ≡ woken w w' }
{}

/// Of these entries, the step's releases leave exactly those that the model leaves, in the same order.
pub fn the_rest_is_the_models()
    ensures { (w w' : World)
        → map (λ e. e.key) (without_passing (is_woken (released w w')) (entries_still_in w w'))
        ≡ filter (λ key. not (has_key (woken w w') key))
        (map (λ e. e.key) (entries_still_in w w')) }
{}
