//! Laws that say how long a namespace has its pools and its quotas to itself: only a put of a namespace can end it.

ghost use Rattle.ns_audit.specs.Staying.{ApartStep, HeldStep, StaysApart, StruckFromApart};

/// Whatever the state and the step: take an allocation that after the step is to stop, while its client status is still
/// `pending` or `running`. It was there before the step, with one of these client statuses and in the same pool.
pub fn held_step()
    ensures { HeldStep }
{}

/// In a state that has what isolation rests on, let a namespace have its pools and its quotas to itself. After any step but a
/// put of a namespace it still has them to itself.
pub fn apart_step()
    ensures { ApartStep }
{}

/// Take a run from a state that has what isolation rests on, as each valid state has, in which no put of the namespace's own is
/// refused because its table is full on the whole server. If the namespace has its pools and its quotas to itself at first and
/// after each put of a namespace, it has them to itself at every state. So this need be checked at first and after these puts
/// alone.
pub fn stays_apart()
    ensures { StaysApart }
{}

/// Take a run from a state that has what isolation rests on, in which no put of the namespace's own is refused because its
/// table is full on the whole server. Let the namespace have its pools and its quotas to itself at first and after each put of
/// a namespace. Strike out every step that is not its own. The rest is a run of the server that holds the namespace alone, with
/// the same answers, and in the end the namespace has the same.
pub fn struck_from_apart()
    ensures { StruckFromApart }
{}
