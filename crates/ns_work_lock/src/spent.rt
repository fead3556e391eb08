//! Entries that are needed no more, which are dropped one by one.

ghost use Rattle.std.specs.Prelude.{◌≡◌, ◌++◌, [], IfNone, IsSomeAnd, None, length, option_to_list};
ghost use Rattle.ns_work_lock.specs.Spending.{left, waiting};

use ns_log::Entry;
use ns_log::segments::Segment;
use std::mem;

/// Entries of two segments at most, which are needed no more.
#[derive(Drop)]
pub(crate) struct Spent {
    /// What is left of the earlier segment. It is dropped first.
    pub(crate) former: Option<Vec<Entry>>,
    pub(crate) last: Option<Vec<Entry>>,
}

/// How many entries are left.
fn count(entries: &Option<Vec<Entry>>) -> u64
    ensures { result ≡ length (left entries.now) }
{
    match entries {
        Some(entries) => entries.len() as u64,
        None => 0,
    }
}

/// Takes the last entry out, if one is left.
fn pop(entries: &mut Option<Vec<Entry>>) -> Option<Entry>
    ensures left { left entries.old ≡ left entries.new ++ option_to_list result }
    ensures none { IfNone result ((left entries.old ≡ []) × (left entries.new ≡ [])) }
{
    match entries {
        Some(entries) => entries.pop(),
        None => None,
    }
}

impl Spent {
    pub(crate) fn new() -> Spent
        ensures { result ≡ record { former = None; last = None } }
    {
        Spent {
            former: None,
            last: None,
        }
    }

    /// How many entries are left of the earlier segment and of the later one.
    pub(crate) fn counts(&self) -> (u64, u64)
        ensures { result ≡ (length (left self.now.former), length (left self.now.last)) }
    {
        (count(&self.former), count(&self.last))
    }

    /// Takes a segment's entries, and returns what is left of the segment before the last one.
    pub(crate) fn add(&mut self, segment: Segment) -> Option<Vec<Entry>>
        ensures out { result ≡ self.old.former }
        ensures former { self.new.former ≡ self.old.last }
        ensures last { IsSomeAnd self.new.last (λ entries. entries.items ≡ segment.log) }
    {
        let last = mem::replace(&mut self.last, Some(segment.into_log()));
        mem::replace(&mut self.former, last)
    }

    /// Takes out the entry that is dropped next, if one is left.
    pub(crate) fn take_out(&mut self) -> Option<Entry>
        ensures waiting { waiting self.old ≡ waiting self.new ++ option_to_list result }
        ensures none { IfNone result (waiting self.old ≡ []) }
    {
        match pop(&mut self.former) {
            Some(entry) => Some(entry),
            None => pop(&mut self.last),
        }
    }
}
