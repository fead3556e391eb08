//! Finds the entries that a release wakes, and takes them out of the list.

ghost use Rattle.std.specs.Prelude.{◌≡◌, IfOk, List, OnErr, OnOk};
ghost use Rattle.ns_blocked.specs.Blocked.{CanAdd, entries_of};
ghost use Rattle.ns_blocked.specs.declared.entry.BlockedEvaluation.{BlockedEvaluation};
ghost use Rattle.ns_blocked.specs.Waking.{AreKeysAt, ArePassing, ArePresent, IsLeftWithout};
ghost use Rattle.ns_blocked.specs.Waking.{is_woken, keys_of_passing, wakes_of_pool};
ghost use Rattle.ns_blocked.specs.Waking.{wakes_of_quota, without_passing, woken_by};

use super::BlockedList;
use crate::finding::{add_pool, add_pools, add_quota, add_quotas};
use crate::releases::Releases;
use ns_types::key::EvalKey;
use ns_types::node::Class;
use ns_types::rows::Rows;
use ns_types::text::Text;
use std::alloc::AllocError;
use std::collections::BTreeSet;

impl BlockedList {
    /// The keys of the entries that the releases wake, in the list's order. Want of memory is the only error. It looks only at
    /// entries that wait for what is released, and changes nothing.
    pub fn woken(&self, releases: &Releases) -> Result<Rows<EvalKey>, AllocError>
        ensures { IfOk result (λ keys. keys ≡ woken_by releases.now (entries_of self.now)) }
    {
        let places = self.find_woken(releases)?;
        self.keys_at(places)
    }

    /// Takes the entries that the releases wake out of the list, and returns their keys in the list's order. Want of memory is
    /// the only error, and then nothing is changed. It looks only at entries that wait for what is released. Room for others
    /// stays.
    pub fn release(&mut self, releases: &Releases) -> Result<Vec<EvalKey>, AllocError>
        ensures woken { IfOk result
            (λ keys. keys.items ≡ woken_by releases.now (entries_of self.old)) }
        ensures rest { OnOk result (entries_of self.new
            ≡ without_passing (is_woken releases.now) (entries_of self.old)) }
        ensures err { OnErr result (self.new ≡ self.old) }
        ensures room { (es : List BlockedEvaluation) → CanAdd es self.old → CanAdd es self.new }
    {
        let places = self.find_woken(releases)?;
        self.take_places(places)
    }

    /// Takes the entries that a release of one pool wakes out of the list, and returns their keys in the list's order. Want of
    /// memory is the only error, and then nothing is changed.
    pub fn release_pool(
        &mut self,
        pool: &Text,
        classes: &[Class],
    ) -> Result<Vec<EvalKey>, AllocError>
        ensures woken { IfOk result (λ keys. keys.items
            ≡ keys_of_passing (wakes_of_pool pool.now classes.now) (entries_of self.old)) }
        ensures rest { OnOk result (entries_of self.new
            ≡ without_passing (wakes_of_pool pool.now classes.now) (entries_of self.old)) }
        ensures err { OnErr result (self.new ≡ self.old) }
        ensures room { (es : List BlockedEvaluation) → CanAdd es self.old → CanAdd es self.new }
    {
        let places = self.find_in_pool(pool, classes)?;
        self.take_places(places)
    }

    /// Takes the entries that a release of one quota wakes out of the list, and returns their keys in the list's order. Want
    /// of memory is the only error, and then nothing is changed.
    pub fn release_quota(&mut self, quota: &Text) -> Result<Vec<EvalKey>, AllocError>
        ensures woken { IfOk result (λ keys. keys.items
            ≡ keys_of_passing (wakes_of_quota quota.now) (entries_of self.old)) }
        ensures rest { OnOk result (entries_of self.new
            ≡ without_passing (wakes_of_quota quota.now) (entries_of self.old)) }
        ensures err { OnErr result (self.new ≡ self.old) }
        ensures room { (es : List BlockedEvaluation) → CanAdd es self.old → CanAdd es self.new }
    {
        let places = self.find_of_quota(quota)?;
        self.take_places(places)
    }

    /// The places of the entries that the releases wake.
    fn find_woken(&self, releases: &Releases) -> Result<BTreeSet<u64>, AllocError>
        ensures { IfOk result (λ places.
            ArePassing (is_woken releases.now) self.now places.keys) }
    {
        let mut places = BTreeSet::new(self.alloc);
        add_quotas(&self.groups, releases.quotas.as_slice(), &mut places)?;
        let pools = releases.pools.as_slice();
        add_pools(&self.queue, &self.groups, pools, &mut places)?;
        Ok(places)
    }

    fn find_in_pool(&self, pool: &Text, classes: &[Class]) -> Result<BTreeSet<u64>, AllocError>
        ensures { IfOk result (λ places.
            ArePassing (wakes_of_pool pool.now classes.now) self.now places.keys) }
    {
        let mut places = BTreeSet::new(self.alloc);
        add_pool(&self.queue, &self.groups, pool, classes, &mut places)?;
        Ok(places)
    }

    fn find_of_quota(&self, quota: &Text) -> Result<BTreeSet<u64>, AllocError>
        ensures { IfOk result (λ places.
            ArePassing (wakes_of_quota quota.now) self.now places.keys) }
    {
        let mut places = BTreeSet::new(self.alloc);
        add_quota(&self.groups, quota, &mut places)?;
        Ok(places)
    }

    /// The keys of the entries at these places, in the list's order.
    fn keys_at(&self, mut places: BTreeSet<u64>) -> Result<Rows<EvalKey>, AllocError>
        ensures { IfOk result (λ keys. AreKeysAt places.keys self.now keys) }
    {
        let mut keys = Vec::with_capacity(self.alloc, places.len())?;
        while let Some(place) = places.pop_first() {
            if let Some(entry) = self.at(place) {
                keys.push(entry.key.clone()?)?;
            }
        }
        Ok(Rows::from_vec(keys))
    }

    /// Takes the entries at these places out, from the last to the first, and returns their keys in the list's order.
    fn take_places(&mut self, mut places: BTreeSet<u64>) -> Result<Vec<EvalKey>, AllocError>
        requires { ArePresent places.keys self.old }
        ensures woken { IfOk result (λ keys. AreKeysAt places.keys self.old keys.items) }
        ensures rest { OnOk result (IsLeftWithout places.keys self.old self.new) }
        ensures err { OnErr result (self.new ≡ self.old) }
        ensures room { (es : List BlockedEvaluation) → CanAdd es self.old → CanAdd es self.new }
    {
        let mut keys = Vec::with_capacity(self.alloc, places.len())?;
        while let Some(place) = places.pop_last() {
            if let Some(key) = self.take_at(place) {
                keys.push_reserved(key);
            }
        }
        keys.reverse();
        Ok(keys)
    }
}
