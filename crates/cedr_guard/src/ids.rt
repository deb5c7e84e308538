ghost use Rattle.std.specs.Prelude.{◌≡◌, ◌==◌, ◌<◌, ◌++◌, map, ℕ, None, Some, IfOk, OnErr, IsTrue, true, is_some, ◌↔◌, AllPairs, is_none, if◌then◌else◌};
ghost use Rattle.std.specs.Option.{option_or};
ghost use Rattle.std.specs.Ordering.{nat_cmp};
ghost use Rattle.std.specs.BTreeMap.{get, IsOrdered};
ghost use Rattle.std.proofs.Props.{props};
ghost use Rattle.std.specs.List.Sorted.{IsPermutation, IsNonDecreasingBy};
ghost use Rattle.cedr_guard.specs.declared.state.EventState.{EventState};
ghost use Rattle.cedr_guard.specs.Ids.{place_among, AreRising, AreBelow, entry_id, place_entry, placed_from, place_of_id};

use crate::state::EventState;
use cedr_base::OutOfMemory;
use std::alloc::Global;
use std::collections::BTreeMap;
use std::collections::btree_map::Entry;

/// An id and its place.
#[derive(Clone, Copy)]
pub(crate) struct IdPlace {
    pub(crate) id: u64,
    pub(crate) place: usize,
}

/// Ids, each with a place: those that were above all before them in a list, the others in an ordered map.
#[derive(Drop)]
pub(crate) struct Ids {
    /// Each id that was above all before it.
    rising: Vec<IdPlace>,
    /// The others.
    others: BTreeMap<u64, usize>,
    ghost rises: { AreRising rising.items },
    ghost below: { (id : ℕ) → AreBelow id rising.items → get nat_cmp others id ≡ None } by { Prim.hlevel props },
    ghost apart: { (id : ℕ) → is_some (place_among id rising.items) ≡ true → get nat_cmp others id ≡ None } by { Prim.hlevel props },
}

/// Where an id stands in a list whose ids have even gaps. In a list with other gaps another id may stand there.
fn even_index(rising: &[IdPlace], id: u64) -> Option<usize> {
    let first = rising.first()?.id;
    let span = rising.last()?.id.checked_sub(first)?;
    let reach = u128::from(id.checked_sub(first)?);
    let steps = reach.checked_mul(rising.len() as u128 - 1)?;
    usize::try_from(steps.checked_div(u128::from(span))?).ok()
}

/// The place of an id in a list whose ids ascend, by a binary search.
fn searched_place(rising: &[IdPlace], id: u64) -> Option<usize>
    requires { AreRising rising.now }
    ensures { result ≡ place_among id rising.now }
{
    match rising.binary_search_by_key(&id, |entry| entry.id) {
        Ok(index) => Some(rising[index].place),
        Err(_) => None,
    }
}

/// The place of an id in a list whose ids ascend. O(1) where they have even gaps, else O(log n).
fn place_among(rising: &[IdPlace], id: u64) -> Option<usize>
    requires { AreRising rising.now }
    ensures { result ≡ place_among id rising.now }
{
    let index = even_index(rising, id).unwrap_or(0);
    match rising.get(index) {
        Some(entry) if entry.id == id => Some(entry.place),
        _ => searched_place(rising, id),
    }
}

/// The ids of events, each with its place among them. O(n).
fn placed(alloc: Global, events: &[EventState]) -> Result<Vec<IdPlace>, OutOfMemory>
    ensures { IfOk result (λ entries. entries.items ≡ placed_from 0 events.now) }
{
    let mut entries = Vec::with_capacity(alloc, events.len())?;
    for (place, event) in events.iter().enumerate() {
        entries.push(IdPlace {
            id: event.id,
            place,
        })?;
    }
    Ok(entries)
}

/// Sorts ids with their places by the ids. It takes no memory.
fn sort_by_id(entries: &mut Vec<IdPlace>)
    ensures same { IsPermutation entries.old.items entries.new.items }
    ensures sorted { IsNonDecreasingBy entry_id entries.new.items }
{
    entries.sort_unstable_by_key(|entry| entry.id);
}

impl Ids {
    ghost use Rattle.cedr_guard.specs.Standing.{place_in};

    /// It takes no memory.
    pub(crate) fn new(alloc: Global) -> Ids
        ensures { (id : ℕ) → place_in result id ≡ None }
    {
        Ids {
            rising: Vec::new(alloc),
            others: BTreeMap::new(alloc),
        }
    }

    /// Ids of events that ascend, each with its place among them. O(n).
    pub(crate) fn of_events(alloc: Global, events: &[EventState]) -> Result<Ids, OutOfMemory>
        requires { AllPairs (λ (e : EventState) (later : EventState). e.id < later.id) events.now }
        ensures { IfOk result (λ ids. (id : ℕ) → place_in ids id ≡ place_of_id id events.now) }
    {
        let rising = placed(alloc, events)?;
        let others = BTreeMap::new(alloc);
        Ok(Ids { rising, others })
    }

    /// Each id with its place, by ascending ids. O(n log n).
    pub(crate) fn in_order(&self, alloc: Global) -> Result<Vec<IdPlace>, OutOfMemory>
        ensures rising { IfOk result (λ entries. AreRising entries.items) }
        ensures places { IfOk result (λ entries. (id : ℕ) → place_among id entries.items ≡ place_in self.now id) }
    {
        let mut entries = self.gathered(alloc)?;
        sort_by_id(&mut entries);
        Ok(entries)
    }

    /// Each id with its place: those in the list, and then the others.
    fn gathered(&self, alloc: Global) -> Result<Vec<IdPlace>, OutOfMemory>
        ensures all { IfOk result (λ entries. entries.items ≡ self.now.rising.items ++ map place_entry self.now.others.entries) }
        ensures ordered { IfOk result (λ _. IsOrdered nat_cmp self.now.others) }
    {
        let mut entries = Vec::from_slice(alloc, &self.rising)?;
        for (id, place) in &self.others {
            entries.push(IdPlace {
                id: *id,
                place: *place,
            })?;
        }
        Ok(entries)
    }

    /// Whether an id is above all in the list, and so above all others. O(1).
    fn is_above(&self, id: u64) -> bool
        ensures { IsTrue result ↔ AreBelow id self.now.rising.items }
    {
        match self.rising.last() {
            Some(last) => last.id < id,
            None => true,
        }
    }

    /// The place of an id. O(1) where the ids before it ascended with even gaps, else O(log n).
    pub(crate) fn place(&self, id: u64) -> Option<usize>
        ensures { result ≡ place_in self.now id }
    {
        match place_among(&self.rising, id) {
            Some(place) => Some(place),
            None => self.others.get(&id).copied(),
        }
    }

    /// Gives a new id its place, and answers whether it is new: one that has a place keeps it. O(1) where the
    /// id is above all before it, else O(log n). Where memory runs out nothing changes.
    pub(crate) fn insert(&mut self, id: u64, place: usize) -> Result<bool, OutOfMemory>
        ensures new { IfOk result (λ new. new ≡ is_none (place_in self.old id)) }
        ensures places { IfOk result (λ _. (q : ℕ) → place_in self.new q ≡ option_or (place_in self.old q) (if id == q then Some place else None)) }
        ensures err { OnErr result ((q : ℕ) → place_in self.new q ≡ place_in self.old q) }
    {
        if self.is_above(id) {
            self.rising.push(IdPlace { id, place })?;
            return Ok(true);
        }
        if place_among(&self.rising, id).is_some() {
            return Ok(false);
        }
        match self.others.entry(id)? {
            Entry::Occupied(_) => Ok(false),
            Entry::Vacant(vacant) => {
                vacant.insert(place);
                Ok(true)
            }
        }
    }
}
