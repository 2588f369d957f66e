//! Values under keys, with keys that had a value.

ghost use Rattle.std.specs.Prelude.{◌≡◌, ◌<◌, ◌↔◌, IsTrue, [], Some, None, IfOk, OnErr, OnOk, MatchOption, is_none};
ghost use Rattle.base_undo.specs.Entries.{value_at, with_entry, without_entry, with_value, Ascend};
ghost use Rattle.base_undo.specs.Digests.{digest_entries};
ghost use Rattle.base_undo.specs.Keeps.{entries_in, back_kept, PassesEntry};
ghost use Rattle.base_undo.specs.Entries.{entry_cmp};
ghost use Rattle.std.specs.Cmp.Lexicographic.{slice_cmp};

use crate::digest::stir;
use crate::value::Value;
use base_values::{Dup, OutOfMemory};
use std::alloc::{Allocator, Global};
use std::cmp::Ordering;
use std::collections::BTreeMap;
use std::collections::btree_map::Iter;
use std::marker::Model;

/// Values under keys of i64: a set keeps nothing under a key, and a map a number. A key whose value was taken stays, with none,
/// so that taking it back wants no memory.
#[derive(Drop)]
pub struct TombstoneMap<V, A: Allocator = Global> {
    slots: BTreeMap<i64, Option<V>, A>,
}

impl<V, A: Allocator> Model for TombstoneMap<V, A> {
    ghost use Rattle.base_undo.specs.Keeps.{Slots};
    ghost use Rattle.base_undo.specs.Entries.{Ascend};

    ghost Value = { Slots V };

    ghost view = { λ k. k.slots.entries };

    ghost invariant = { λ k. Ascend k.slots.entries };
}

/// What has to be known to take a change of the values back.
#[derive(Clone, Copy)]
pub enum TombstoneChange<V> {
    /// The key had this value.
    Had(i64, V),
    /// The key was kept, and had no value.
    Lacked(i64),
    /// The key was not kept.
    Came(i64),
}

/// Writes what is under a key, if the key is kept, and answers what was there.
fn write_slot<V: Copy, A: Allocator + Drop>(
    slots: &mut BTreeMap<i64, Option<V>, A>,
    key: i64,
    value: Option<V>,
) -> Option<Option<V>>
    ensures was { result ≡ value_at slots.old.entries key }
    ensures after { slots.new.entries ≡ with_value slots.old.entries key value }
{
    match slots.get_mut(&key) {
        Some(slot) => {
            let was = *slot;
            *slot = value;
            Some(was)
        }
        None => None,
    }
}

/// The next key that has a value, with it. It is then no longer left.
fn next_entry<V: Copy>(left: &mut Iter<'_, i64, Option<V>>) -> Option<(i64, V)>
    ensures { PassesEntry left.old left.new result }
{
    while let Some((key, slot)) = left.next() {
        if let Some(value) = *slot {
            return Some((*key, value));
        }
    }
    None
}

fn have_same_entries<V: Value>(
    mut a: Iter<'_, i64, Option<V>>,
    mut b: Iter<'_, i64, Option<V>>,
) -> bool
    ensures { IsTrue result ↔ (entries_in a.entry ≡ entries_in b.entry) }
{
    loop {
        match next_entry(&mut a) {
            None => return next_entry(&mut b).is_none(),
            Some((j, v)) => match next_entry(&mut b) {
                None => return false,
                Some((k, w)) => {
                    if j != k || !v.same(&w) {
                        return false;
                    }
                }
            },
        }
    }
}

/// The order of two entries: by their keys, and then by what is under them.
fn entry_order<V: Value>(one: &(i64, V), other: &(i64, V)) -> Ordering
    ensures { result ≡ entry_cmp V.orders one.now other.now }
{
    match one.0.cmp(&other.0) {
        Ordering::Equal => one.1.order(&other.1),
        unequal => unequal,
    }
}

/// The order of what is left, the least key first.
fn order_left<V: Value>(
    mut a: Iter<'_, i64, Option<V>>,
    mut b: Iter<'_, i64, Option<V>>,
) -> Ordering
    ensures { result ≡ slice_cmp (entry_cmp V.orders) (entries_in a.entry) (entries_in b.entry) }
{
    loop {
        match next_entry(&mut a) {
            None => {
                if next_entry(&mut b).is_none() {
                    return Ordering::Equal;
                }
                return Ordering::Less;
            }
            Some(one) => match next_entry(&mut b) {
                None => return Ordering::Greater,
                Some(other) => {
                    let order = entry_order(&one, &other);
                    if order.is_ne() {
                        return order;
                    }
                }
            },
        }
    }
}

/// A digest with the entries that are left.
fn digest_left<V: Value>(start: u64, mut left: Iter<'_, i64, Option<V>>) -> u64
    ensures { result ≡ digest_entries V.stirs start (entries_in left.entry) }
{
    let mut digest = start;
    while let Some((key, value)) = next_entry(&mut left) {
        digest = value.stirred(stir(digest, key.cast_unsigned()));
    }
    digest
}

impl<V: Value, A: Allocator + Drop> TombstoneMap<V, A> {
    /// No keys. It does not allocate.
    pub fn new(alloc: A) -> TombstoneMap<V, A>
        ensures { result ≡ [] }
    {
        TombstoneMap {
            slots: BTreeMap::new(alloc),
        }
    }

    /// Whether the keys that have a value are the same, with their values, in linear time.
    pub fn same(&self, other: &TombstoneMap<V, A>) -> bool
        ensures { IsTrue result ↔ (entries_in self.now ≡ entries_in other.now) }
    {
        have_same_entries(self.slots.iter(), other.slots.iter())
    }

    /// The order of the entries, the least key first, in linear time.
    pub fn order(&self, other: &TombstoneMap<V, A>) -> Ordering
        ensures { result ≡ slice_cmp (entry_cmp V.orders) (entries_in self.now) (entries_in other.now) }
    {
        order_left(self.slots.iter(), other.slots.iter())
    }

    /// How many keys are kept.
    pub fn size(&self) -> usize {
        self.slots.len()
    }

    /// A digest with the entries, in linear time.
    pub fn digest(&self, start: u64) -> u64
        ensures { result ≡ digest_entries V.stirs start (entries_in self.now) }
    {
        digest_left(start, self.slots.iter())
    }

    /// What is under the key, if it is kept.
    fn slot(&self, key: i64) -> Option<Option<V>>
        ensures slot { result ≡ value_at self.now key }
        ensures order { Ascend self.now }
    {
        self.slots.get(&key).copied()
    }

    /// The value under the key, if it has one, in O(log n) steps.
    #[tactic(auto, using(crate::proofs::Keeping::facts))]
    pub fn get(&self, key: i64) -> Option<V>
        ensures value { result ≡ value_at (entries_in self.now) key }
        ensures order { Ascend (entries_in self.now) }
    {
        match self.slot(key) {
            Some(value) => value,
            None => None,
        }
    }

    #[tactic(auto, using(crate::proofs::Keeping::stays))]
    fn write(&mut self, key: i64, value: Option<V>) -> Option<Option<V>>
        ensures was { result ≡ value_at self.old key }
        ensures after { self.new ≡ with_value self.old key value }
        ensures order { Ascend self.old }
    {
        write_slot(&mut self.slots, key, value)
    }

    #[tactic(auto, using(crate::proofs::Keeping::stays))]
    fn forget(&mut self, key: i64)
        ensures { self.new ≡ without_entry self.old key }
    {
        let _value = self.slots.remove(&key);
    }

    /// Takes the value from under the key, if it has one, in O(log n) steps.
    #[tactic(auto, using(crate::proofs::Keeping::facts))]
    pub fn take(&mut self, key: i64) -> Option<TombstoneChange<V>>
        ensures was { is_none result ≡ is_none (value_at (entries_in self.old) key) }
        ensures after { entries_in self.new ≡ without_entry (entries_in self.old) key }
        ensures back { MatchOption result (self.new ≡ self.old) (λ change. back_kept self.new change ≡ self.old) }
    {
        match self.write(key, None) {
            Some(Some(value)) => Some(TombstoneChange::Had(key, value)),
            Some(None) => None,
            None => None,
        }
    }

    /// Takes back what the change was.
    pub fn back(&mut self, change: TombstoneChange<V>)
        ensures { self.new ≡ back_kept self.old change }
    {
        match change {
            TombstoneChange::Had(key, value) => {
                let _taken = self.write(key, Some(value));
            }
            TombstoneChange::Lacked(key) => {
                let _taken = self.write(key, None);
            }
            TombstoneChange::Came(key) => self.forget(key),
        }
    }
}

impl<V: Value, A: Allocator + Clone> TombstoneMap<V, A> {
    #[tactic(auto, using(crate::proofs::Keeping::stays))]
    fn insert(&mut self, key: i64, value: V) -> Result<Option<Option<V>>, OutOfMemory>
        ensures was { IfOk result (λ was. was ≡ value_at self.old key) }
        ensures after { OnOk result (self.new ≡ with_entry self.old key (Some value)) }
        ensures order { Ascend self.old }
        ensures err { OnErr result (self.new ≡ self.old) }
    {
        let was = self.slots.insert(key, Some(value))?;
        Ok(was)
    }

    /// Puts the value under the key, in O(log n) steps. A refused call leaves all as it is.
    #[tactic(auto, using(crate::proofs::Keeping::facts))]
    pub fn put(&mut self, key: i64, value: V) -> Result<TombstoneChange<V>, OutOfMemory>
        ensures after { OnOk result (entries_in self.new ≡ with_entry (entries_in self.old) key value) }
        ensures back { IfOk result (λ change. back_kept self.new change ≡ self.old) }
        ensures err { OnErr result (self.new ≡ self.old) }
    {
        match self.insert(key, value)? {
            Some(Some(old)) => Ok(TombstoneChange::Had(key, old)),
            Some(None) => Ok(TombstoneChange::Lacked(key)),
            None => Ok(TombstoneChange::Came(key)),
        }
    }
}

impl<V: Value, A: Allocator + Clone> Dup for TombstoneMap<V, A> {
    fn dup(&self) -> Result<TombstoneMap<V, A>, OutOfMemory> {
        let slots = self.slots.clone()?;
        Ok(TombstoneMap { slots })
    }
}
