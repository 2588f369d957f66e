//! The items of a queue, with those that left.

ghost use Rattle.std.specs.Prelude.{◌≡◌, ◌↔◌, IsTrue, [], ◌∷◌, ◌++◌, OnErr, OnOk, MatchOption};
ghost use Rattle.base_undo.specs.declared.items.ItemsChange.TheVariants as ItemsChange;
ghost use Rattle.base_undo.specs.Digests.{digest_values};
ghost use Rattle.base_undo.specs.Keeps.{items_in, back_items, TakesFirst};
ghost use Rattle.std.specs.Ordering.{int_cmp};
ghost use Rattle.std.specs.Cmp.Lexicographic.{slice_cmp};

use crate::digest::stir;
use base_values::{Dup, OutOfMemory};
use std::alloc::{Allocator, Global};
use std::cmp::Ordering;
use std::marker::Model;

/// The items of a queue of i64. An item that left stays before the front, so that taking it back wants no memory.
#[derive(Drop)]
pub struct Items<A: Allocator = Global> {
    all: Vec<i64, A>,
    gone: usize,
}

impl<A: Allocator> Model for Items<A> {
    ghost use Rattle.base_undo.specs.Keeps.{ItemsOf};

    ghost Value = { ItemsOf };

    ghost use Rattle.std.specs.Prelude.{◌≤◌, length};

    ghost view = { λ q. record { all = q.all.items; gone = q.gone } };

    ghost invariant = { λ q. q.gone ≤ length q.all.items };
}

/// What has to be known to take a change of the items back.
#[derive(Clone, Copy)]
pub enum ItemsChange {
    /// An item came to the others.
    Came,
    /// The front item left.
    Left,
}

fn is_same_list(a: &[i64], b: &[i64]) -> bool
    ensures { IsTrue result ↔ (a.now ≡ b.now) }
{
    a == b
}

fn list_order(a: &[i64], b: &[i64]) -> Ordering
    ensures { result ≡ slice_cmp int_cmp a.now b.now }
{
    a.cmp(b)
}

/// A digest with the values.
fn digest_list(start: u64, values: &[i64]) -> u64
    ensures { result ≡ digest_values start values.now }
{
    let mut digest = start;
    for value in values {
        digest = stir(digest, value.cast_unsigned());
    }
    digest
}

impl<A: Allocator + Drop> Items<A> {
    /// No items. It does not allocate.
    pub fn new(alloc: A) -> Items<A>
        ensures { items_in result ≡ [] }
    {
        Items {
            all: Vec::new(alloc),
            gone: 0,
        }
    }

    /// Whether the items are the same, in one order, in linear time.
    pub fn same(&self, other: &Items<A>) -> bool
        ensures { IsTrue result ↔ (items_in self.now ≡ items_in other.now) }
    {
        is_same_list(self.left(), other.left())
    }

    /// The order of the items, the front first.
    pub fn order(&self, other: &Items<A>) -> Ordering
        ensures { result ≡ slice_cmp int_cmp (items_in self.now) (items_in other.now) }
    {
        list_order(self.left(), other.left())
    }

    /// How many items are kept.
    pub fn size(&self) -> usize {
        self.all.len()
    }

    /// A digest with the items, in linear time.
    pub fn digest(&self, start: u64) -> u64
        ensures { result ≡ digest_values start (items_in self.now) }
    {
        digest_list(start, self.left())
    }

    /// The items, the front first.
    pub fn left(&self) -> &[i64]
        ensures { result.now ≡ items_in self.now }
    {
        &self.all[self.gone..]
    }

    /// Puts an item after the others.
    pub fn enqueue(&mut self, item: i64) -> Result<(), OutOfMemory>
        ensures items { OnOk result (items_in self.new ≡ items_in self.old ++ item ∷ []) }
        ensures back { OnOk result (back_items self.new ItemsChange.Came ≡ self.old) }
        ensures err { OnErr result (self.new ≡ self.old) }
    {
        self.all.push(item)?;
        Ok(())
    }

    /// Takes the front item, if there is one.
    pub fn dequeue(&mut self) -> Option<i64>
        ensures items { TakesFirst (items_in self.old) (items_in self.new) result }
        ensures back { MatchOption result (self.new ≡ self.old) (λ _. back_items self.new ItemsChange.Left ≡ self.old) }
    {
        let front = self.all.get(self.gone).copied();
        if front.is_some() {
            self.gone += 1;
        }
        front
    }

    /// Takes back what the change was.
    pub fn back(&mut self, change: ItemsChange)
        ensures { self.new ≡ back_items self.old change }
    {
        match change {
            ItemsChange::Came => {
                if self.gone < self.all.len() {
                    let _last = self.all.pop();
                }
            }
            ItemsChange::Left => {
                if self.gone > 0 {
                    self.gone -= 1;
                }
            }
        }
    }
}

impl<A: Allocator + Clone> Dup for Items<A> {
    fn dup(&self) -> Result<Items<A>, OutOfMemory> {
        let all = self.all.clone()?;
        Ok(Items {
            all,
            gone: self.gone,
        })
    }
}
