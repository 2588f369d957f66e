//! The least value so far.

ghost use Rattle.std.specs.Prelude.{◌≡◌, IsTrue, ◌↔◌, Bool, Option, Some, None, if◌then◌else◌};
ghost use Rattle.std.specs.Option.{option_copied};
ghost use Rattle.aud_lattice.specs.Leasts.{reaches-least_of};
ghost use Rattle.aud_lattice.specs.Eithers.{either, either_laws};
ghost use Rattle.aud_lattice.specs.Least.{least_of, reaches};

use crate::Lattice;
use base_values::{Dup, Key, OutOfMemory};
use std::cmp::Ordering;
use std::marker::Model;

/// None, or the least value so far, seen as an `Option`.
#[derive(Drop)]
pub struct Least<T: Key + Dup> {
    item: Option<T>,
}

impl<T: Key + Dup> Model for Least<T> {
    ghost Value = { Option T };

    ghost view = { λ l. l.item };
}

impl<T: Key + Dup> Least<T> {
    /// No value yet.
    pub fn none() -> Least<T>
        ensures { result ≡ None }
    {
        Least { item: None }
    }

    /// The least value so far, lent.
    pub fn get(&self) -> Option<&T>
        ensures { option_copied result ≡ self.now }
    {
        self.item.as_ref()
    }

    /// Keeps the lesser of the item and the least so far. It does not allocate.
    pub fn put(&mut self, item: T)
        ensures { self.new ≡ least_of T.Ord.cmp self.old (Some item) }
    {
        if self.is_above(&item) {
            self.item = Some(item);
        }
    }

    // Whether the item is less than all so far.
    fn is_above(&self, item: &T) -> bool
        ensures { least_of T.Ord.cmp self.now (Some item.now) ≡ (if result then Some item.now else self.now) }
    {
        match &self.item {
            None => true,
            Some(old) => match old.cmp(item) {
                Ordering::Less => false,
                Ordering::Equal => false,
                Ordering::Greater => true,
            },
        }
    }
}

impl<T: Key + Dup> Lattice for Least<T> {
    ghost Meaning = { T → Bool };

    ghost meaning = { reaches T.Ord.cmp };

    ghost merge = { either };

    ghost join_of = { least_of T.Ord.cmp };

    ghost respects = { λ x y i q. reaches-least_of T.Ord.total x y q i };

    ghost laws = { either_laws };

    // Memory is asked for only where the other is less.
    fn join(&mut self, other: &Least<T>) -> Result<(), OutOfMemory> {
        if let Some(item) = &other.item {
            if self.is_above(item) {
                let copy = item.dup()?;
                self.item = Some(copy);
            }
        }
        Ok(())
    }

    fn same(&self, other: &Least<T>) -> bool {
        same_options(&self.item, &other.item)
    }
}

fn same_options<T: Key>(x: &Option<T>, y: &Option<T>) -> bool
    ensures { IsTrue result ↔ (x.now ≡ y.now) }
{
    match (x, y) {
        (None, None) => true,
        (Some(x), Some(y)) => same_item(x, y),
        (None, Some(_)) => false,
        (Some(_), None) => false,
    }
}

fn same_item<T: Key>(x: &T, y: &T) -> bool
    ensures { IsTrue result ↔ (x.now ≡ y.now) }
{
    x == y
}

impl<T: Key + Dup> Dup for Least<T> {
    fn dup(&self) -> Result<Least<T>, OutOfMemory> {
        match &self.item {
            None => Ok(Least { item: None }),
            Some(item) => {
                let copy = item.dup()?;
                Ok(Least { item: Some(copy) })
            }
        }
    }
}
