//! A table by places: it grows without a word, and reads as nothing beyond its end.

use std::alloc::Global;

/// Items by their places. Where a place is none the table reads as `none`, and what is set there is lost. Where a growth is refused that is noted, so
/// whoever fills the table asks once, in the end, whether it is short of something.
#[derive(Drop)]
pub struct Table<T> {
    items: Vec<T>,
    none: T,
    is_short: bool,
}

impl<T: Copy + Drop> Table<T> {
    /// Without items. It does not allocate.
    pub fn new(alloc: Global, none: T) -> Table<T> {
        Table {
            items: Vec::new(alloc),
            none,
            is_short: false,
        }
    }

    /// Whether some growth was refused.
    pub fn is_short(&self) -> bool {
        self.is_short
    }

    /// How many items there are.
    pub fn len(&self) -> usize {
        self.items.len()
    }

    /// Whether there are no items.
    pub fn is_empty(&self) -> bool {
        self.items.len() == 0
    }

    /// The items, in their order.
    pub fn items(&self) -> &[T] {
        &self.items
    }

    /// The items, as a list of their own.
    pub fn into_items(self) -> Vec<T> {
        self.items
    }

    /// The items, to be changed or sorted.
    pub fn items_mut(&mut self) -> &mut [T] {
        &mut self.items
    }

    /// The items from one place up to another, or none.
    pub fn range(&self, from: usize, to: usize) -> &[T] {
        match self.items.get(from..to) {
            Some(found) => found,
            None => &[],
        }
    }

    /// The item at the place, or `none`.
    pub fn at(&self, place: usize) -> T {
        match self.items.get(place) {
            Some(item) => *item,
            None => self.none,
        }
    }

    /// Puts the item at the place, if there is one.
    pub fn set(&mut self, place: usize, item: T) {
        if place < self.items.len() {
            self.items[place] = item;
        }
    }

    /// Puts the item at the end.
    pub fn add(&mut self, item: T) {
        if self.items.push(item).is_err() {
            self.is_short = true;
        }
    }

    /// Puts the items at the end.
    pub fn add_all(&mut self, more: &[T]) {
        if self.items.extend_from_slice(more).is_err() {
            self.is_short = true;
        }
    }

    /// Makes the table so long, with `none` at the places that are new.
    pub fn fill(&mut self, count: usize) {
        for _ in self.items.len()..count {
            self.add(self.none);
        }
    }

    /// Takes the last item.
    pub fn pop(&mut self) -> Option<T> {
        self.items.pop()
    }

    /// Drops all items but the first ones, so many.
    pub fn truncate(&mut self, count: usize) {
        self.items.truncate(count);
    }

    /// Drops all items.
    pub fn clear(&mut self) {
        self.items.clear();
    }
}
