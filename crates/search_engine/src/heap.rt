//! The variables whose values may be chosen, those first that the last conflicts were about (VSIDS, by Moskewicz and others: Chaff,
//! engineering an efficient SAT solver, 2001).

use crate::literals::{NONE, Table, short};
use std::alloc::Global;

/// A heap of variables by their weights.
#[derive(Drop)]
pub(crate) struct Heap {
    pub weights: Table<f64>,
    /// What a conflict weighs now.
    pub step: f64,
    heap: Table<u32>,
    count: usize,
    /// Where in the heap each variable stands, or none.
    places: Table<u32>,
}

impl Heap {
    /// Of no variables. It does not allocate.
    pub(crate) fn empty(alloc: Global) -> Heap {
        Heap {
            weights: Table::new(alloc, 0.0),
            step: 1.0,
            heap: Table::new(alloc, 0),
            count: 0,
            places: Table::new(alloc, NONE),
        }
    }

    /// Whether some growth was refused.
    pub(crate) fn is_short(&self) -> bool {
        self.weights.is_short() | self.heap.is_short() | self.places.is_short()
    }
}

/// Room for so many variables.
pub(crate) fn make_heap(heap: &mut Heap, count: usize) {
    heap.weights.fill(count);
    heap.heap.fill(count);
    heap.places.fill(count);
}

/// Puts the variable at the place.
fn put(heap: &mut Heap, place: usize, variable: u32) {
    heap.heap.set(place, variable);
    heap.places.set(variable as usize, short(place));
}

/// Takes the variable at the place up to where no lighter one stands above it.
fn rise(heap: &mut Heap, from: usize) {
    let variable = heap.heap.at(from);
    let own = heap.weights.at(variable as usize);
    let mut place = from;
    for _ in 0..64 {
        if place == 0 {
            break;
        }
        let above = place.wrapping_sub(1) / 2;
        let other = heap.heap.at(above);
        if heap.weights.at(other as usize) >= own {
            break;
        }
        put(heap, place, other);
        place = above;
    }
    put(heap, place, variable);
}

/// Takes the variable at the top down to where no heavier one stands below it.
fn sink(heap: &mut Heap) {
    let variable = heap.heap.at(0);
    let own = heap.weights.at(variable as usize);
    let mut place: usize = 0;
    for _ in 0..64 {
        let mut below = place.wrapping_mul(2).wrapping_add(1);
        let mut other = heap.heap.at(below);
        let second = heap.heap.at(below.wrapping_add(1));
        if below.wrapping_add(1) < heap.count
            && heap.weights.at(second as usize) > heap.weights.at(other as usize)
        {
            below = below.wrapping_add(1);
            other = second;
        }
        if below >= heap.count || heap.weights.at(other as usize) <= own {
            break;
        }
        put(heap, place, other);
        place = below;
    }
    put(heap, place, variable);
}

/// Adds the variable, if it is not there.
pub(crate) fn insert(heap: &mut Heap, variable: usize) {
    if heap.places.at(variable) == NONE && variable < heap.places.len() {
        heap.heap.set(heap.count, short(variable));
        rise(heap, heap.count);
        heap.count = heap.count.wrapping_add(1);
    }
}

/// The heaviest variable.
pub(crate) fn heaviest(heap: &Heap) -> Option<u32> {
    if heap.count == 0 {
        None
    } else {
        Some(heap.heap.at(0))
    }
}

/// Takes the heaviest variable.
pub(crate) fn take_heaviest(heap: &mut Heap) -> Option<u32> {
    if heap.count == 0 {
        return None;
    }
    let variable = heap.heap.at(0);
    heap.count = heap.count.wrapping_sub(1);
    heap.places.set(variable as usize, NONE);
    if heap.count > 0 {
        let last = heap.heap.at(heap.count);
        put(heap, 0, last);
        sink(heap);
    }
    Some(variable)
}

/// A conflict was about the variable.
pub(crate) fn bump(heap: &mut Heap, variable: usize) {
    let now = heap.weights.at(variable) + heap.step;
    heap.weights.set(variable, now);
    if now > 1e100 {
        for weight in heap.weights.items_mut() {
            *weight *= 1e-100;
        }
        heap.step *= 1e-100;
    }
    let place = heap.places.at(variable);
    if place != NONE {
        rise(heap, place as usize);
    }
}
