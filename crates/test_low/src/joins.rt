//! Large sets, covers of long lists, and the laws of joins.

use crate::fixtures::end;
use aud_event::{Fact, OutOfMemory};
use aud_lattice::laws::{norm_of_firsts, norm_of_union, norm_with_norm};
use aud_lattice::{Cover, Lattice, Mark, UnionSet};
use std::alloc::Global;

fn moves_to_threads<T: Send + Sync>(_value: &T) {}

/// A thousand end marks put in by their counts, rising or falling.
fn thousand(alloc: Global, is_rising: bool) -> Result<UnionSet<Fact>, OutOfMemory> {
    let mut set = UnionSet::empty(alloc);
    for number in 0..1000u32 {
        let number = if is_rising { number } else { 999 - number };
        set.insert(end(number % 64, number))?;
    }
    moves_to_threads(&set);
    Ok(set)
}

/// How many facts a walk over the set gives, up to one that is not in the other.
fn walked(set: &UnionSet<Fact>, other: &UnionSet<Fact>) -> usize {
    let mut count = 0usize;
    for fact in set.items() {
        if !other.contains(fact) {
            return count;
        }
        count = count.wrapping_add(1);
    }
    count
}

fn thousands_agree(alloc: Global) -> Result<bool, OutOfMemory> {
    let rising = thousand(alloc, true)?;
    let falling = thousand(alloc, false)?;
    let lens = [rising.len(), walked(&rising, &falling)];
    Ok(lens == [1000; 2] && rising.same(&falling))
}

/// The cover of a list and one of an item.
fn cover_of(alloc: Global, list: &[u32], item: u32) -> Result<Cover<u32>, OutOfMemory> {
    let mut cover = Cover::empty(alloc);
    cover.insert(list)?;
    cover.insert(&[item])?;
    Ok(cover)
}

/// The covers of the list and one of two items, joined.
fn joined(alloc: Global, list: &[u32]) -> Result<Cover<u32>, OutOfMemory> {
    let mut cover = cover_of(alloc, list, 7)?;
    let other = cover_of(alloc, list, 8)?;
    cover.join(&other)?;
    Ok(cover)
}

/// Whether two covers that differ after a long list join.
fn long_lists_join(alloc: Global) -> Result<bool, OutOfMemory> {
    let mut list = [0u32; 1024];
    for item in 0..1024u32 {
        list[item as usize] = item;
    }
    let cover = joined(alloc, &list)?;
    Ok(cover.mark(&list) == Mark::Covered && cover.lists()?.len() == 3)
}

#[test]
fn large_sets_grow_in_any_order_and_long_lists_are_kept(rt: HostRuntime) {
    assert!(rt; thousands_agree(rt.alloc()) == Ok(true));
    assert!(rt; long_lists_join(rt.alloc()) == Ok(true));
}

#[test]
fn the_laws_hold(_rt: HostRuntime) {
    norm_of_union::<u32>();
    norm_with_norm::<u32>();
    norm_of_firsts::<u32>();
}
