//! A walk over the items of a tree, least first, that does not allocate.

ghost use Rattle.std.specs.Prelude.{◌≡◌, ◌<◌, ◌≤◌, ◌+◌, List, length, drop};
ghost use Rattle.std.specs.Iterator.{YieldsFirstRef, item_count};
ghost use Rattle.std.specs.Option.{option_copied};
ghost use Rattle.base_trees.specs.Trees.{IsPart, Found, items_of};

use crate::tree::{Link, Tree, at, count};
use base_values::Dup;
use std::alloc::{Allocator, Global};
use std::marker::Model;

// The most items of a part that a walk looks through place by place.
const PART: usize = 64;

// A part that has the place, and where it begins.
fn part_at<T: Dup, A: Allocator>(tree: &Link<T, A>, place: usize) -> (&Link<T, A>, usize)
    requires { place < length (items_of tree.now) }
    ensures part { IsPart (items_of tree.now) result.1 (items_of result.0.now) }
    ensures begun { result.1 ≤ place }
    ensures ends { place < result.1 + length (items_of result.0.now) }
{
    let Some(all) = tree else {
        return (tree, 0);
    };
    let Tree { left, right, .. } = &**all;
    let before = count(left);
    if count(tree) <= PART || place == before {
        (tree, 0)
    } else if place < before {
        part_at(left, place)
    } else {
        let (part, skip) = part_at(right, place - before - 1);
        (part, skip + before + 1)
    }
}

// The part that has the place: the one at hand, if it is small and has it.
fn part_for<'a, T: Dup, A: Allocator>(
    tree: &'a Link<T, A>,
    part: &'a Link<T, A>,
    skip: usize,
    place: usize,
) -> (&'a Link<T, A>, usize)
    requires known { IsPart (items_of tree.now) skip (items_of part.now) }
    requires in_range { place < length (items_of tree.now) }
    ensures part { IsPart (items_of tree.now) result.1 (items_of result.0.now) }
    ensures begun { result.1 ≤ place }
    ensures ends { place < result.1 + length (items_of result.0.now) }
{
    let size = count(part);
    if size > PART || place < skip {
        return part_at(tree, place);
    }
    if place - skip >= size {
        return part_at(tree, place);
    }
    (part, skip)
}

// What stands at the place of the whole tree.
#[tactic(auto, using(crate::proofs::Parts::in_part))]
fn at_part<'a, T: Dup, A: Allocator>(
    _tree: &'a Link<T, A>,
    part: &'a Link<T, A>,
    skip: usize,
    place: usize,
) -> Option<&'a T>
    requires part { IsPart (items_of _tree.now) skip (items_of part.now) }
    requires begun { skip ≤ place }
    requires ends { place < skip + length (items_of part.now) }
    ensures { Found (items_of _tree.now) place (option_copied result) }
{
    at(part, place - skip)
}

/// The items of a set that were not yet seen, least first.
#[derive(Drop)]
pub struct Iter<'a, T: Dup, A: Allocator = Global> {
    tree: &'a Link<T, A>,
    at: usize,
    part: &'a Link<T, A>,
    skip: usize,
}

impl<'a, T: Dup, A: Allocator> Model for Iter<'a, T, A> {
    ghost Value = { List T };

    ghost view = { λ w. drop w.at (items_of w.tree.now) };

    ghost invariant = { λ w. IsPart (items_of w.tree.now) w.skip (items_of w.part.now) };
}

impl<'a, T: Dup, A: Allocator> Iterator for Iter<'a, T, A> {
    type Item = &'a T;

    ghost next_gives = { YieldsFirstRef (λ w. w) };

    ghost remaining = { item_count (λ w. w) };

    fn next(&mut self) -> Option<&'a T> {
        if self.at >= count(self.tree) {
            return None;
        }
        let (part, skip) = part_for(self.tree, self.part, self.skip, self.at);
        self.part = part;
        self.skip = skip;
        let item = at_part(self.tree, part, skip, self.at)?;
        self.at += 1;
        Some(item)
    }
}

/// All items, from left to right. The walk does not allocate, and borrows the tree.
#[tactic(auto, using(crate::proofs::Parts::part_all))]
pub fn all_of<T: Dup, A: Allocator>(tree: &Link<T, A>) -> Iter<'_, T, A>
    ensures { result ≡ items_of tree.now }
{
    Iter {
        tree,
        at: 0,
        part: tree,
        skip: 0,
    }
}
