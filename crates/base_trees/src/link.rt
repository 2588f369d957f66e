//! Trees of any sizes put beside each other, and a tree cut in two. Each takes as many new nodes as the deeper tree is deep, and
//! shares all others.

ghost use Rattle.std.specs.Prelude.{◌≡◌, ◌∷◌, ◌++◌, IfOk};
ghost use Rattle.std.specs.List.Sorted.{IsStrictlySortedBy};
ghost use Rattle.base_trees.specs.Cuts.{IsCut, AreAllIfAsMany};
ghost use Rattle.base_trees.specs.Trees.{items_of};

use crate::tree::{Link, Tree, balanced_left, balanced_right, count, node, shared};
use base_values::{Dup, Key, OutOfMemory};
use std::alloc::Allocator;
use std::cmp::Ordering;

/// A tree of a middle item and two sides of any sizes. It goes down the heavier side to where the lighter one weighs enough, and only
/// the nodes on that way are new, so it takes as many as the sides differ in depth.
pub fn link<T: Dup, A: Allocator + Clone>(
    alloc: &A,
    left: Link<T, A>,
    item: T,
    right: Link<T, A>,
) -> Result<Link<T, A>, OutOfMemory>
    ensures { IfOk result (λ tree. items_of tree ≡ items_of left ++ item ∷ items_of right) }
{
    let l = count(&left) + 1;
    let r = count(&right) + 1;
    match (&left, &right) {
        (Some(tree), _) if l > 3 * r => {
            let Tree {
                left: outer,
                item: first,
                right: near,
                ..
            } = &**tree;
            let grown = link(alloc, shared(near)?, item, right)?;
            balanced_right(alloc, outer, first, grown)
        }
        (_, Some(tree)) if r > 3 * l => {
            let Tree {
                left: near,
                item: last,
                right: outer,
                ..
            } = &**tree;
            let grown = link(alloc, left, item, shared(near)?)?;
            balanced_left(alloc, grown, last, outer)
        }
        _ => node(alloc, left, item, right),
    }
}

/// A tree of an item and two sides. Where these have all that a tree at hand has, it is that tree, which is shared.
pub fn relinked<T: Dup, A: Allocator + Clone>(
    alloc: &A,
    tree: &Link<T, A>,
    left: Link<T, A>,
    item: &T,
    right: Link<T, A>,
) -> Result<Link<T, A>, OutOfMemory>
    requires { AreAllIfAsMany (items_of tree.now) (items_of left) item.now (items_of right) }
    ensures { IfOk result (λ all. items_of all ≡ items_of left ++ item.now ∷ items_of right) }
{
    if count(&left) + count(&right) + 1 == count(tree) {
        shared(tree)
    } else {
        link(alloc, left, item.dup()?, right)
    }
}

/// What of the tree is less than the item, whether the item is there, and what is greater. Where all lies on one side, that is the same
/// tree still.
pub fn split<T: Key + Dup, A: Allocator + Clone>(
    alloc: &A,
    tree: &Link<T, A>,
    item: &T,
) -> Result<(Link<T, A>, bool, Link<T, A>), OutOfMemory>
    requires { IsStrictlySortedBy T.Ord.cmp (items_of tree.now) }
    ensures { IfOk result (λ cut. IsCut T.Ord.cmp item.now (items_of tree.now) (items_of cut.0) cut.1 (items_of cut.2)) }
{
    let Some(all) = tree else {
        return Ok((None, false, None));
    };
    let Tree {
        left,
        item: middle,
        right,
        ..
    } = &**all;
    match item.cmp(middle) {
        Ordering::Less => {
            let (before, is_there, between) = split(alloc, left, item)?;
            let after = relinked(alloc, tree, between, middle, shared(right)?)?;
            Ok((before, is_there, after))
        }
        Ordering::Equal => Ok((shared(left)?, true, shared(right)?)),
        Ordering::Greater => {
            let (between, is_there, after) = split(alloc, right, item)?;
            let before = relinked(alloc, tree, shared(left)?, middle, between)?;
            Ok((before, is_there, after))
        }
    }
}

// The first item, and a tree of the others.
fn first_apart<T: Dup, A: Allocator + Clone>(
    alloc: &A,
    tree: &Tree<T, A>,
) -> Result<(T, Link<T, A>), OutOfMemory>
    ensures { IfOk result (λ parts. tree.now ≡ parts.0 ∷ items_of parts.1) }
{
    let Tree {
        left,
        item,
        right,
        ..
    } = tree;
    let Some(below) = left else {
        return Ok((item.dup()?, shared(right)?));
    };
    let (first, rest) = first_apart(alloc, below)?;
    let rest = link(alloc, rest, item.dup()?, shared(right)?)?;
    Ok((first, rest))
}

/// The items of two trees of any sizes, one after the other.
pub fn beside<T: Dup, A: Allocator + Clone>(
    alloc: &A,
    left: Link<T, A>,
    right: Link<T, A>,
) -> Result<Link<T, A>, OutOfMemory>
    ensures { IfOk result (λ tree. items_of tree ≡ items_of left ++ items_of right) }
{
    match &right {
        None => Ok(left),
        Some(tree) => {
            let (first, rest) = first_apart(alloc, tree)?;
            link(alloc, left, first, rest)
        }
    }
}
