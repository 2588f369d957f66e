//! A balanced search tree whose nodes are shared: a changed tree keeps what it did not change of the old one.

ghost use Rattle.std.specs.Prelude.{◌≡◌, ◌∷◌, ◌++◌, ◌<◌, ◌^◌, ◌+◌, ◌*◌, length, IfOk};
ghost use Rattle.std.specs.List.Sorted.{IsStrictlySortedBy};
ghost use Rattle.std.specs.Option.{option_copied};
ghost use Rattle.base_sorted.specs.Sets.{has};
ghost use Rattle.base_trees.specs.Trees.{Found, items_of, AreBalanced, NearlyBalanced, IsHeavy, IsToPart, IsWithNew};

use base_values::{Dup, Key, OutOfMemory};
use std::alloc::{Allocator, Global};
use std::cmp::Ordering;
use std::marker::Model;
use std::sync::Arc;

// The most items: more than any memory holds.
const LIMIT: usize = 0x1000_0000_0000;

/// No tree, or a shared one. It has no allocator of its own: calls that make nodes are handed one.
pub type Link<T, A> = Option<Arc<Tree<T, A>, A>>;

/// A tree that is not empty, seen as its items from left to right. Of each node no side is more than three times
/// the other, each counted with one more, so it is at most two and a half times as deep as a full tree.
#[derive(Drop)]
pub struct Tree<T: Dup, A: Allocator = Global> {
    pub(crate) left: Link<T, A>,
    pub(crate) item: T,
    pub(crate) count: usize,
    pub(crate) right: Link<T, A>,
}

impl<T: Dup, A: Allocator> Model for Tree<T, A> {
    ghost use Rattle.std.specs.Prelude.{List, ◌∷◌, ◌++◌, length, ◌≡◌, ◌<◌, ◌^◌};
    ghost use Rattle.base_trees.specs.Trees.{items_of, AreBalanced};

    ghost Value = { List T };

    ghost view = { λ t. items_of t.left ++ t.item ∷ items_of t.right };

    ghost invariant = { λ t. (t.count ≡ length (items_of t.left ++ t.item ∷ items_of t.right)) × (t.count < 2 ^ 60)
        × AreBalanced (length (items_of t.left)) (length (items_of t.right)) };

    ghost size = { length };

    ghost use Rattle.std.proofs.Common.{arith, length-append};

    ghost size_decreases = { λ a h. Prim.grind (arith, length-append) };
}

/// How many items there are. It is kept in the node, so this takes one step.
pub fn count<T: Dup, A: Allocator>(tree: &Link<T, A>) -> usize
    ensures is { result ≡ length (items_of tree.now) }
    ensures small { result < 2 ^ 60 }
{
    match tree {
        None => 0,
        Some(tree) => tree.count,
    }
}

/// One more owner of the same tree. No item is copied, whatever the size; it wants memory only where the count of owners is full.
pub fn shared<T: Dup, A: Allocator>(tree: &Link<T, A>) -> Result<Link<T, A>, OutOfMemory>
    ensures { IfOk result (λ copy. items_of copy ≡ items_of tree.now) }
{
    match tree {
        None => Ok(None),
        Some(tree) => Ok(Some(Arc::try_clone(tree)?)),
    }
}

/// A tree of a middle item and two sides of about the same size.
pub fn node<T: Dup, A: Allocator + Clone>(
    alloc: &A,
    left: Link<T, A>,
    item: T,
    right: Link<T, A>,
) -> Result<Link<T, A>, OutOfMemory>
    requires { AreBalanced (length (items_of left)) (length (items_of right)) }
    ensures { IfOk result (λ tree. items_of tree ≡ items_of left ++ item ∷ items_of right) }
{
    let count = count(&left) + count(&right) + 1;
    if count > LIMIT {
        return Err(OutOfMemory);
    }
    let tree = Arc::new(
        alloc.clone()?,
        Tree {
            left,
            item,
            count,
            right,
        },
    )?;
    Ok(Some(tree))
}

// A tree of a copy of a middle item and of two sides, which it shares.
fn node_of<T: Dup, A: Allocator + Clone>(
    alloc: &A,
    left: &Link<T, A>,
    item: &T,
    right: &Link<T, A>,
) -> Result<Link<T, A>, OutOfMemory>
    requires { AreBalanced (length (items_of left.now)) (length (items_of right.now)) }
    ensures { IfOk result (λ tree. items_of tree ≡ items_of left.now ++ item.now ∷ items_of right.now) }
{
    node(alloc, shared(left)?, item.dup()?, shared(right)?)
}

// A tree of a middle item and two sides of which one may be too heavy, as after a light tree was joined to it: the tree is turned to the
// other side then.
fn balanced<T: Dup, A: Allocator + Clone>(
    alloc: &A,
    left: Link<T, A>,
    item: T,
    right: Link<T, A>,
) -> Result<Link<T, A>, OutOfMemory>
    requires { NearlyBalanced (length (items_of left)) (length (items_of right)) }
    ensures { IfOk result (λ tree. items_of tree ≡ items_of left ++ item ∷ items_of right) }
{
    let l = count(&left) + 1;
    let r = count(&right) + 1;
    match (&left, &right) {
        (Some(tree), _) if l > 3 * r => to_right(alloc, tree, item, right),
        (_, Some(tree)) if r > 3 * l => to_left(alloc, left, item, tree),
        _ => node(alloc, left, item, right),
    }
}

/// A tree of a left side, a copy of a middle item and a right side, which it shares; it is turned as `balanced` does.
pub fn balanced_left<T: Dup, A: Allocator + Clone>(
    alloc: &A,
    left: Link<T, A>,
    item: &T,
    right: &Link<T, A>,
) -> Result<Link<T, A>, OutOfMemory>
    requires { NearlyBalanced (length (items_of left)) (length (items_of right.now)) }
    ensures { IfOk result (λ tree. items_of tree ≡ items_of left ++ item.now ∷ items_of right.now) }
{
    balanced(alloc, left, item.dup()?, shared(right)?)
}

/// A tree of a left side, which it shares, a copy of a middle item and a right side; it is turned as `balanced` does.
pub fn balanced_right<T: Dup, A: Allocator + Clone>(
    alloc: &A,
    left: &Link<T, A>,
    item: &T,
    right: Link<T, A>,
) -> Result<Link<T, A>, OutOfMemory>
    requires { NearlyBalanced (length (items_of left.now)) (length (items_of right)) }
    ensures { IfOk result (λ tree. items_of tree ≡ items_of left.now ++ item.now ∷ items_of right) }
{
    balanced(alloc, shared(left)?, item.dup()?, right)
}

fn to_right<T: Dup, A: Allocator + Clone>(
    alloc: &A,
    left: &Tree<T, A>,
    item: T,
    right: Link<T, A>,
) -> Result<Link<T, A>, OutOfMemory>
    requires { IsHeavy (length left.now) (length (items_of right)) }
    ensures { IfOk result (λ tree. items_of tree ≡ left.now ++ item ∷ items_of right) }
{
    let Tree {
        left: outer,
        item: first,
        right: near,
        ..
    } = left;
    match near {
        Some(inner) if count(near) + 1 >= 2 * (count(outer) + 1) => {
            parted_right(alloc, outer, first, inner, item, right)
        }
        _ => {
            let after = node(alloc, shared(near)?, item, right)?;
            node(alloc, shared(outer)?, first.dup()?, after)
        }
    }
}

// A tree turned to the right where of the heavy left side the inner side is not the lighter one: that one goes in two parts.
fn parted_right<T: Dup, A: Allocator + Clone>(
    alloc: &A,
    outer: &Link<T, A>,
    first: &T,
    inner: &Tree<T, A>,
    item: T,
    right: Link<T, A>,
) -> Result<Link<T, A>, OutOfMemory>
    requires { IsToPart (length (items_of outer.now)) (length inner.now) (length (items_of right)) }
    ensures { IfOk result (λ tree. items_of tree ≡ (items_of outer.now ++ first.now ∷ inner.now) ++ item ∷ items_of right) }
{
    let Tree {
        left: low,
        item: middle,
        right: high,
        ..
    } = inner;
    let after = node(alloc, shared(high)?, item, right)?;
    let before = node_of(alloc, outer, first, low)?;
    node(alloc, before, middle.dup()?, after)
}

fn to_left<T: Dup, A: Allocator + Clone>(
    alloc: &A,
    left: Link<T, A>,
    item: T,
    right: &Tree<T, A>,
) -> Result<Link<T, A>, OutOfMemory>
    requires { IsHeavy (length right.now) (length (items_of left)) }
    ensures { IfOk result (λ tree. items_of tree ≡ items_of left ++ item ∷ right.now) }
{
    let Tree {
        left: near,
        item: last,
        right: outer,
        ..
    } = right;
    match near {
        Some(inner) if count(near) + 1 >= 2 * (count(outer) + 1) => {
            parted_left(alloc, left, item, inner, last, outer)
        }
        _ => {
            let before = node(alloc, left, item, shared(near)?)?;
            node(alloc, before, last.dup()?, shared(outer)?)
        }
    }
}

// A tree turned to the left where of the heavy right side the inner side goes in two parts.
fn parted_left<T: Dup, A: Allocator + Clone>(
    alloc: &A,
    left: Link<T, A>,
    item: T,
    inner: &Tree<T, A>,
    last: &T,
    outer: &Link<T, A>,
) -> Result<Link<T, A>, OutOfMemory>
    requires { IsToPart (length (items_of outer.now)) (length inner.now) (length (items_of left)) }
    ensures { IfOk result (λ tree. items_of tree ≡ items_of left ++ item ∷ (inner.now ++ last.now ∷ items_of outer.now)) }
{
    let Tree {
        left: low,
        item: middle,
        right: high,
        ..
    } = inner;
    let before = node(alloc, left, item, shared(low)?)?;
    let after = node_of(alloc, high, last, outer)?;
    node(alloc, before, middle.dup()?, after)
}

/// The tree with an item that it has not, in its place, or none where it has the item. Only the nodes on the way to that
/// place are new.
pub fn with<T: Key + Dup, A: Allocator + Clone>(
    alloc: &A,
    tree: &Link<T, A>,
    item: T,
) -> Result<Option<Link<T, A>>, OutOfMemory>
    requires { IsStrictlySortedBy T.Ord.cmp (items_of tree.now) }
    ensures { IfOk result (IsWithNew T.Ord.cmp item (items_of tree.now)) }
{
    let Some(all) = tree else {
        return Ok(Some(node(alloc, None, item, None)?));
    };
    let Tree {
        left,
        item: middle,
        right,
        ..
    } = &**all;
    match item.cmp(middle) {
        Ordering::Less => {
            let Some(grown) = with(alloc, left, item)? else {
                return Ok(None);
            };
            let all = balanced_left(alloc, grown, middle, right)?;
            Ok(Some(all))
        }
        Ordering::Equal => Ok(None),
        Ordering::Greater => {
            let Some(grown) = with(alloc, right, item)? else {
                return Ok(None);
            };
            let all = balanced_right(alloc, left, middle, grown)?;
            Ok(Some(all))
        }
    }
}

/// Whether the item is there. It does not allocate, and takes as many comparisons as the tree is deep.
pub fn contains<T: Key + Dup, A: Allocator>(tree: &Link<T, A>, item: &T) -> bool
    requires { IsStrictlySortedBy T.Ord.cmp (items_of tree.now) }
    ensures { result ≡ has T.Ord.cmp (items_of tree.now) item.now }
{
    let Some(all) = tree else {
        return false;
    };
    let Tree {
        left,
        item: middle,
        right,
        ..
    } = &**all;
    match item.cmp(middle) {
        Ordering::Less => contains(left, item),
        Ordering::Equal => true,
        Ordering::Greater => contains(right, item),
    }
}

/// What stands at the place, counted from the least.
#[tactic(auto, using(crate::proofs::Splits::found_left, crate::proofs::Splits::found_middle, crate::proofs::Splits::found_right))]
pub fn at<T: Dup, A: Allocator>(tree: &Link<T, A>, place: usize) -> Option<&T>
    ensures { Found (items_of tree.now) place (option_copied result) }
{
    let Some(all) = tree else {
        return None;
    };
    let Tree {
        left,
        item,
        right,
        ..
    } = &**all;
    let before = count(left);
    if place < before {
        at(left, place)
    } else if place == before {
        Some(item)
    } else {
        at(right, place - before - 1)
    }
}
