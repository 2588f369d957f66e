//! Two trees at once. A join costs some nodes for each place where runs of the two meet, and shares all else; where the items alternate
//! one by one, it costs about as much as a tree that is built anew of all.

ghost use Rattle.std.specs.Prelude.{◌≡◌, ◌∷◌, ◌++◌, [], IfOk, OnOk, IsTrue, ◌↔◌};
ghost use Rattle.std.specs.List.Sorted.{IsStrictlySortedBy};
ghost use Rattle.base_sorted.specs.Sets.{with_item, without, union};
ghost use Rattle.base_trees.specs.Trees.{items_of};

use crate::bulk::tree_of;
use crate::copies::push_copy;
use crate::iter::all_of;
use crate::link::{beside, relinked, split};
use crate::tree::{Link, Tree, contains, count, shared, with};
use base_sorted::arranged;
use base_values::{Dup, Key, OutOfMemory};
use std::alloc::Allocator;
use std::cmp::Ordering;

// A tree takes in others' items one by one while these are at most one for so many of its own. Where they are more, a tree that is
// built anew of all costs less than the nodes of their paths.
const FEW: usize = 8;

// Trees of so many items together are not cut in parts any more: what cutting shares is less than what it costs there.
const SMALL: usize = 64;

// The tree with a copy of the item. One that is there already needs no allocation.
#[tactic(auto, using(crate::proofs::Splits::with_there))]
fn added<T: Key + Dup, A: Allocator + Clone>(
    alloc: &A,
    tree: Link<T, A>,
    item: &T,
) -> Result<Link<T, A>, OutOfMemory>
    requires { IsStrictlySortedBy T.Ord.cmp (items_of tree) }
    ensures { IfOk result (λ new. items_of new ≡ with_item T.Ord.cmp item.now (items_of tree)) }
{
    if contains(&tree, item) {
        return Ok(tree);
    }
    match with(alloc, &tree, item.dup()?)? {
        Some(all) => Ok(all),
        None => Ok(tree),
    }
}

// One tree with the items of another.
fn poured<T: Key + Dup, A: Allocator + Clone>(
    alloc: &A,
    from: &Link<T, A>,
    into: &Link<T, A>,
) -> Result<Link<T, A>, OutOfMemory>
    requires { IsStrictlySortedBy T.Ord.cmp (items_of into.now) }
    ensures { IfOk result (λ all. items_of all ≡ union T.Ord.cmp (items_of from.now) (items_of into.now)) }
{
    let mut all = shared(into)?;
    for item in all_of(from) {
        all = added(alloc, all, item)?;
    }
    Ok(all)
}

// A tree of its own for the items of a list and of a tree.
fn rebuilt<T: Key + Dup, A: Allocator + Clone>(
    alloc: &A,
    new: Vec<T, A>,
    tree: &Link<T, A>,
) -> Result<Link<T, A>, OutOfMemory>
    requires { IsStrictlySortedBy T.Ord.cmp (items_of tree.now) }
    ensures { IfOk result (λ all. items_of all ≡ union T.Ord.cmp new.items (items_of tree.now)) }
{
    let all = arranged_with(new, tree)?;
    tree_of(alloc, all)
}

// The items of a list and of a tree in their order, each once. Both come in runs that are in order, so the sort merges two runs.
#[tactic(auto, using(base_sorted::proofs::Leftovers::union_of_both))]
fn arranged_with<T: Key + Dup, A: Allocator>(
    new: Vec<T, A>,
    tree: &Link<T, A>,
) -> Result<Vec<T, A>, OutOfMemory>
    requires { IsStrictlySortedBy T.Ord.cmp (items_of tree.now) }
    ensures { IfOk result (λ all. all.items ≡ union T.Ord.cmp new.items (items_of tree.now)) }
{
    let mut all = new;
    push_all(&mut all, tree)?;
    let all = arranged(all)?;
    Ok(all)
}

// Puts copies of the items at the end.
fn push_all<T: Dup, A: Allocator>(all: &mut Vec<T, A>, tree: &Link<T, A>) -> Result<(), OutOfMemory>
    ensures { OnOk result (all.new.items ≡ all.old.items ++ items_of tree.now) }
{
    all.reserve(count(tree))?;
    for item in all_of(tree) {
        push_copy(all, item)?;
    }
    Ok(())
}

// One tree with the items of another that is no larger. What is new is put in one by one while it is little, and shares the rest
// with the tree.
#[tactic(auto, using(base_sorted::proofs::Leftovers::union_of_new))]
fn grown<T: Key + Dup, A: Allocator + Clone>(
    alloc: &A,
    from: &Link<T, A>,
    into: &Link<T, A>,
) -> Result<Link<T, A>, OutOfMemory>
    requires { IsStrictlySortedBy T.Ord.cmp (items_of into.now) }
    ensures { IfOk result (λ all. items_of all ≡ union T.Ord.cmp (items_of from.now) (items_of into.now)) }
{
    let few = count(into) / FEW;
    if count(from) <= few {
        return poured(alloc, from, into);
    }
    let new = left_over(alloc, from, into)?;
    if new.len() <= few {
        let new = tree_of(alloc, new)?;
        poured(alloc, &new, into)
    } else {
        rebuilt(alloc, new, into)
    }
}

// Whether both are built alike of the same items. Trees of one source are, as far as neither grew; others may differ though
// their items are the same.
#[tactic(auto, using(crate::proofs::Alike::parts_same))]
fn built_alike<T: Key + Dup, A: Allocator>(xs: &Link<T, A>, ys: &Link<T, A>) -> bool
    ensures { IsTrue result → items_of xs.now ≡ items_of ys.now }
{
    let (Some(x), Some(y)) = (xs, ys) else {
        return xs.is_none() && ys.is_none();
    };
    let Tree {
        left,
        item,
        count,
        right,
    } = &**x;
    let Tree {
        left: before,
        item: other,
        count: size,
        right: after,
    } = &**y;
    if count != size || !alike(item, other) || !built_alike(left, before) {
        return false;
    }
    built_alike(right, after)
}

// One tree with the items of another, which is cut where the tree parts. The parts of either that lie apart from the other are shared,
// and so is each part to which the other brings nothing new.
#[tactic(auto, using(base_sorted::proofs::Pours::union_itself))]
fn merged<T: Key + Dup, A: Allocator + Clone>(
    alloc: &A,
    from: &Link<T, A>,
    into: &Link<T, A>,
) -> Result<Link<T, A>, OutOfMemory>
    requires from_sorted { IsStrictlySortedBy T.Ord.cmp (items_of from.now) }
    requires into_sorted { IsStrictlySortedBy T.Ord.cmp (items_of into.now) }
    ensures { IfOk result (λ all. items_of all ≡ union T.Ord.cmp (items_of from.now) (items_of into.now)) }
{
    if built_alike(from, into) {
        return shared(into);
    }
    let Some(all) = into else {
        return shared(from);
    };
    if count(from) <= FEW || count(from) + count(into) <= SMALL {
        return grown(alloc, from, into);
    }
    let Tree {
        left,
        item,
        right,
        ..
    } = &**all;
    let (before, _, after) = split(alloc, from, item)?;
    let low = merged(alloc, &before, left)?;
    let high = merged(alloc, &after, right)?;
    relinked(alloc, into, low, item, high)
}

/// The items of both: those of the smaller tree are put into the larger one. What lies in runs of one of them is shared, and so is the
/// larger tree where nothing new comes. Of two trees with the same items the answer is the second, so that who joins it once more
/// finds it built alike, which takes no look-ups.
#[tactic(auto, using(base_sorted::proofs::Pours::union_swap))]
pub fn joined<T: Key + Dup, A: Allocator + Clone>(
    alloc: &A,
    xs: &Link<T, A>,
    ys: &Link<T, A>,
) -> Result<Link<T, A>, OutOfMemory>
    requires xs_sorted { IsStrictlySortedBy T.Ord.cmp (items_of xs.now) }
    requires ys_sorted { IsStrictlySortedBy T.Ord.cmp (items_of ys.now) }
    ensures { IfOk result (λ all. items_of all ≡ union T.Ord.cmp (items_of xs.now) (items_of ys.now)) }
{
    if count(xs) <= count(ys) {
        merged(alloc, xs, ys)
    } else {
        merged(alloc, ys, xs)
    }
}

/// The items of the first tree that the second has not. The second is cut where the first parts; what is left of the first in runs is
/// shared, and where all is left it is the same tree still.
pub fn without<T: Key + Dup, A: Allocator + Clone>(
    alloc: &A,
    xs: &Link<T, A>,
    ys: &Link<T, A>,
) -> Result<Link<T, A>, OutOfMemory>
    requires xs_sorted { IsStrictlySortedBy T.Ord.cmp (items_of xs.now) }
    requires ys_sorted { IsStrictlySortedBy T.Ord.cmp (items_of ys.now) }
    ensures { IfOk result (λ all. items_of all ≡ without T.Ord.cmp (items_of xs.now) (items_of ys.now)) }
{
    if built_alike(xs, ys) {
        return Ok(None);
    }
    let Some(all) = xs else {
        return Ok(None);
    };
    if count(ys) == 0 {
        return shared(xs);
    }
    if count(xs) <= SMALL {
        return sifted(alloc, xs, ys);
    }
    let Tree {
        left,
        item,
        right,
        ..
    } = &**all;
    let (before, is_there, after) = split(alloc, ys, item)?;
    let low = without(alloc, left, &before)?;
    let high = without(alloc, right, &after)?;
    if is_there {
        beside(alloc, low, high)
    } else {
        relinked(alloc, xs, low, item, high)
    }
}

// The items of the one tree that the other has not, by a look-up for each item. The tree itself, if all are left.
fn sifted<T: Key + Dup, A: Allocator + Clone>(
    alloc: &A,
    xs: &Link<T, A>,
    ys: &Link<T, A>,
) -> Result<Link<T, A>, OutOfMemory>
    requires { IsStrictlySortedBy T.Ord.cmp (items_of ys.now) }
    ensures { IfOk result (λ all. items_of all ≡ without T.Ord.cmp (items_of xs.now) (items_of ys.now)) }
{
    let left = left_over(alloc, xs, ys)?;
    if left.len() == count(xs) {
        shared(xs)
    } else {
        tree_of(alloc, left)
    }
}

// The items of the one tree that the other has not, as a list.
fn left_over<T: Key + Dup, A: Allocator + Clone>(
    alloc: &A,
    xs: &Link<T, A>,
    ys: &Link<T, A>,
) -> Result<Vec<T, A>, OutOfMemory>
    requires { IsStrictlySortedBy T.Ord.cmp (items_of ys.now) }
    ensures { IfOk result (λ all. all.items ≡ without T.Ord.cmp (items_of xs.now) (items_of ys.now)) }
{
    let mut all = Vec::new(alloc.clone()?);
    for item in all_of(xs) {
        put_new(&mut all, item, ys)?;
    }
    Ok(all)
}

// Puts a copy of the item at the end where the tree has it not.
fn put_new<T: Key + Dup, A: Allocator, B: Allocator>(
    all: &mut Vec<T, B>,
    item: &T,
    tree: &Link<T, A>,
) -> Result<(), OutOfMemory>
    requires { IsStrictlySortedBy T.Ord.cmp (items_of tree.now) }
    ensures { OnOk result (all.new.items ≡ all.old.items ++ without T.Ord.cmp (item.now ∷ []) (items_of tree.now)) }
{
    if contains(tree, item) {
        return Ok(());
    }
    push_copy(all, item)
}

fn alike<T: Key>(x: &T, y: &T) -> bool
    ensures { IsTrue result ↔ (x.now ≡ y.now) }
{
    x.cmp(y) == Ordering::Equal
}

/// Whether both have the same items. It does not allocate. Trees that are built alike are compared node by node, others by two walks.
#[tactic(auto, using(crate::proofs::Alike::tails_same, crate::proofs::Alike::heads_same))]
pub fn same<T: Key + Dup, A: Allocator>(xs: &Link<T, A>, ys: &Link<T, A>) -> bool
    ensures { IsTrue result ↔ (items_of xs.now ≡ items_of ys.now) }
{
    if count(xs) != count(ys) {
        return false;
    }
    if built_alike(xs, ys) {
        return true;
    }
    let mut first = all_of(xs);
    let mut second = all_of(ys);
    'each: loop {
        let Some(x) = first.next() else {
            return second.next().is_none();
        };
        let Some(y) = second.next() else {
            return false;
        };
        if !alike(x, y) {
            return false;
        }
    }
}
