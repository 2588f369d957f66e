//! Sets that only grow, and that share their nodes with older ones.

ghost use Rattle.std.specs.Prelude.{◌≡◌, IfOk, OnOk, OnErr, IsTrue, ◌↔◌, ◌⊎◌, List, [], length, not, Bool, Contains};
ghost use Rattle.std.specs.List.Sorted.{IsStrictlySortedBy};
ghost use Rattle.aud_lattice.specs.Eithers.{either, either_laws};
ghost use Rattle.base_sorted.specs.Sets.{has, with_item, without, inserted, union};
ghost use Rattle.base_sorted.specs.Sorted.{has-union};
ghost use Rattle.base_trees.specs.Trees.{items_of};

use crate::Lattice;
use base_sorted::arranged;
use base_trees::{
    Iter, Link, all_of, contains, count, joined, ranked, same, shared, tree_of, with, without,
};
use base_values::{Dup, Key, OutOfMemory, Rank};
use std::alloc::{Allocator, Global};
use std::marker::Model;

/// A set, seen as the list of its items, least first. A copy shares all that it has with its source, so many sets that
/// grew from one another take little more memory than the last.
#[derive(Drop)]
pub struct UnionSet<T: Key + Dup, A: Allocator + Clone = Global> {
    alloc: A,
    root: Link<T, A>,
}

impl<T: Key + Dup, A: Allocator + Clone> Model for UnionSet<T, A> {
    ghost Value = { List T };

    ghost view = { λ s. items_of s.root };

    ghost invariant = { λ s. IsStrictlySortedBy T.Ord.cmp (items_of s.root) };
}

impl<T: Key + Dup, A: Allocator + Clone> UnionSet<T, A> {
    /// No items. It does not allocate.
    pub fn empty(alloc: A) -> UnionSet<T, A>
        ensures { result ≡ [] }
    {
        UnionSet { alloc, root: None }
    }

    /// What inserting each item in turn leaves, by one sort and one pass: repeats count once.
    pub fn from_vec(alloc: A, items: Vec<T, A>) -> Result<UnionSet<T, A>, OutOfMemory>
        ensures each { IfOk result (λ set. set ≡ inserted T.Ord.cmp items.items []) }
        ensures members { IfOk result (λ set. (x : T) → Contains set x ↔ Contains items.items x) }
    {
        let items = arranged(items)?;
        let root = tree_of(&alloc, items)?;
        Ok(UnionSet { alloc, root })
    }

    /// How many items there are. It does not allocate.
    pub fn len(&self) -> usize
        ensures { result ≡ length self.now }
    {
        count(&self.root)
    }

    /// Whether there are none.
    pub fn is_empty(&self) -> bool
        ensures { IsTrue result ↔ (length self.now ≡ 0) }
    {
        self.len() == 0
    }

    /// The items, least first. The walk does not allocate.
    pub fn items(&self) -> Iter<'_, T, A>
        ensures all { result ≡ self.now }
        ensures sorted { IsStrictlySortedBy T.Ord.cmp self.now }
    {
        all_of(&self.root)
    }

    /// Whether the item is there. It does not allocate, and takes as many comparisons as the tree is deep.
    #[tactic(auto, using(base_sorted::proofs::Members::has_is))]
    pub fn contains(&self, item: &T) -> bool
        ensures test { result ≡ has T.Ord.cmp self.now item.now }
        ensures member { IsTrue result ↔ Contains self.now item.now }
    {
        contains(&self.root, item)
    }

    /// Puts the item in, and says whether it is new. One that is there already needs no allocation; a new one takes as many
    /// nodes as the tree is deep, and shares all others with the set before.
    pub fn insert(&mut self, item: T) -> Result<bool, OutOfMemory>
        ensures ok { OnOk result (self.new ≡ with_item T.Ord.cmp item self.old) }
        ensures members { OnOk result ((x : T) → Contains self.new x ↔ (Contains self.old x ⊎ (x ≡ item))) }
        ensures is_new { IfOk result (λ new. new ≡ not (has T.Ord.cmp self.old item)) }
        ensures err { OnErr result (self.new ≡ self.old) }
    {
        let Some(root) = with(&self.alloc, &self.root, item)? else {
            return Ok(false);
        };
        self.root = root;
        Ok(true)
    }

    /// The items that the other has not. The other is cut where this set's tree parts; what is left in runs is shared, and all is where
    /// nothing is taken away.
    #[tactic(auto, using(base_sorted::proofs::Leftovers::sorted_without))]
    pub fn without(&self, other: &UnionSet<T, A>) -> Result<UnionSet<T, A>, OutOfMemory>
        ensures left { IfOk result (λ left. left ≡ without T.Ord.cmp self.now other.now) }
        ensures members { IfOk result (λ left. (x : T) → Contains left x ↔ (Contains self.now x × ¬ (Contains other.now x))) }
    {
        let alloc = self.alloc.clone()?;
        let root = without(&alloc, &self.root, &other.root)?;
        Ok(UnionSet { alloc, root })
    }
}

impl<T: Key + Dup + Rank, A: Allocator + Clone> UnionSet<T, A> {
    /// What inserting each item in turn leaves, as `from_vec` does it, faster for items whose ranks tell them apart.
    pub fn from_ranked(alloc: A, items: Vec<T, A>) -> Result<UnionSet<T, A>, OutOfMemory>
        ensures each { IfOk result (λ set. set ≡ inserted T.Ord.cmp items.items []) }
        ensures members { IfOk result (λ set. (x : T) → Contains set x ↔ Contains items.items x) }
    {
        let items = arranged(ranked(items)?)?;
        let root = tree_of(&alloc, items)?;
        Ok(UnionSet { alloc, root })
    }
}

/// A copy shares its source's items, so it costs the same at any size.
impl<T: Key + Dup, A: Allocator + Clone> Dup for UnionSet<T, A> {
    fn dup(&self) -> Result<UnionSet<T, A>, OutOfMemory> {
        let root = shared(&self.root)?;
        Ok(UnionSet {
            alloc: self.alloc.clone()?,
            root,
        })
    }
}

impl<T: Key + Dup, A: Allocator + Clone> Lattice for UnionSet<T, A> {
    ghost Meaning = { T → Bool };

    ghost meaning = { λ s. has T.Ord.cmp s };

    ghost merge = { either };

    ghost join_of = { union T.Ord.cmp };

    ghost respects = { λ x y i q. has-union T.Ord.total x y q i };

    ghost laws = { either_laws };

    #[tactic(auto, using(base_sorted::specs::Sorted::sorted_union, base_sorted::proofs::Members::contains_union))]
    // The smaller set is cut where the larger one's tree parts, whichever of the two is `self`; runs of either are shared.
    fn join(&mut self, other: &UnionSet<T, A>) -> Result<(), OutOfMemory>
        ensures ok { OnOk result (self.new ≡ union T.Ord.cmp self.old other.now) }
        ensures members { OnOk result ((x : T) → Contains self.new x ↔ (Contains self.old x ⊎ Contains other.now x)) }
        ensures err { OnErr result (self.new ≡ self.old) }
    {
        let root = joined(&self.alloc, &self.root, &other.root)?;
        self.root = root;
        Ok(())
    }

    #[tactic(auto, using(base_sorted::proofs::Pours::same_has))]
    fn same(&self, other: &UnionSet<T, A>) -> bool {
        same(&self.root, &other.root)
    }
}
