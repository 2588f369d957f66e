//! Sets of lists of which none begins another.

ghost use Rattle.std.specs.Prelude.{◌≡◌, IfOk, OnOk, OnErr, IsTrue, IsOk, ◌↔◌, List, [], true, Bool, Contains, ◌∷◌, ◌++◌, All};
ghost use Rattle.std.specs.Cmp.Lexicographic.{slice_cmp};
ghost use Rattle.std.specs.List.Sorted.{IsStrictlySortedBy};
ghost use Rattle.aud_lattice.specs.Covers.{covers, with_list, cover_union, normal_form, IsCover, IsWithout, HasBeginning, BeginsOne, IsKept};
ghost use Rattle.aud_lattice.specs.Marks.{mark_of};
ghost use Rattle.aud_lattice.specs.Covering.{covers-cover_union};
ghost use Rattle.aud_lattice.specs.Eithers.{either, either_laws};
ghost use Rattle.aud_lattice.specs.Paths.{paths};
ghost use Rattle.aud_lattice.specs.Walks.{IsTrie};

use crate::Lattice;
use crate::mark::Mark;
use crate::row::Row;
use crate::trie::Trie;
use base_values::{Dup, Key, OutOfMemory};
use std::alloc::{Allocator, Global};
use std::marker::Model;

/// A set of lists of which none begins another, seen as these lists, least first.
#[derive(Drop)]
pub struct Cover<D: Key + Dup, A: Allocator + Copy = Global> {
    root: Trie<D, A>,
    alloc: A,
}

impl<D: Key + Dup, A: Allocator + Copy> Model for Cover<D, A> {
    ghost Value = { List (List D) };

    ghost view = { λ c. paths c.root };

    ghost invariant = { λ c. IsTrie D.Ord.cmp c.root };
}

impl<D: Key + Dup, A: Allocator + Copy> Cover<D, A> {
    /// No list. It does not allocate.
    pub fn empty(alloc: A) -> Cover<D, A>
        ensures { result ≡ [] }
    {
        Cover {
            root: Trie::empty(alloc),
            alloc,
        }
    }

    /// The trie of the lists: they are the paths to its members. It does not allocate.
    pub fn trie(&self) -> &Trie<D, A>
        ensures lists { paths result.now ≡ self.now }
        ensures good { IsTrie D.Ord.cmp result.now }
    {
        &self.root
    }

    /// A copy of the lists, least first.
    pub fn lists(&self) -> Result<Vec<Row<D, A>, A>, OutOfMemory>
        ensures lists { IfOk result (λ lists. lists.items ≡ self.now) }
        ensures cover { IsCover D.Ord.cmp self.now }
        ensures least_first { IsStrictlySortedBy (slice_cmp D.Ord.cmp) self.now }
    {
        let mut path = Vec::new(self.alloc);
        let mut all = Vec::new(self.alloc);
        self.root.push_paths(&self.alloc, &mut path, &mut all)?;
        Ok(all)
    }

    /// Keeps the list where no beginning of it is there, and then drops the lists that it begins. A list that is covered
    /// does not allocate.
    pub fn insert(&mut self, list: &[D]) -> Result<(), OutOfMemory>
        ensures ok { OnOk result (self.new ≡ with_list D.Ord.cmp list.now self.old) }
        ensures kept { OnOk result ((p : List D) → Contains self.new p ↔ IsKept D.Ord.cmp (list.now ∷ []) self.old p) }
        ensures err { OnErr result (self.new ≡ self.old) }
        ensures covered { covers D.Ord.cmp self.old list.now ≡ true → IsOk result }
    {
        put(&mut self.root, &self.alloc, list)
    }

    /// How the list stands to the cover. It does not allocate.
    #[tactic(auto, using(crate::proofs::Marked::covered_is, crate::proofs::Marked::inner_is))]
    pub fn mark(&self, list: &[D]) -> Mark
        ensures mark { result ≡ mark_of D.Ord.cmp self.now list.now }
        ensures covered { (result ≡ Mark.Covered) ↔ HasBeginning D.Ord.cmp self.now list.now }
        ensures inner { (result ≡ Mark.Inner) ↔ ((¬ HasBeginning D.Ord.cmp self.now list.now) × BeginsOne D.Ord.cmp self.now list.now) }
    {
        marked(&self.root, list)
    }

    /// Whether there is no list. It does not allocate.
    pub fn is_empty(&self) -> bool
        ensures { IsTrue result ↔ (self.now ≡ []) }
    {
        is_bare(&self.root)
    }

    /// The lists that are not lists of the other, whatever the other covers. Both are walked where they have nodes at the
    /// same places; what the other has nothing beside is shared.
    pub fn without(&self, other: &Cover<D, A>) -> Result<Cover<D, A>, OutOfMemory>
        ensures members { IfOk result (λ left. (p : List D) → Contains left p ↔ (Contains self.now p × ¬ (Contains other.now p))) }
        ensures cover { IfOk result (IsCover D.Ord.cmp) }
    {
        let root = without(&self.root, &other.root, &self.alloc)?;
        Ok(Cover {
            root,
            alloc: self.alloc,
        })
    }

    /// Whether a beginning of each of the other's lists is there. It does not allocate, and takes one walk of both.
    pub fn covers_all(&self, other: &Cover<D, A>) -> bool
        ensures { IsTrue result ↔ All (λ list. covers D.Ord.cmp self.now list ≡ true) other.now }
    {
        covers_each(&self.root, &other.root)
    }
}

// The functions below see a trie by its paths.

fn put<D: Key + Dup, A: Allocator + Copy>(
    root: &mut Trie<D, A>,
    alloc: &A,
    list: &[D],
) -> Result<(), OutOfMemory>
    requires { IsTrie D.Ord.cmp root.old }
    ensures good { IsTrie D.Ord.cmp root.new }
    ensures ok { OnOk result (paths root.new ≡ with_list D.Ord.cmp list.now (paths root.old)) }
    ensures err { OnErr result (paths root.new ≡ paths root.old) }
    ensures covered { covers D.Ord.cmp (paths root.old) list.now ≡ true → IsOk result }
{
    match marked(root, list) {
        Mark::Covered => Ok(()),
        Mark::Inner => root.put(alloc, list),
        Mark::Outside => root.put(alloc, list),
    }
}

fn marked<D: Key + Dup, A: Allocator + Copy>(root: &Trie<D, A>, list: &[D]) -> Mark
    requires { IsTrie D.Ord.cmp root.now }
    ensures { result ≡ mark_of D.Ord.cmp (paths root.now) list.now }
{
    root.mark(list)
}

fn is_bare<D: Key + Dup, A: Allocator + Copy>(root: &Trie<D, A>) -> bool
    requires { IsTrie D.Ord.cmp root.now }
    ensures { IsTrue result ↔ (paths root.now ≡ []) }
{
    root.is_bare()
}

fn without<D: Key + Dup, A: Allocator + Copy>(
    root: &Trie<D, A>,
    other: &Trie<D, A>,
    alloc: &A,
) -> Result<Trie<D, A>, OutOfMemory>
    requires root { IsTrie D.Ord.cmp root.now }
    requires other { IsTrie D.Ord.cmp other.now }
    ensures good { IfOk result (IsTrie D.Ord.cmp) }
    ensures cover { IfOk result (λ t. IsCover D.Ord.cmp (paths t)) }
    ensures members { IfOk result (λ t. IsWithout (paths root.now) (paths other.now) (paths t)) }
{
    root.without(other, alloc)
}

fn covers_each<D: Key + Dup, A: Allocator + Copy>(root: &Trie<D, A>, other: &Trie<D, A>) -> bool
    requires root { IsTrie D.Ord.cmp root.now }
    requires other { IsTrie D.Ord.cmp other.now }
    ensures { IsTrue result ↔ All (λ list. covers D.Ord.cmp (paths root.now) list ≡ true) (paths other.now) }
{
    other.is_within(root)
}

fn join_with<D: Key + Dup, A: Allocator + Copy>(
    root: &mut Trie<D, A>,
    other: &Trie<D, A>,
    alloc: &A,
) -> Result<(), OutOfMemory>
    requires root { IsTrie D.Ord.cmp root.old }
    requires other { IsTrie D.Ord.cmp other.now }
    ensures good { IsTrie D.Ord.cmp root.new }
    ensures ok { OnOk result (paths root.new ≡ cover_union D.Ord.cmp (paths root.old) (paths other.now)) }
    ensures err { OnErr result (paths root.new ≡ paths root.old) }
    ensures cover { IsCover D.Ord.cmp (paths other.now) }
{
    if let Some(joined) = root.joined(other, alloc)? {
        *root = joined;
    }
    Ok(())
}

fn same_tries<D: Key + Dup, A: Allocator + Copy>(x: &Trie<D, A>, y: &Trie<D, A>) -> bool
    requires x { IsTrie D.Ord.cmp x.now }
    requires y { IsTrie D.Ord.cmp y.now }
    ensures same { IsTrue result ↔ (paths x.now ≡ paths y.now) }
    ensures covers { IsTrue result ↔ (covers D.Ord.cmp (paths x.now) ≡ covers D.Ord.cmp (paths y.now)) }
{
    if x.is_within(y) {
        y.is_within(x)
    } else {
        false
    }
}

impl<D: Key + Dup, A: Allocator + Copy> Lattice for Cover<D, A> {
    ghost Meaning = { List D → Bool };

    ghost meaning = { λ c. covers D.Ord.cmp c };

    ghost merge = { either };

    ghost join_of = { cover_union D.Ord.cmp };

    ghost respects = { λ x y i q. covers-cover_union D.Ord.total x y q i };

    ghost laws = { either_laws };

    // The lists of which no proper beginning is there stay. A node of either that the other has nothing beside is shared.
    fn join(&mut self, other: &Cover<D, A>) -> Result<(), OutOfMemory>
        ensures ok { OnOk result (self.new ≡ cover_union D.Ord.cmp self.old other.now) }
        ensures kept { OnOk result ((p : List D) → Contains self.new p ↔ IsKept D.Ord.cmp self.old other.now p) }
        ensures norm { OnOk result (self.new ≡ normal_form D.Ord.cmp (self.old ++ other.now)) }
        ensures err { OnErr result (self.new ≡ self.old) }
    {
        join_with(&mut self.root, &other.root, &self.alloc)
    }

    fn same(&self, other: &Cover<D, A>) -> bool {
        same_tries(&self.root, &other.root)
    }
}

// The nodes below the root are shared.
impl<D: Key + Dup, A: Allocator + Copy> Dup for Cover<D, A> {
    fn dup(&self) -> Result<Cover<D, A>, OutOfMemory> {
        let root = copied_trie(&self.root, &self.alloc)?;
        Ok(Cover {
            root,
            alloc: self.alloc,
        })
    }
}

fn copied_trie<D: Key + Dup, A: Allocator + Copy>(
    root: &Trie<D, A>,
    alloc: &A,
) -> Result<Trie<D, A>, OutOfMemory>
    requires { IsTrie D.Ord.cmp root.now }
    ensures good { IfOk result (IsTrie D.Ord.cmp) }
    ensures same { IfOk result (λ t. paths t ≡ paths root.now) }
{
    root.copied(alloc)
}
