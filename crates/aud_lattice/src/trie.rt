//! Tries of lists, whose nodes are shared: a changed trie keeps what it did not change of the old one.

ghost use Rattle.std.specs.Prelude.{None, ◌≡◌, ◌++◌, OnOk, OnErr, IfOk, IfSome, IsTrue, ◌↔◌, [], ◌∷◌, map};
ghost use Rattle.std.specs.Option.{option_copied};
ghost use Rattle.std.specs.Arc.{arc_value};
ghost use Rattle.std.specs.BTreeMap.{IsOrdered};
ghost use Rattle.aud_lattice.specs.Walks.{child, walk, walk_mark, leads, left_under, nothing, but, starts, node_at, node_of, now_of, AreAlike, AreAlikeBut, AreJoined, IsAdded, IsTrie, IsRemainder, IsLive, IsMet, IsWithin, JoinsUnder, LeavesUnder, StandsUnder, ReportsWhetherBare};
ghost use Rattle.aud_lattice.specs.Paths.{paths};
ghost use Rattle.aud_lattice.specs.Covers.{begins};
ghost use Rattle.aud_lattice.specs.declared.trie.Trie.TheVariants.{Fork};

use crate::mark::Mark;
use crate::row::Row;
use base_values::{Dup, Key, OutOfMemory};
use std::alloc::{Allocator, Global};
use std::collections::BTreeMap;
use std::mem;
use std::sync::Arc;

/// A member, or an ordered map from an element to the next node. A node holds its children by `Arc`: a changed trie shares
/// with its copies each node that it did not change, so that a delta costs what changed, and not what is there.
#[derive(Drop)]
pub enum Trie<D: Key + Dup, A: Allocator + Copy = Global> {
    /// A list ends here.
    Member,
    /// The nodes under each element.
    Fork(BTreeMap<D, Arc<Trie<D, A>, A>, A>),
}

// Puts the node under the element.
fn set<D: Key + Dup, A: Allocator + Copy>(
    next: &mut BTreeMap<D, Arc<Trie<D, A>, A>, A>,
    first: &D,
    node: Arc<Trie<D, A>, A>,
) -> Result<(), OutOfMemory>
    requires { IsOrdered D.Ord.cmp next.old }
    ensures ok { OnOk result (StandsUnder D.Ord.cmp first.now node next.old next.new) }
    ensures err { OnErr result (AreAlike D.Ord.cmp next.old next.new) }
    ensures ordered { IsOrdered D.Ord.cmp next.new }
{
    next.insert(first.dup()?, node)?;
    Ok(())
}

// The nodes, shared.
fn shared_nodes<D: Key + Dup, A: Allocator + Copy>(
    nodes: &BTreeMap<D, Arc<Trie<D, A>, A>, A>,
    alloc: &A,
) -> Result<BTreeMap<D, Arc<Trie<D, A>, A>, A>, OutOfMemory>
    ensures ordered { IfOk result (IsOrdered D.Ord.cmp) }
    ensures same { IfOk result (AreAlike D.Ord.cmp nodes.now) }
{
    let mut all = BTreeMap::new(*alloc);
    for (first, node) in nodes {
        set(&mut all, first, Arc::try_clone(node)?)?;
    }
    Ok(all)
}

// The nodes that there are now.
fn nodes_now<'a, D: Key + Dup, A: Allocator + Copy>(
    ours: &'a BTreeMap<D, Arc<Trie<D, A>, A>, A>,
    all: &'a Option<BTreeMap<D, Arc<Trie<D, A>, A>, A>>,
) -> &'a BTreeMap<D, Arc<Trie<D, A>, A>, A>
    ensures { result.now ≡ now_of ours.now all.now }
{
    match all {
        Some(nodes) => nodes,
        None => ours,
    }
}

// The nodes that there are now, to be changed.
fn own_nodes<D: Key + Dup, A: Allocator + Copy>(
    ours: &BTreeMap<D, Arc<Trie<D, A>, A>, A>,
    all: Option<BTreeMap<D, Arc<Trie<D, A>, A>, A>>,
    alloc: &A,
) -> Result<BTreeMap<D, Arc<Trie<D, A>, A>, A>, OutOfMemory>
    requires { IsOrdered D.Ord.cmp (now_of ours.now all) }
    ensures ordered { IfOk result (IsOrdered D.Ord.cmp) }
    ensures same { IfOk result (AreAlike D.Ord.cmp (now_of ours.now all)) }
{
    match all {
        Some(nodes) => Ok(nodes),
        None => shared_nodes(ours, alloc),
    }
}

// The node that stands alone, with its element. Most nodes have no other beside them, and a walk need not look for one.
fn alone<D: Key + Dup, A: Allocator + Copy>(
    nodes: &BTreeMap<D, Arc<Trie<D, A>, A>, A>,
) -> Option<(&D, &Arc<Trie<D, A>, A>)>
    ensures { IfSome result (λ e. nodes.now.entries ≡ (e.0.now, e.1.now) ∷ []) }
{
    if nodes.len() == 1 {
        nodes.first_key_value()
    } else {
        None
    }
}

impl<D: Key + Dup, A: Allocator + Copy> Trie<D, A> {
    /// The trie of no list. It does not allocate.
    pub(crate) fn empty(alloc: A) -> Trie<D, A>
        ensures nothing { walk D.Ord.cmp result ≡ nothing }
        ensures good { IsTrie D.Ord.cmp result }
    {
        Trie::Fork(BTreeMap::new(alloc))
    }

    /// The node under the element, if there is one. It does not allocate.
    pub fn step(&self, first: &D) -> Option<&Trie<D, A>>
        ensures { option_copied result ≡ child D.Ord.cmp self.now first.now }
    {
        match self {
            Trie::Member => None,
            Trie::Fork(next) => match next.get(first) {
                Some(node) => Some(node),
                None => None,
            },
        }
    }

    /// The node that the list leads to, if it leads to one. It does not allocate.
    pub fn at(&self, list: &[D]) -> Option<&Trie<D, A>>
        ensures { option_copied result ≡ node_at D.Ord.cmp list.now self.now }
    {
        match list.split_first() {
            None => Some(self),
            Some((first, rest)) => match self.step(first) {
                Some(below) => below.at(rest),
                None => None,
            },
        }
    }

    /// How the empty list stands to the trie. It does not allocate.
    pub fn here(&self) -> Mark
        ensures { result ≡ walk_mark D.Ord.cmp self.now [] }
    {
        match self {
            Trie::Member => Mark::Covered,
            Trie::Fork(next) => {
                if next.is_empty() {
                    Mark::Outside
                } else {
                    Mark::Inner
                }
            }
        }
    }

    /// How the list stands to the trie. It does not allocate.
    pub fn mark(&self, list: &[D]) -> Mark
        ensures { result ≡ walk_mark D.Ord.cmp self.now list.now }
    {
        let Some((first, rest)) = list.split_first() else {
            return self.here();
        };
        let Trie::Fork(next) = self else {
            return Mark::Covered;
        };
        match next.get(first) {
            None => Mark::Outside,
            Some(node) => node.mark(rest),
        }
    }

    // The trie of one list.
    fn chain(alloc: &A, list: &[D]) -> Result<Trie<D, A>, OutOfMemory>
        ensures good { IfOk result (IsTrie D.Ord.cmp) }
        ensures one { IfOk result (λ t. walk D.Ord.cmp t ≡ begins D.Ord.cmp list.now) }
    {
        match list.split_first() {
            None => Ok(Trie::Member),
            Some((first, rest)) => {
                let node = Trie::chain(alloc, rest)?;
                let node = Arc::new(*alloc, node)?;
                let mut next = BTreeMap::new(*alloc);
                set(&mut next, first, node)?;
                Ok(Trie::Fork(next))
            }
        }
    }

    /// A trie of the same lists, which shares the nodes below the root.
    pub(crate) fn copied(&self, alloc: &A) -> Result<Trie<D, A>, OutOfMemory>
        requires { IsTrie D.Ord.cmp self.now }
        ensures good { IfOk result (IsTrie D.Ord.cmp) }
        ensures same { IfOk result (λ t. walk D.Ord.cmp t ≡ walk D.Ord.cmp self.now) }
    {
        match self {
            Trie::Member => Ok(Trie::Member),
            Trie::Fork(nodes) => {
                let all = shared_nodes(nodes, alloc)?;
                Ok(Trie::Fork(all))
            }
        }
    }

    /// Takes in the list. Of the nodes below the root those on the way to its end are new.
    pub(crate) fn put(&mut self, alloc: &A, list: &[D]) -> Result<(), OutOfMemory>
        requires { IsTrie D.Ord.cmp self.old }
        ensures good { IsTrie D.Ord.cmp self.new }
        ensures ok { OnOk result (IsAdded D.Ord.cmp list.now self.old self.new) }
        ensures err { OnErr result (walk D.Ord.cmp self.new ≡ walk D.Ord.cmp self.old) }
    {
        match mem::replace(self, Trie::Member) {
            Trie::Member => Ok(()),
            Trie::Fork(mut next) => match list.split_first() {
                None => Ok(()),
                Some((first, rest)) => {
                    let done = Trie::put_under(&mut next, alloc, first, rest);
                    *self = Trie::Fork(next);
                    done
                }
            },
        }
    }

    #[cycle(puts)]
    fn put_under(
        next: &mut BTreeMap<D, Arc<Trie<D, A>, A>, A>,
        alloc: &A,
        first: &D,
        rest: &[D],
    ) -> Result<(), OutOfMemory>
        requires { IsTrie D.Ord.cmp (Fork next.old) }
        ensures good { IsTrie D.Ord.cmp (Fork next.new) }
        ensures ok { OnOk result (IsAdded D.Ord.cmp (first.now ∷ rest.now) (Fork next.old) (Fork next.new)) }
        ensures err { OnErr result (walk D.Ord.cmp (Fork next.new) ≡ walk D.Ord.cmp (Fork next.old)) }
    {
        match next.get(first) {
            Some(known) => {
                let node = Trie::with(known, alloc, rest)?;
                let node = Arc::new(*alloc, node)?;
                set(next, first, node)
            }
            None => {
                let node = Trie::chain(alloc, rest)?;
                let node = Arc::new(*alloc, node)?;
                set(next, first, node)
            }
        }
    }

    // The trie with the list.
    #[cycle(puts)]
    fn with(&self, alloc: &A, list: &[D]) -> Result<Trie<D, A>, OutOfMemory>
        requires { IsTrie D.Ord.cmp self.now }
        ensures good { IfOk result (IsTrie D.Ord.cmp) }
        ensures both { IfOk result (IsAdded D.Ord.cmp list.now self.now) }
    {
        match self {
            Trie::Member => Ok(Trie::Member),
            Trie::Fork(next) => match list.split_first() {
                None => Ok(Trie::Member),
                Some((first, rest)) => {
                    let mut all = shared_nodes(next, alloc)?;
                    Trie::put_under(&mut all, alloc, first, rest)?;
                    Ok(Trie::Fork(all))
                }
            },
        }
    }

    /// A trie of the lists of both; none where there is a beginning of each of the other's lists already. What only one of
    /// the two has is shared.
    #[cycle(grafts)]
    pub(crate) fn joined(
        &self,
        from: &Trie<D, A>,
        alloc: &A,
    ) -> Result<Option<Trie<D, A>>, OutOfMemory>
        requires from { IsTrie D.Ord.cmp from.now }
        requires into { IsTrie D.Ord.cmp self.now }
        ensures good { IfOk result (λ joined. IsTrie D.Ord.cmp (now_of self.now joined)) }
        ensures both { IfOk result (λ joined. AreJoined D.Ord.cmp from.now self.now (now_of self.now joined)) }
    {
        match self {
            Trie::Member => Ok(None),
            Trie::Fork(ours) => match from {
                Trie::Member => Ok(Some(Trie::Member)),
                Trie::Fork(theirs) => {
                    if let Some((first, node)) = alone(theirs) {
                        return match Trie::grafted(ours, None, first, node, alloc)? {
                            Some(nodes) => Ok(Some(Trie::Fork(nodes))),
                            None => Ok(None),
                        };
                    }
                    let mut all = None;
                    for (first, node) in theirs {
                        all = Trie::grafted(ours, all, first, node, alloc)?;
                    }
                    match all {
                        Some(nodes) => Ok(Some(Trie::Fork(nodes))),
                        None => Ok(None),
                    }
                }
            },
        }
    }

    // The nodes with all that the node has, under the element. They are copied where the first of them changes.
    #[cycle(grafts)]
    fn grafted(
        ours: &BTreeMap<D, Arc<Trie<D, A>, A>, A>,
        all: Option<BTreeMap<D, Arc<Trie<D, A>, A>, A>>,
        first: &D,
        node: &Arc<Trie<D, A>, A>,
        alloc: &A,
    ) -> Result<Option<BTreeMap<D, Arc<Trie<D, A>, A>, A>>, OutOfMemory>
        requires node { IsTrie D.Ord.cmp (arc_value node.now) }
        requires live { IsLive D.Ord.cmp (arc_value node.now) }
        requires into { IsTrie D.Ord.cmp (Fork (now_of ours.now all)) }
        ensures good { IfOk result (λ nodes. IsTrie D.Ord.cmp (Fork (now_of ours.now nodes))) }
        ensures both { IfOk result (λ nodes. JoinsUnder D.Ord.cmp first.now node.now (now_of ours.now all) (now_of ours.now nodes)) }
    {
        match Trie::met(nodes_now(ours, &all), first, node, alloc)? {
            None => Ok(all),
            Some(node) => {
                let mut nodes = own_nodes(ours, all, alloc)?;
                set(&mut nodes, first, node)?;
                Ok(Some(nodes))
            }
        }
    }

    // What is to stand under the element for all that the node has; nothing where that is there already.
    #[cycle(grafts)]
    fn met(
        next: &BTreeMap<D, Arc<Trie<D, A>, A>, A>,
        first: &D,
        node: &Arc<Trie<D, A>, A>,
        alloc: &A,
    ) -> Result<Option<Arc<Trie<D, A>, A>>, OutOfMemory>
        requires node { IsTrie D.Ord.cmp (arc_value node.now) }
        requires into { IsTrie D.Ord.cmp (Fork next.now) }
        ensures { IfOk result (IsMet D.Ord.cmp next.now first.now (walk D.Ord.cmp (arc_value node.now))) }
    {
        match next.get(first) {
            None => Ok(Some(Arc::try_clone(node)?)),
            Some(known) => match known.joined(node, alloc)? {
                None => Ok(None),
                Some(joined) => Ok(Some(Arc::new(*alloc, joined)?)),
            },
        }
    }

    /// Whether each list with a beginning here has one there. It does not allocate.
    #[cycle(withins)]
    pub(crate) fn is_within(&self, other: &Trie<D, A>) -> bool
        requires here { IsTrie D.Ord.cmp self.now }
        requires there { IsTrie D.Ord.cmp other.now }
        ensures { IsTrue result ↔ IsWithin (walk D.Ord.cmp self.now) (walk D.Ord.cmp other.now) }
    {
        match other {
            Trie::Member => true,
            Trie::Fork(_) => match self {
                Trie::Member => false,
                Trie::Fork(nodes) => {
                    if let Some((first, node)) = alone(nodes) {
                        return Trie::is_within_at(node, first, other);
                    }
                    for (first, node) in nodes {
                        if !Trie::is_within_at(node, first, other) {
                            return false;
                        }
                    }
                    true
                }
            },
        }
    }

    #[cycle(withins)]
    fn is_within_at(node: &Trie<D, A>, first: &D, other: &Trie<D, A>) -> bool
        requires node { IsTrie D.Ord.cmp node.now }
        requires live { IsLive D.Ord.cmp node.now }
        requires there { IsTrie D.Ord.cmp other.now }
        ensures { IsTrue result ↔ IsWithin (starts D.Ord.cmp first.now (walk D.Ord.cmp node.now)) (walk D.Ord.cmp other.now) }
    {
        match other {
            Trie::Member => true,
            Trie::Fork(theirs) => match theirs.get(first) {
                None => false,
                Some(known) => node.is_within(known),
            },
        }
    }

    /// Whether there is no list. It does not allocate.
    pub(crate) fn is_bare(&self) -> bool
        requires { IsTrie D.Ord.cmp self.now }
        ensures { ReportsWhetherBare D.Ord.cmp result self.now }
    {
        match self {
            Trie::Member => false,
            Trie::Fork(next) => next.is_empty(),
        }
    }

    /// A trie of the lists that the other has not. What the other has nothing beside is shared.
    #[cycle(leavings)]
    pub(crate) fn without(&self, other: &Trie<D, A>, alloc: &A) -> Result<Trie<D, A>, OutOfMemory>
        requires here { IsTrie D.Ord.cmp self.now }
        requires there { IsTrie D.Ord.cmp other.now }
        ensures good { IfOk result (IsTrie D.Ord.cmp) }
        ensures left { IfOk result (λ t. leads D.Ord.cmp t ≡ but (leads D.Ord.cmp self.now) (leads D.Ord.cmp other.now)) }
    {
        match self {
            Trie::Member => match other {
                Trie::Member => Ok(Trie::empty(*alloc)),
                Trie::Fork(_) => Ok(Trie::Member),
            },
            Trie::Fork(nodes) => match other {
                Trie::Member => self.copied(alloc),
                Trie::Fork(theirs) => {
                    let mut all = BTreeMap::new(*alloc);
                    for (first, node) in nodes {
                        Trie::leave(&mut all, first, node, theirs, alloc)?;
                    }
                    Ok(Trie::Fork(all))
                }
            },
        }
    }

    // Puts under the element the lists of the node that they have not there.
    #[cycle(leavings)]
    fn leave(
        all: &mut BTreeMap<D, Arc<Trie<D, A>, A>, A>,
        first: &D,
        node: &Arc<Trie<D, A>, A>,
        theirs: &BTreeMap<D, Arc<Trie<D, A>, A>, A>,
        alloc: &A,
    ) -> Result<(), OutOfMemory>
        requires node { IsTrie D.Ord.cmp (arc_value node.now) }
        requires live { IsLive D.Ord.cmp (arc_value node.now) }
        requires theirs { IsTrie D.Ord.cmp (Fork theirs.now) }
        requires into { IsTrie D.Ord.cmp (Fork all.old) }
        requires absent { node_of D.Ord.cmp all.old first.now ≡ None }
        ensures good { OnOk result (IsTrie D.Ord.cmp (Fork all.new)) }
        ensures others { OnOk result (AreAlikeBut D.Ord.cmp first.now all.old all.new) }
        ensures left { OnOk result (LeavesUnder D.Ord.cmp first.now (arc_value node.now) theirs.now all.old all.new) }
    {
        match Trie::left(first, node, theirs, alloc)? {
            None => Ok(()),
            Some(node) => set(all, first, node),
        }
    }

    // A node of the lists that they have not under the element, if there are any.
    #[cycle(leavings)]
    fn left(
        first: &D,
        ours: &Arc<Trie<D, A>, A>,
        theirs: &BTreeMap<D, Arc<Trie<D, A>, A>, A>,
        alloc: &A,
    ) -> Result<Option<Arc<Trie<D, A>, A>>, OutOfMemory>
        requires ours { IsTrie D.Ord.cmp (arc_value ours.now) }
        requires live { IsLive D.Ord.cmp (arc_value ours.now) }
        requires theirs { IsTrie D.Ord.cmp (Fork theirs.now) }
        ensures { IfOk result (IsRemainder D.Ord.cmp (left_under D.Ord.cmp first.now (arc_value ours.now) theirs.now)) }
    {
        match theirs.get(first) {
            None => Ok(Some(Arc::try_clone(ours)?)),
            Some(known) => {
                let left = ours.without(known, alloc)?;
                if left.is_bare() {
                    Ok(None)
                } else {
                    Ok(Some(Arc::new(*alloc, left)?))
                }
            }
        }
    }

    /// Puts the lists at the end, each after the path.
    #[cycle(pushes)]
    pub(crate) fn push_paths(
        &self,
        alloc: &A,
        path: &mut Vec<D, A>,
        all: &mut Vec<Row<D, A>, A>,
    ) -> Result<(), OutOfMemory>
        ensures path { OnOk result (path.new.items ≡ path.old.items) }
        ensures all { OnOk result (all.new.items ≡ all.old.items ++ map (λ p. path.old.items ++ p) (paths self.now)) }
    {
        match self {
            Trie::Member => {
                let row = Row::copy_of(*alloc, path)?;
                all.push(row)?;
                Ok(())
            }
            Trie::Fork(nodes) => {
                if let Some((first, node)) = alone(nodes) {
                    return Trie::push_under(node, first, alloc, path, all);
                }
                for (first, node) in nodes {
                    Trie::push_under(node, first, alloc, path, all)?;
                }
                Ok(())
            }
        }
    }

    #[cycle(pushes)]
    fn push_under(
        node: &Trie<D, A>,
        first: &D,
        alloc: &A,
        path: &mut Vec<D, A>,
        all: &mut Vec<Row<D, A>, A>,
    ) -> Result<(), OutOfMemory>
        ensures path { OnOk result (path.new.items ≡ path.old.items) }
        ensures all { OnOk result (all.new.items ≡ all.old.items ++ map (λ p. path.old.items ++ first.now ∷ p) (paths node.now)) }
    {
        path.push(first.dup()?)?;
        node.push_paths(alloc, path, all)?;
        path.pop();
        Ok(())
    }
}
