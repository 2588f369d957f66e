//! Lists of elements, as covers keep them.

ghost use Rattle.std.specs.Prelude.{◌≡◌, List, IfOk, refl};
ghost use Rattle.std.specs.Cmp.Lexicographic.{slice_cmp, lists_total};
ghost use Rattle.std.specs.Cmp.{po, eq_by_cmp_equiv, partial_equiv_from_equiv};
ghost use Rattle.std.specs.Ordering.{eq_by_cmp, as_partial_cmp};
ghost use Rattle.std.specs.FinSet.{slice_cmp-IsAntisymmetric};

use base_trees::copied;
use base_values::{Dup, Key, OutOfMemory};
use std::alloc::{Allocator, Global};
use std::cmp::Ordering;
use std::marker::Model;

/// A list of elements, seen as that list. Unlike a `Vec` it compares and copies as a value.
#[derive(Drop)]
pub struct Row<D: Dup, A: Allocator + Clone = Global> {
    items: Vec<D, A>,
}

impl<D: Dup, A: Allocator + Clone> Model for Row<D, A> {
    ghost Value = { List D };

    ghost view = { λ r. r.items.items };
}

impl<D: Dup, A: Allocator + Clone> Row<D, A> {
    /// A copy of the items.
    pub fn copy_of(alloc: A, items: &[D]) -> Result<Row<D, A>, OutOfMemory>
        ensures { IfOk result (λ row. row ≡ items.now) }
    {
        let items = copied(alloc, items)?;
        Ok(Row { items })
    }

    /// The items, lent.
    pub fn as_slice(&self) -> &[D]
        ensures { result.now ≡ self.now }
    {
        &self.items
    }
}

impl<D: Dup, A: Allocator + Clone> Dup for Row<D, A> {
    fn dup(&self) -> Result<Row<D, A>, OutOfMemory> {
        Row::copy_of(self.items.allocator().clone()?, self.as_slice())
    }
}

/// By the first element that differs, a beginning first.
impl<D: Key + Dup, A: Allocator + Clone> Ord for Row<D, A> {
    ghost cmp = { slice_cmp D.Ord.cmp };

    ghost total = { lists_total D.Ord.total };

    ghost matches_partial_cmp = { λ x y. refl };

    ghost matches_eq = { λ x y. refl };

    fn cmp(&self, other: &Row<D, A>) -> Ordering {
        self.as_slice().cmp(other.as_slice())
    }
}

impl<D: Key + Dup, A: Allocator + Clone> PartialOrd for Row<D, A> {
    ghost partial_cmp = { as_partial_cmp (slice_cmp D.Ord.cmp) };

    ghost laws = { po (lists_total D.Ord.total) (λ x y. refl) };

    fn partial_cmp(&self, other: &Row<D, A>) -> Option<Ordering> {
        Some(self.cmp(other))
    }
}

impl<D: Key + Dup, A: Allocator + Clone> Eq for Row<D, A> {
    ghost laws = { eq_by_cmp_equiv (lists_total D.Ord.total) };
}

impl<D: Key + Dup, A: Allocator + Clone> PartialEq for Row<D, A> {
    ghost eq = { eq_by_cmp (slice_cmp D.Ord.cmp) };

    ghost laws = { partial_equiv_from_equiv (eq_by_cmp_equiv (lists_total D.Ord.total)) };

    fn eq(&self, other: &Row<D, A>) -> bool {
        self.cmp(other).is_eq()
    }
}

impl<D: Key + Dup, A: Allocator + Clone> Key for Row<D, A> {
    ghost exact = { slice_cmp-IsAntisymmetric D.Key.exact };
}
