//! Decisions about transactions, and prefixes of orders of them.

ghost use Rattle.std.specs.Prelude.{◌≡◌, [], ◌∷◌, ◌++◌, IfOk, OnOk, OnErr, refl};
ghost use Rattle.std.specs.Cmp.Lexicographic.{slice_cmp, lists_total};
ghost use Rattle.std.specs.Cmp.{po, eq_by_cmp_equiv, partial_equiv_from_equiv};
ghost use Rattle.std.specs.Ordering.{eq_by_cmp, as_partial_cmp};
ghost use Rattle.aud_witness.specs.DecisionOrder.{decision_cmp, decisions_total, decision_exact, prefix_exact};
ghost use Rattle.aud_witness.specs.Hashing.{list_input, same_input};

use aud_event::{Dup, Key, OutOfMemory};
use std::alloc::{Allocator, Global};
use std::cmp::Ordering;
use std::hash::{Hash, Hasher};
use std::marker::Model;

/// What a completion makes of a transaction: `C`, it commits, or `A`, it aborts.
#[derive(Clone, Copy, Debug, PartialEq, Eq, PartialOrd, Ord, Hash)]
pub enum Fate {
    C,
    A,
}

/// A transaction with its fate. Decisions are ordered by the transaction's number, then `C` before `A`.
#[derive(Clone, Copy, Debug, PartialEq, Eq, PartialOrd, Ord, Hash)]
pub struct Decision {
    pub tx: u32,
    pub fate: Fate,
}

impl Dup for Decision {
    fn dup(&self) -> Result<Decision, OutOfMemory> {
        Ok(*self)
    }
}

impl Key for Decision {
    ghost exact = { decision_exact };
}

/// Decisions one after another: an order of transactions, with what a completion makes of each, or a beginning of one.
///
/// Prefixes are ordered by the first decision that differs, a beginning first.
#[derive(Debug, Drop)]
pub struct Prefix<A: Allocator = Global> {
    decisions: Vec<Decision, A>,
}

impl<A: Allocator> Model for Prefix<A> {
    ghost use Rattle.std.specs.Prelude.{List};
    ghost use Rattle.aud_witness.specs.declared.decision.Decision.{Decision};

    ghost Value = { List Decision };

    ghost view = { λ p. p.decisions.items };
}

impl<A: Allocator> Prefix<A> {
    /// The empty prefix. It does not allocate.
    pub fn empty(alloc: A) -> Prefix<A>
        ensures { result ≡ [] }
    {
        Prefix {
            decisions: Vec::new(alloc),
        }
    }

    /// The prefix of the decisions. It does not allocate.
    pub fn from_decisions(decisions: Vec<Decision, A>) -> Prefix<A>
        ensures { result ≡ decisions.items }
    {
        Prefix { decisions }
    }

    /// A copy of the decisions, with a memory of its own.
    pub fn copy_of(alloc: A, decisions: &[Decision]) -> Result<Prefix<A>, OutOfMemory>
        ensures { IfOk result (λ prefix. prefix ≡ decisions.now) }
    {
        let decisions = Vec::from_slice(alloc, decisions)?;
        Ok(Prefix { decisions })
    }

    /// The decisions in their order.
    pub fn decisions(&self) -> &[Decision]
        ensures { result.now ≡ self.now }
    {
        self.decisions.as_slice()
    }

    /// Puts a decision at the end. A refused growth leaves the prefix.
    pub fn push(&mut self, decision: Decision) -> Result<(), OutOfMemory>
        ensures ok { OnOk result (self.new ≡ self.old ++ decision ∷ []) }
        ensures err { OnErr result (self.new ≡ self.old) }
    {
        self.decisions.push(decision)?;
        Ok(())
    }
}

/// Puts a copy of the decisions, with a memory of its own, at the end of the lists.
pub fn add_copy<A: Allocator + Copy>(
    alloc: A,
    decisions: &[Decision],
    lists: &mut Vec<Prefix<A>, A>,
) -> Result<(), OutOfMemory>
    ensures ok { OnOk result (lists.new.items ≡ lists.old.items ++ decisions.now ∷ []) }
    ensures err { OnErr result (lists.new.items ≡ lists.old.items) }
{
    lists.push(Prefix::copy_of(alloc, decisions)?)?;
    Ok(())
}

impl<A: Allocator + Clone> Dup for Prefix<A> {
    fn dup(&self) -> Result<Prefix<A>, OutOfMemory> {
        let alloc = self.decisions.allocator().clone()?;
        let decisions = Vec::from_slice(alloc, &self.decisions)?;
        Ok(Prefix { decisions })
    }
}

impl<A: Allocator> Ord for Prefix<A> {
    ghost cmp = { slice_cmp decision_cmp };

    ghost total = { lists_total decisions_total };

    ghost matches_partial_cmp = { λ x y. refl };

    ghost matches_eq = { λ x y. refl };

    fn cmp(&self, other: &Prefix<A>) -> Ordering {
        self.decisions.as_slice().cmp(&other.decisions.as_slice())
    }
}

impl<A: Allocator> PartialOrd for Prefix<A> {
    ghost partial_cmp = { as_partial_cmp (slice_cmp decision_cmp) };

    ghost laws = { po (lists_total decisions_total) (λ x y. refl) };

    fn partial_cmp(&self, other: &Prefix<A>) -> Option<Ordering> {
        Some(self.cmp(other))
    }
}

impl<A: Allocator> Eq for Prefix<A> {
    ghost laws = { eq_by_cmp_equiv (lists_total decisions_total) };
}

impl<A: Allocator> PartialEq for Prefix<A> {
    ghost eq = { eq_by_cmp (slice_cmp decision_cmp) };

    ghost laws = { partial_equiv_from_equiv (eq_by_cmp_equiv (lists_total decisions_total)) };

    fn eq(&self, other: &Prefix<A>) -> bool {
        self.cmp(other).is_eq()
    }
}

impl<A: Allocator> Hash for Prefix<A> {
    ghost hash_input = { list_input };

    ghost respects_eq = { same_input };

    fn hash<H: Hasher>(&self, state: &mut H) {
        self.decisions.hash(state);
    }
}

impl<A: Allocator> Key for Prefix<A> {
    ghost exact = { prefix_exact };
}
