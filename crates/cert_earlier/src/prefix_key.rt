//! Prefixes as the keys of a table, which own none of their decisions.

ghost use Rattle.std.specs.Prelude.{◌≡◌, ◌↔◌, IsTrue};
ghost use Rattle.std.specs.List.{fold};
ghost use Rattle.std.specs.Cmp.Lexicographic.{slice_cmp, lists_total};
ghost use Rattle.std.specs.Cmp.{eq_by_cmp_equiv, partial_equiv_from_equiv};
ghost use Rattle.std.specs.Ordering.{eq_by_cmp};
ghost use Rattle.aud_witness.specs.DecisionOrder.{decision_cmp, decisions_total};
ghost use Rattle.cert_earlier.specs.PrefixKeys.{number_of, stirred, sum_of, sum_input, same_sum};

use aud_witness::{Decision, Fate};
use std::hash::{Hash, Hasher};
use std::marker::Model;

/// A prefix, beside the number that it is hashed by, which is made once.
#[derive(Drop)]
pub(crate) struct PrefixKey<'a> {
    list: &'a [Decision],
    sum: u64,
}

impl<'a> Model for PrefixKey<'a> {
    ghost use Rattle.std.specs.Prelude.{◌≡◌, List};
    ghost use Rattle.aud_witness.specs.declared.decision.Decision.{Decision};
    ghost use Rattle.cert_earlier.specs.PrefixKeys.{sum_of};

    ghost Value = { List Decision };

    ghost view = { λ p. p.list.now };

    ghost invariant = { λ p. p.sum ≡ sum_of p.list.now };
}

/// A number of its own for each decision.
fn number_of(decision: Decision) -> u64
    ensures { result ≡ number_of decision }
{
    let twice = u64::from(decision.tx) * 2;
    match decision.fate {
        Fate::C => twice,
        Fate::A => twice + 1,
    }
}

/// The number of a prefix, with one decision more.
fn stir(sum: u64, decision: Decision) -> u64
    ensures { result ≡ stirred sum decision }
{
    (sum ^ number_of(decision)).wrapping_mul(11_400_714_819_323_198_485)
}

/// The number by which a prefix is hashed.
fn sum_of(decisions: &[Decision]) -> u64
    ensures { result ≡ sum_of decisions.now }
{
    let mut sum = 0;
    for decision in decisions {
        sum = stir(sum, *decision);
    }
    sum
}

/// Whether the prefixes are the same.
fn are_same(a: &[Decision], b: &[Decision]) -> bool
    ensures { IsTrue result ↔ (a.now ≡ b.now) }
{
    a == b
}

impl<'a> PrefixKey<'a> {
    /// The prefix of the decisions.
    pub(crate) fn of(list: &'a [Decision]) -> PrefixKey<'a>
        ensures { result ≡ list.entry.now }
    {
        PrefixKey {
            list,
            sum: sum_of(list),
        }
    }
}

impl<'a> Eq for PrefixKey<'a> {
    ghost laws = { eq_by_cmp_equiv (lists_total decisions_total) };
}

impl<'a> PartialEq for PrefixKey<'a> {
    ghost eq = { eq_by_cmp (slice_cmp decision_cmp) };

    ghost laws = { partial_equiv_from_equiv (eq_by_cmp_equiv (lists_total decisions_total)) };

    fn eq(&self, other: &PrefixKey<'a>) -> bool {
        self.sum == other.sum && are_same(self.list, other.list)
    }
}

impl<'a> Hash for PrefixKey<'a> {
    ghost hash_input = { sum_input };

    ghost respects_eq = { same_sum };

    fn hash<H: Hasher>(&self, state: &mut H) {
        self.sum.hash(state);
    }
}
