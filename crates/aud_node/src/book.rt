//! The history of a node, which exists in the proofs alone, and the beginnings of it that were seen.

ghost use Rattle.std.specs.Prelude.{◌≡◌, ◌+◌, ◌<◌, ◌^◌, ◌++◌, ◌∷◌, [], length, true, MatchBool};
ghost use Rattle.std.specs.Arc.{arc_value};
ghost use mathlib.Core.List.{IsPrefix};
ghost use Rattle.aud_node.specs.Meanings.{unseen};
ghost use Rattle.aud_node.specs.Rules.{head_of};

use aud_know::Item;
use logbook::{Gain, Offer, Plain, Play, Rule, Seen, Start, Word};
use std::marker::{Brand, Model};
use std::snapshot::Snapshot;
use std::sync::Arc;

/// An item, and the seat that offered it, as the history has them. It has no bytes of the item.
#[derive(Drop)]
pub struct OfferedItem {
    pub seat: u32,
    pub item: Snapshot<Item>,
}

/// The rule of the history: the shared word is its length.
pub struct LengthRule;

impl Rule<OfferedItem, u64> for LengthRule {
    ghost use Rattle.std.specs.Prelude.{[]};
    ghost use base.Fml.{ftrue};
    ghost use Rattle.aud_node.specs.Rules.{IsKept};

    ghost holds = { λ cells log. IsKept cells log };

    ghost first = { [] };

    ghost hinted = { λ n log. Unit {0} };

    ghost shows = { λ log. [] };

    ghost keeps = { λ names log. ftrue };

    ghost moves = { λ ask before after answer. Unit {0} };
}

/// Callers trade nothing for a step.
pub struct Nothing;

impl Gain<OfferedItem, u64> for Nothing {
    ghost use base.Fml.{ftrue};

    ghost after = { λ names about answer. ftrue };
}

/// A step that adds a pair.
pub struct Add;

impl Play<OfferedItem, u64> for Add {
    ghost use Rattle.aud_node.specs.Rules.{Adds};

    ghost then = { Adds };
}

/// What a step asks for: the pair.
impl Plain<OfferedItem, OfferedItem, u64> for Add {
    ghost use Rattle.std.specs.Prelude.{None};

    ghost ask = { λ pair. pair };

    ghost state = { λ pair. None };
}

/// Which history and which plan belong to which number of a node. A program picks it once, for all its nodes: it opens
/// their histories, and calls a function that is generic in the fleet with `Brand` for it, whose members it gives there.
pub trait Fleet {
    ghost use Rattle.std.specs.Prelude.{ℕ};
    ghost use Rattle.logbook.specs.Pages.{Book};
    ghost use Rattle.aud_event.specs.Meanings.{PlanOf};

    ghost book: { ℕ → Book };

    ghost plan: { ℕ → PlanOf };
}

impl Fleet for Brand {
    ghost use Rattle.std.specs.Prelude.{[]};
    ghost use Rattle.aud_event.specs.Plans.{empty_plan};

    ghost book = { λ _. record { number = 0; log_name = 0; cells_name = 0 } };

    ghost plan = { λ _. empty_plan };
}

/// The word that all threads share: the length of the history of the node of the number.
#[derive(Drop)]
pub struct Head {
    pub number: u32,
    pub word: Word<OfferedItem, u64, LengthRule>,
    ghost word_is: { word ≡ head_of word.book },
}

/// A beginning of a node's history that was seen.
#[derive(Drop)]
pub struct Front {
    number: u32,
    len: u64,
    seen: Seen<OfferedItem, u64, LengthRule>,
}

impl Model for Front {
    ghost use Rattle.aud_node.specs.Meanings.{FrontOf};

    ghost Value = { FrontOf };

    ghost use Rattle.std.specs.Prelude.{◌≡◌, length};
    ghost use Rattle.aud_node.specs.Said.{said_of};

    ghost view = { λ f. record { number = f.number; book = f.seen.book; log = said_of f.seen.log } };

    ghost invariant = { λ f. f.len ≡ length f.seen.log };
}

/// A new history, in which nothing stands. It does not allocate.
pub fn open(number: u32) -> (Head, Front)
    ensures head { result.0.number ≡ number }
    ensures front { result.1 ≡ unseen number result.0.word.book }
{
    let (seen, mut first, _second) = Seen::open(Start::alone(), 0, 0);
    let word = Word::tracked(0, &mut first);
    let front = Front {
        number,
        len: 0,
        seen,
    };
    (Head { number, word }, front)
}

// What the history says of an offer.
fn said(seat: u32, item: &Arc<Item>) -> OfferedItem
    ensures { (result.seat ≡ seat) × (result.item.value ≡ arc_value item.now) }
{
    let item: &Item = item;
    OfferedItem {
        seat,
        item: Snapshot::of(item),
    }
}

impl Front {
    /// The number of the node.
    pub fn number(&self) -> u32
        ensures { result ≡ self.now.number }
    {
        self.number
    }

    /// A copy. It does not allocate.
    pub fn copy(&self) -> Front
        ensures { result ≡ self.now }
    {
        Front {
            number: self.number,
            len: self.len,
            seen: self.seen.again(),
        }
    }

    /// Whether the other front begins with this one. If not, this one begins with the other.
    pub fn begins(&self, other: &Front) -> bool
        requires { self.now.book ≡ other.now.book }
        ensures { MatchBool result (IsPrefix self.now.log other.now.log) (IsPrefix other.now.log self.now.log) }
    {
        let mut both = self.seen.again();
        both.learn(&other.seen);
        if self.len > other.len {
            return false;
        }
        true
    }

    /// Adds an offer to all that was seen, and says whether it did. It did not where the history is longer.
    pub fn add(&mut self, head: &Head, seat: u32, item: &Arc<Item>) -> bool
        requires room { length self.old.log < 2 ^ 62 }
        requires book { self.old.book ≡ head.now.word.book }
        ensures same { (self.new.number ≡ self.old.number) × (self.new.book ≡ self.old.book) }
        ensures added { result ≡ true → self.new.log ≡ self.old.log ++ (seat, arc_value item.now) ∷ [] }
    {
        let pair = said(seat, item);
        let mut offer: Offer<OfferedItem, u64, LengthRule, Nothing> = self
            .seen
            .plain::<Nothing, OfferedItem, Add>(&pair);
        let mut pen = self.seen.no_pen();
        let len = self.len;
        let found = head
            .word
            .compare_exchange::<Add, Nothing>(len, len + 1, &mut self.seen, &mut offer, &mut pen);
        self.len = if found == len { len + 1 } else { found };
        found == len
    }
}
