//! Searches of one history that come one after the other, over what the earlier ones refuted.

ghost use Rattle.std.specs.Prelude.{◌≡◌, true, Some, IfOk, IsTrue, MatchOption, []};
ghost use Rattle.aud_witness.specs.Orders.{Refuted};
ghost use Rattle.aud_order.specs.Shapes.{objects_of, history_of};
ghost use Rattle.search_prefix.specs.Searches.{Reports};

use crate::deciding::straight_budget;
use crate::learning::{decide_by_clauses, effort_of};
use aud_event::OutOfMemory;
use aud_order::Shape;
use aud_witness::{Decision, Prefix};
use search_memo::{BOUND, LARGEST_SEEN, Memo, Order, ROWS_MAX, Scene, Shared, Sharing, Unnoted};
use search_prefix::{Decided, Outcome, search};
use std::alloc::Global;
use std::marker::Model;

/// Where no order shows the history, no order that begins with the prefix does.
fn is_refuted_below(shape: &Shape, prefix: &Prefix, is_refuted: bool) -> bool
    requires { is_refuted ≡ true → Refuted (objects_of shape.now) (history_of shape.now) [] }
    ensures { IsTrue result → Refuted (objects_of shape.now) (history_of shape.now) prefix.now }
{
    is_refuted
}

/// What searches of the shape share of what there is: they share nothing where no one word marks all rows, nor where others may have
/// no states of so many objects.
fn shared_of<'a, J: Scene>(shape: &Shape, shared: Option<&'a Shared<J>>) -> Option<&'a Shared<J>> {
    let is_small = shape.table().rows().len() <= ROWS_MAX;
    if is_small && shape.plan().objects().len() <= LARGEST_SEEN {
        shared
    } else {
        None
    }
}

/// Where the last transaction of the prefix did its last event.
fn last_of(shape: &Shape, prefix: &[Decision]) -> u32 {
    let Some(decision) = prefix.last() else {
        return 0;
    };
    let table = shape.table();
    match table.place(decision.tx) {
        Some(place) => table.rows()[place].last(),
        None => 0,
    }
}

/// How many bytes the memo of a search may take: half of the search's share; the clauses have the other half. One search has all where nobody
/// else searches.
fn room_of<J: Scene>(shared: Option<&Shared<J>>, is_sharing: bool) -> usize {
    match shared {
        Some(shared) => shared.room_of_each(is_sharing) / 2,
        None => BOUND / 2,
    }
}

/// Where the prefix is empty, clause learning may take as long as a search of at least so many prefixes.
const LEAST: u64 = 1 << 16;

/// As many where the prefix is not empty: clauses were mostly learned of all orders by then.
const LEAST_BELOW: u64 = 1 << 18;

/// How many prefixes clause learning may at least take as long as.
fn least_of(prefix: &Prefix) -> u64 {
    if prefix.decisions().is_empty() {
        LEAST
    } else {
        LEAST_BELOW
    }
}

/// Puts a memo of nothing in place of another.
fn forget_all<'a, J: Scene>(
    alloc: Global,
    shape: &'a Shape,
    shared: Option<&'a Shared<J>>,
    room: usize,
    memo: &mut Memo<'a, Unnoted, Sharing<'a, J, Global>>,
)
    requires { shape.now ≡ J.shape }
    ensures { memo.new.shape ≡ shape.now }
{
    *memo = Memo::new(alloc, shape, Sharing { shared }, room);
}

/// What searches of one history have refuted, for the searches that come after them: a prefix is not expanded where one of the same
/// transactions and the same states was refuted before. It takes memory as it comes to know more, at most 1 GiB with all that search
/// beside it and what they share: `shared` says how many these are, and where it is not there nobody else searches.
#[derive(Drop)]
pub struct Session<'a, J: Scene> {
    alloc: Global,
    shape: &'a Shape,
    shared: Option<&'a Shared<J>>,
    room: usize,
    memo: Memo<'a, Unnoted, Sharing<'a, J, Global>>,
    learned_budget: u64,
    is_refuted: bool,
}

impl<'a, J: Scene> Model for Session<'a, J> {
    ghost use Rattle.std.specs.Prelude.{◌≡◌, true, []};
    ghost use Rattle.aud_witness.specs.Orders.{Refuted};
    ghost use Rattle.aud_order.specs.Shapes.{ShapeOf, objects_of, history_of};

    ghost Value = { ShapeOf };

    ghost view = { λ m. m.shape.now };

    ghost invariant = { λ m. (m.memo.shape ≡ m.shape.now) × (m.shape.now ≡ J.shape)
        × (m.is_refuted ≡ true → Refuted (objects_of m.shape.now) (history_of m.shape.now) []) };
}

impl<'a, J: Scene> Session<'a, J> {
    /// A session that remembers nothing yet. It does not allocate.
    pub fn new(alloc: Global, shape: &'a Shape, shared: Option<&'a Shared<J>>) -> Session<'a, J>
        requires { shape.now ≡ J.shape }
        ensures { result ≡ shape.entry.now }
    {
        let own = shared_of(shape, shared);
        let room = room_of(shared, own.is_some());
        Session {
            alloc,
            shape,
            shared: own,
            room,
            memo: Memo::new(alloc, shape, Sharing { shared: own }, room),
            learned_budget: 0,
            is_refuted: false,
        }
    }

    /// By last events. Where others search too, those come after the others that ended before the last of the prefix did.
    fn by_last(&self, prefix: &[Decision]) -> Order {
        Order::Last(match self.shared {
            Some(_) => last_of(self.shape, prefix),
            None => 0,
        })
    }

    /// Whether some order that begins with the prefix shows the history, as `explore` says it, by one search.
    fn search_below(&mut self, prefix: &Prefix, budget: u64) -> Result<Outcome, OutOfMemory>
        ensures reported { IfOk result (Reports (objects_of self.old) (history_of self.old) prefix.now (Some budget)) }
        ensures shape { self.new ≡ self.old }
    {
        self.memo.move_away();
        let order = self.by_last(prefix.decisions());
        let (alloc, shape, shared, room) = (self.alloc, self.shape, self.shared, self.room);
        match search(
            alloc,
            shape,
            order,
            prefix.decisions(),
            Some(budget),
            &mut self.memo,
        ) {
            Ok(outcome) => Ok(outcome),
            Err(error) => {
                forget_all(alloc, shape, shared, room, &mut self.memo);
                Err(error)
            }
        }
    }

    /// What a search that hardly backtracks finds. It is not made where it would take the budget.
    fn explore_straight(
        &mut self,
        prefix: &Prefix,
        budget: u64,
    ) -> Result<Option<Outcome>, OutOfMemory>
        ensures reported { IfOk result (λ o. MatchOption o (Unit {0}) (Reports (objects_of self.old) (history_of self.old) prefix.now (Some budget))) }
        ensures shape { self.new ≡ self.old }
    {
        let prefixes = straight_budget(self.shape);
        if prefixes >= budget {
            return Ok(None);
        }
        match self.search_below(prefix, prefixes)? {
            Outcome::Witness(witness) => Ok(Some(Outcome::Witness(witness))),
            Outcome::Refuted => Ok(Some(Outcome::Refuted)),
            Outcome::Spent => Ok(None),
        }
    }

    /// What clause learning finds of all orders within the budget, if that is more than it ever had: an order is of use where the prefix is
    /// empty, and a refutation refutes each prefix.
    fn explore_by_clauses(
        &mut self,
        prefix: &Prefix,
        budget: u64,
    ) -> Result<Option<Outcome>, OutOfMemory>
        ensures reported { IfOk result (λ o. MatchOption o (Unit {0}) (Reports (objects_of self.old) (history_of self.old) prefix.now (Some budget))) }
        ensures shape { self.new ≡ self.old }
    {
        if budget <= self.learned_budget || budget < least_of(prefix) {
            return Ok(None);
        }
        let learned = decide_by_clauses(self.alloc, self.shape, effort_of(budget, self.room))?;
        self.learned_budget = budget;
        match learned {
            Some(Decided::Opaque(order)) if prefix.decisions().is_empty() => {
                Ok(Some(Outcome::Witness(order)))
            }
            Some(Decided::NotOpaque) => {
                self.is_refuted = true;
                Ok(Some(Outcome::Refuted))
            }
            _ => Ok(None),
        }
    }

    /// Whether some order that begins with the prefix shows the history, as `explore` of a prefix says it. What it refutes is remembered, and
    /// what was remembered costs no expansion. Where the budget has room for them, a short search and clause learning come first, as in
    /// `decide`: where that refutes the history, each later prefix is refuted at once. Where a search is refused memory all is forgotten.
    pub fn explore(&mut self, prefix: &Prefix, budget: u64) -> Result<Outcome, OutOfMemory>
        ensures reported { IfOk result (Reports (objects_of self.old) (history_of self.old) prefix.now (Some budget)) }
        ensures shape { self.new ≡ self.old }
    {
        if is_refuted_below(self.shape, prefix, self.is_refuted) {
            return Ok(Outcome::Refuted);
        }
        if let Some(outcome) = self.explore_straight(prefix, budget)? {
            return Ok(outcome);
        }
        if let Some(outcome) = self.explore_by_clauses(prefix, budget)? {
            return Ok(outcome);
        }
        self.search_below(prefix, budget)
    }
}
