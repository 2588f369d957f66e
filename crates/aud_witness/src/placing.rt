//! Transactions placed one after another: a cursor over prefixes.

ghost use Rattle.std.specs.Prelude.{◌≡◌, ◌<◌, ◌≤◌, ◌++◌, [], ◌∷◌, None, Some, Ok, Err, length, true, false, vec_len, vec_capacity, ℕ, IfOk, IfSome, OnErr, MatchResult, MatchOption, slice_index_or, slice_set, nat_lt, if◌then◌else◌};
ghost use Rattle.aud_witness.specs.OrderFaults.{least_tx};
ghost use Rattle.aud_witness.specs.Configurations.{unplaced, stepped, block_stepped, early_fault, are_earlier_placed};
ghost use Rattle.aud_witness.specs.Placings.{is_kept_fate, Advances, GoesBack, first_placing, Tries};
ghost use Rattle.aud_witness.specs.declared.end.End.{End};
ghost use Rattle.aud_witness.specs.Agendas.{IsEarliest};

use crate::agenda::{Agenda, allows};
use crate::decision::{Decision, Fate};
use crate::end::End;
use crate::fault::OrderFault;
use crate::step::PlacedRow;
use aud_event::{OutOfMemory, Plan};
use aud_history::TxRow;
use aud_object::{Block, Store};
use base_bits::Marks;
use std::alloc::{Allocator, Global};
use std::marker::Model;

/// Where a prefix has led: the transactions placed, and the states of all objects after what is kept of them.
///
/// A decision is placed after those before it, or refused with what is wrong with it; the last one is taken back
/// without memory. Each costs what its block touches.
#[derive(Drop)]
pub struct Placing<'a, A: Allocator + Copy = Global> {
    agenda: &'a Agenda<A>,
    placed: Marks<A>,
    earliest: usize,
    store: Store<A>,
    path: Vec<Decision, A>,
    steps: Vec<PlacedRow, A>,
}

impl<'a, A: Allocator + Copy> Model for Placing<'a, A> {
    ghost use Rattle.std.specs.Prelude.{◌≡◌, length, reverse};
    ghost use Rattle.aud_witness.specs.Placings.{PlacingOf, configurations_before, CanGoBack};

    ghost Value = { PlacingOf };

    ghost view = { λ p. record {
      agenda = p.agenda.now;
      configuration = record { placed = p.placed; states = p.store.now };
      path = p.path.items;
      past = configurations_before p.placed p.store.now p.store.past (reverse p.steps.items);
    } };

    ghost invariant = { λ p. (length p.placed ≡ length p.agenda.now.rows)
        × (length p.path.items ≡ length p.steps.items)
        × CanGoBack p.agenda.now.ends p.placed p.store.past p.earliest (reverse p.steps.items) };
}

/// How many of the ends are placed from the first one on, where the first `from` are.
fn earliest_from<A: Allocator + Drop>(ends: &[End], placed: &Marks<A>, from: usize) -> usize
    requires within { from ≤ length ends.now }
    requires before { (k : ℕ) (d : End) → k < from → slice_index_or placed.now (slice_index_or ends.now k d).row false ≡ true }
    ensures { IsEarliest ends.now placed.now result }
{
    let mut earliest = from;
    while earliest < ends.len() && placed.has(ends[earliest].row) {
        earliest += 1;
    }
    earliest
}

/// Whether each recorded answer is the object's. If so, and the fate is `C`, the block stays replayed; else the store
/// is as it was.
fn try_block<A: Allocator + Copy>(
    store: &mut Store<A>,
    block: &Block<A>,
    fate: Fate,
) -> Result<bool, OutOfMemory>
    ensures right { IfOk result (Tries store.old block.now fate store.new) }
    ensures err { OnErr result (store.new ≡ store.old) }
{
    match fate {
        Fate::C => store.replay(block),
        Fate::A => store.fits(block),
    }
}

/// Whether others see what a transaction of the fate did.
fn is_kept(fate: Fate) -> bool
    ensures { result ≡ is_kept_fate fate }
{
    match fate {
        Fate::C => true,
        Fate::A => false,
    }
}

/// The lesser of a number and another, if there is another.
fn lesser(number: u32, other: Option<u32>) -> u32
    ensures { MatchOption other (result ≡ number) (λ u. result ≡ (if nat_lt number u then number else u)) }
{
    match other {
        None => number,
        Some(other) => if number < other { number } else { other },
    }
}

/// Puts an element at the end of a list that has room for it.
fn push_within<T: Drop, A: Allocator>(list: &mut Vec<T, A>, item: T)
    requires { vec_len list.old < vec_capacity list.old }
    ensures { list.new.items ≡ list.old.items ++ item ∷ [] }
{
    match list.push(item) {
        Ok(()) => {}
        Err(_) => unreachable!(),
    }
}

impl<'a, A: Allocator + Copy> Placing<'a, A> {
    /// Before any decision, with the objects of the plan as they open.
    pub fn root(
        alloc: A,
        plan: &Plan<A>,
        agenda: &'a Agenda<A>,
    ) -> Result<Placing<'a, A>, OutOfMemory>
        ensures { IfOk result (λ placing. placing ≡ first_placing agenda.entry.now plan.now.objects) }
    {
        let placed = Marks::none(alloc, agenda.table().rows().len())?;
        let store = Store::opening(alloc, plan)?;
        Ok(Placing {
            agenda,
            placed,
            earliest: 0,
            store,
            path: Vec::new(alloc),
            steps: Vec::new(alloc),
        })
    }

    /// The decisions placed so far, in their order.
    pub fn path(&self) -> &[Decision]
        ensures { result.now ≡ self.now.path }
    {
        &self.path
    }

    /// The states of all objects after what is kept.
    pub fn store(&self) -> &Store<A>
        ensures { result.now.now ≡ self.now.configuration.states }
    {
        &self.store
    }

    /// For each row whether it is placed.
    pub fn placed(&self) -> &Marks<A>
        ensures { result.now ≡ self.now.configuration.placed }
    {
        &self.placed
    }

    /// Whether the row at the place is placed; one that is not there is not.
    pub fn has_row(&self, row: usize) -> bool
        ensures { result ≡ slice_index_or self.now.configuration.placed row false }
    {
        self.placed.has(row)
    }

    /// The least transaction that is not placed.
    pub fn least_unplaced(&self) -> Option<u32>
        ensures { result ≡ least_tx (unplaced self.now.agenda.rows self.now.configuration.placed) }
    {
        let rows = self.agenda.table().rows();
        let mut least = None;
        let mut place = rows.len();
        while place > 0 {
            place -= 1;
            if !self.has_row(place) {
                least = Some(lesser(rows[place].tx(), least));
            }
        }
        least
    }

    /// Whether every transaction that ended below the stamp is placed.
    pub fn are_earlier_placed(&self, stamp: u32) -> bool
        ensures { result ≡ are_earlier_placed self.now.agenda.rows self.now.configuration.placed stamp }
    {
        match self.agenda.ends().get(self.earliest) {
            Some(end) => stamp <= end.last,
            None => true,
        }
    }

    /// What is wrong with the decision on the row, before its block is looked at.
    fn fault_before_block(
        &self,
        place: usize,
        row: &TxRow<A>,
        decision: Decision,
    ) -> Option<OrderFault>
        ensures { result ≡ early_fault self.now.agenda.rows self.now.configuration decision place row.now }
    {
        if self.has_row(place) {
            Some(OrderFault::Twice(decision.tx))
        } else if !allows(row.status(), decision.fate) {
            Some(OrderFault::FateNotAllowed(decision.tx))
        } else if !self.are_earlier_placed(row.first()) {
            Some(OrderFault::RealTime(decision.tx))
        } else {
            None
        }
    }

    /// Places the decision on a row of which nothing is wrong but perhaps its block.
    fn place_row(
        &mut self,
        place: usize,
        row: &TxRow<A>,
        decision: Decision,
    ) -> Result<Result<(), OrderFault>, OutOfMemory>
        requires inside { place < length self.old.configuration.placed }
        requires fresh { slice_index_or self.old.configuration.placed place false ≡ false }
        ensures placed { IfOk result (λ r. MatchResult r
            (λ _. Advances self.old decision self.new (block_stepped self.old.configuration decision place row.now))
            (λ fault. (block_stepped self.old.configuration decision place row.now ≡ Err fault) × (self.new ≡ self.old))) }
        ensures err { OnErr result (self.new ≡ self.old) }
    {
        self.steps.reserve(1)?;
        self.path.reserve(1)?;
        if !try_block(&mut self.store, row.block(), decision.fate)? {
            return Ok(Err(OrderFault::Illegal(decision.tx)));
        }
        let step = PlacedRow {
            row: place,
            is_kept: is_kept(decision.fate),
            earliest: self.earliest,
        };
        push_within(&mut self.steps, step);
        push_within(&mut self.path, decision);
        self.placed.put(place);
        self.earliest = earliest_from(self.agenda.ends(), &self.placed, self.earliest);
        Ok(Ok(()))
    }

    /// Places a decision after the others, or reports the first thing that is wrong with it: its transaction is not in
    /// the history, is placed already, cannot have the fate, comes before one that ended before it began, or got an
    /// answer that it cannot get here. A refusal leaves the placing as it was.
    pub fn place(&mut self, decision: Decision) -> Result<Result<(), OrderFault>, OutOfMemory>
        ensures placed { IfOk result (λ r. MatchResult r
            (λ _. Advances self.old decision self.new (stepped self.old.agenda.rows self.old.configuration decision))
            (λ fault. (stepped self.old.agenda.rows self.old.configuration decision ≡ Err fault) × (self.new ≡ self.old))) }
        ensures err { OnErr result (self.new ≡ self.old) }
    {
        let agenda = self.agenda;
        let Some(place) = agenda.table().place(decision.tx) else {
            return Ok(Err(OrderFault::UnknownTx(decision.tx)));
        };
        let row = &agenda.table().rows()[place];
        match self.fault_before_block(place, row, decision) {
            Some(fault) => Ok(Err(fault)),
            None => self.place_row(place, row, decision),
        }
    }

    /// Takes the last decision back, if there is one, and answers its row. It does not allocate.
    pub fn take_back(&mut self) -> Option<usize>
        ensures root { result ≡ None → (self.old.path ≡ []) × (self.new ≡ self.old) }
        ensures back { IfSome result (λ row. GoesBack self.old self.new) }
        ensures row { IfSome result (λ row. self.new.configuration.placed ≡ slice_set self.old.configuration.placed row false) }
    {
        let step = self.steps.pop()?;
        self.path.pop();
        self.placed.clear(step.row);
        self.earliest = step.earliest;
        if step.is_kept {
            self.store.undo();
        }
        Some(step.row)
    }
}
