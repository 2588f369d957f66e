//! Histories, and the first event at which one stops being well-formed.

ghost use Rattle.std.specs.Prelude.{◌≡◌, ◌↔◌, All, IsTrue, MatchOption, replicate};
ghost use Rattle.aud_history.specs.WellFormed.{IsWellFormed};
ghost use Rattle.aud_history.specs.FirstFault.{IsFirstFault, FitsPlan, IsWithinLimits, IsCheckedAs};

use crate::rule::Rule;
use crate::state::TxState;
use aud_event::limits::{STAMPS, TRANSACTIONS};
use aud_event::{Event, OutOfMemory, Plan};
use std::alloc::{Allocator, Global};
use std::marker::Model;
use std::sync::Arc;

/// A plan, and the events of a run with their transactions, in the order of their stamps: the stamp of an event is its
/// place in the list. Each event fits the plan, and there are at most 262,144.
#[derive(Drop)]
pub struct History<A: Allocator = Global> {
    plan: Arc<Plan<A>, A>,
    events: Vec<(u32, Event), A>,
}

impl<A: Allocator> Model for History<A> {
    ghost use Rattle.aud_history.specs.FirstFault.{HistoryOf, IsWithinLimits};

    ghost Value = { HistoryOf };

    ghost view = { λ h. record { plan = h.plan.value; events = h.events.items } };

    ghost invariant = { λ h. IsWithinLimits h.plan.value h.events.items };
}

fn all_idle() -> [TxState; TRANSACTIONS as usize]
    ensures { result ≡ replicate TRANSACTIONS TxState.Idle }
{
    [TxState::Idle; TRANSACTIONS as usize]
}

/// Whether the event fits the plan, and its transaction's number is in range.
fn fits<A: Allocator>(plan: &Plan<A>, entry: &(u32, Event)) -> bool
    ensures { IsTrue result ↔ FitsPlan plan.now entry.now }
{
    entry.0 < plan.format().transactions() && entry.1.fault(plan).is_none()
}

fn all_fit<A: Allocator>(plan: &Plan<A>, events: &[(u32, Event)]) -> bool
    ensures { IsTrue result ↔ All (FitsPlan plan.now) events.now }
{
    for entry in events {
        if !fits(plan, entry) {
            return false;
        }
    }
    true
}

impl<A: Allocator + Drop> History<A> {
    /// The history of these events, where each fits the plan and there are at most 262,144. It does not allocate.
    pub fn checked(plan: Arc<Plan<A>, A>, events: Vec<(u32, Event), A>) -> Option<History<A>>
        ensures { IsCheckedAs plan.value events.items result }
    {
        if events.len() <= STAMPS as usize && all_fit(&plan, &events) {
            Some(History::new(plan, events))
        } else {
            None
        }
    }
}

impl<A: Allocator> History<A> {
    /// The history of events that are known to fit. It does not allocate.
    pub fn new(plan: Arc<Plan<A>, A>, events: Vec<(u32, Event), A>) -> History<A>
        requires { IsWithinLimits plan.value events.items }
        ensures { result ≡ record { plan = plan.value; events = events.items } }
    {
        History { plan, events }
    }

    /// The plan.
    pub fn plan(&self) -> &Plan<A>
        ensures { result.now ≡ self.now.plan }
    {
        &self.plan
    }

    /// The events with their transactions, by their stamps from 0 on.
    pub fn events(&self) -> &[(u32, Event)]
        ensures events { result.now ≡ self.now.events }
        ensures sound { IsWithinLimits self.now.plan self.now.events }
    {
        self.events.as_slice()
    }

    /// The stamp of the first event at which the history up to it is not well-formed, and the rule that it breaks; none
    /// exactly where the history is well-formed. One pass, without taking memory.
    pub fn first_fault(&self) -> Option<(u32, Rule)>
        ensures { MatchOption result (IsWellFormed self.now.events) (λ fault. IsFirstFault self.now.events fault.0 fault.1) }
    {
        let events = self.events.as_slice();
        let mut states = all_idle();
        for i in 0..events.len() {
            let (tx, event) = events[i];
            match states[tx as usize].step(&event) {
                Ok(next) => states[tx as usize] = next,
                Err(rule) => return Some((i as u32, rule)),
            }
        }
        None
    }
}
