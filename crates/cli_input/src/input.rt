//! Reading an input: a plan, then facts, a line each.

ghost use Rattle.std.specs.Prelude.{◌≡◌, ◌⊎◌, All, None, Ok, Err, IfOk, MatchResult};
ghost use Rattle.aud_event.specs.Facts.{first_fact_fault};
ghost use Rattle.cli_input.specs.Inputs.{fact_at, facts_read, input_read, lines_after};

use aud_event::{Fact, Plan};
use aud_text::{PlanTextFault, TextFault, next_filled, read_fact, read_plan};
use std::alloc::Global;
use std::marker::Model;

/// A plan, and the facts of the lines after it in their order. Each fact passes the plan's check.
#[derive(Drop)]
pub struct Input {
    plan: Plan,
    facts: Vec<Fact>,
}

impl Model for Input {
    ghost use Rattle.std.specs.Prelude.{◌≡◌, All, None};
    ghost use Rattle.aud_event.specs.Facts.{first_fact_fault};
    ghost use Rattle.cli_input.specs.Inputs.{InputOf};

    ghost Value = { InputOf };

    ghost view = { λ i. record { plan = i.plan; facts = i.facts.items } };

    ghost invariant = { λ i. All (λ f. first_fact_fault i.plan f ≡ None) i.facts.items };
}

/// Why a text is no input.
#[derive(Clone, Copy, Debug, PartialEq, Eq)]
pub enum InputFault {
    /// It does not begin with a plan.
    Plan(PlanTextFault),
    /// The line of this number, counted over the whole text from 1, says no fact of the plan.
    Record(usize, TextFault),
    OutOfMemory,
}

/// The fact that the line of this number says.
fn fact_of(alloc: Global, plan: &Plan, number: usize, line: &[u8]) -> Result<Fact, InputFault>
    ensures read { MatchResult result (λ fact. fact_at plan.now number line.now ≡ Ok fact)
        (λ e. (e ≡ InputFault.OutOfMemory) ⊎ (fact_at plan.now number line.now ≡ Err e)) }
    ensures sound { IfOk result (λ fact. first_fact_fault plan.now fact ≡ None) }
{
    match read_fact(alloc, plan, line) {
        Ok(fact) => Ok(fact),
        Err(TextFault::OutOfMemory) => Err(InputFault::OutOfMemory),
        Err(fault) => Err(InputFault::Record(number, fault)),
    }
}

/// The facts of the lines that end after the first `used` bytes, in one pass and with no copy of a line.
fn read_facts(alloc: Global, plan: &Plan, text: &[u8], used: usize) -> Result<Vec<Fact>, InputFault>
    ensures read { MatchResult result (λ facts. facts_read plan.now (lines_after used text.now) ≡ Ok facts.items)
        (λ e. (e ≡ InputFault.OutOfMemory) ⊎ (facts_read plan.now (lines_after used text.now) ≡ Err e)) }
    ensures sound { IfOk result (λ facts. All (λ f. first_fact_fault plan.now f ≡ None) facts.items) }
{
    let mut facts = Vec::new(alloc);
    let mut rest = text;
    let mut number = 1;
    while let Some(next) = next_filled(rest, number) {
        rest = next.rest;
        number = next.number + 1;
        if text.len() - rest.len() > used {
            let fact = match fact_of(alloc, plan, next.number, next.line) {
                Ok(fact) => fact,
                Err(fault) => return Err(fault),
            };
            if facts.push(fact).is_err() {
                return Err(InputFault::OutOfMemory);
            }
        }
    }
    Ok(facts)
}

/// The plan that a text begins with, and the facts of the lines after it, or the first line that is refused.
pub fn read_input(alloc: Global, text: &[u8]) -> Result<Input, InputFault>
    ensures { MatchResult result (λ input. input_read text.now ≡ Ok input)
        (λ e. (e ≡ InputFault.OutOfMemory) ⊎ (input_read text.now ≡ Err e)) }
{
    let (plan, used) = match read_plan(alloc, text) {
        Ok(read) => read,
        Err(refused) if refused.fault == TextFault::OutOfMemory => {
            return Err(InputFault::OutOfMemory);
        }
        Err(refused) => return Err(InputFault::Plan(refused)),
    };
    match read_facts(alloc, &plan, text, used) {
        Ok(facts) => Ok(Input { plan, facts }),
        Err(fault) => Err(fault),
    }
}

/// The plan and the facts that a text says, which is let go once it is read.
pub fn take_input(alloc: Global, text: Vec<u8>) -> Result<Input, InputFault>
    ensures { MatchResult result (λ input. input_read text.items ≡ Ok input)
        (λ e. (e ≡ InputFault.OutOfMemory) ⊎ (input_read text.items ≡ Err e)) }
{
    read_input(alloc, text.as_slice())
}

impl Input {
    /// The plan and the facts, each of which passes the plan's check.
    pub fn into_parts(self) -> (Plan, Vec<Fact>)
        ensures parts { (result.0 ≡ self.plan) × (result.1.items ≡ self.facts) }
        ensures sound { All (λ f. first_fact_fault self.plan f ≡ None) self.facts }
    {
        let Input { plan, facts } = self;
        (plan, facts)
    }
}
