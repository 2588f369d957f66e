//! What the workers of all nodes search: the tasks of one history.

ghost use Rattle.std.specs.Prelude.{◌≡◌, ◌≤◌, ◌<◌, None, IfOk, IfSome, length};
ghost use Rattle.cli_findings.specs.Searches.{IsReportedAtOnce, task_budget, IsSearchWith, IsFirstOf, IsWholeOf};

use aud_event::{Dup, OutOfMemory};
use aud_facts::Facts;
use aud_know::well_formed_history;
use aud_order::Shape;
use aud_split::split;
use aud_witness::Prefix;
use std::alloc::Global;
use std::sync::Arc;

/// How many decisions a task has, unless no order has so many.
const DEPTH: u32 = 2;

/// The budget of a task where the words say none.
const BUDGET: u64 = 65_536;

/// The tasks of a history, in the order of their decisions, and how many expansions the search of each may take.
#[derive(Drop)]
pub struct TaskSearch {
    pub shape: Arc<Shape>,
    pub tasks: Vec<Prefix>,
    pub budget: u64,
}

/// The budget of each task.
fn budget_of(budget: Option<u64>) -> u64
    ensures { result ≡ task_budget budget }
{
    budget.unwrap_or(BUDGET)
}

/// The search of the facts' history, if they are sealed and it is well-formed. A task has two decisions, or fewer where no order has
/// so many, and a budget of 65,536 where none is given. It shares the facts.
pub fn search_of(
    alloc: Global,
    facts: &Facts,
    budget: Option<u64>,
) -> Result<Option<TaskSearch>, OutOfMemory>
    ensures some { IfOk result (λ found. IfSome found (IsSearchWith facts.now budget)) }
    ensures none { IfOk result (λ found. found ≡ None → IsReportedAtOnce facts.now) }
{
    let Ok(sealed) = well_formed_history(facts)? else {
        return Ok(None);
    };
    let _facts = facts.set();
    let _sealed = sealed.facts();
    let shape = Arc::new(alloc, Shape::of(alloc, sealed)?)?;
    let tasks = split(alloc, &shape, &Prefix::empty(alloc), DEPTH)?;
    Ok(Some(TaskSearch {
        shape,
        tasks,
        budget: budget_of(budget),
    }))
}

impl TaskSearch {
    /// The search of all orders as one task. It shares the history.
    pub fn whole(&self, alloc: Global) -> Result<TaskSearch, OutOfMemory>
        ensures { IfOk result (IsWholeOf self.now) }
    {
        let mut tasks = Vec::with_capacity(alloc, 1)?;
        tasks.push(Prefix::empty(alloc))?;
        Ok(TaskSearch {
            shape: Arc::try_clone(&self.shape)?,
            tasks,
            budget: self.budget,
        })
    }

    /// The search of the first tasks alone, so many, where there are more. It shares the history.
    pub fn first(&self, alloc: Global, count: usize) -> Result<Option<TaskSearch>, OutOfMemory>
        ensures some { IfOk result (λ found. IfSome found (IsFirstOf self.now count)) }
        ensures none { IfOk result (λ found. found ≡ None → length self.now.tasks.items ≤ count) }
    {
        if self.tasks.len() <= count {
            return Ok(None);
        }
        let mut tasks = Vec::with_capacity(alloc, count)?;
        for place in 0..count {
            tasks.push(self.tasks[place].dup()?)?;
        }
        Ok(Some(TaskSearch {
            shape: Arc::try_clone(&self.shape)?,
            tasks,
            budget: self.budget,
        }))
    }
}
