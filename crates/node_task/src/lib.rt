#![tactic(auto)]
//! What the search below one task finds.

ghost use Rattle.std.specs.Prelude.{◌≡◌, IfOk};
ghost use Rattle.node_task.specs.Found.{IsFound};

use aud_event::{Dup, OutOfMemory};
use aud_know::Finding;
use aud_order::Shape;
use aud_search::{Outcome, Scene, Session};
use aud_witness::Prefix;
use std::sync::Arc;

/// What the search below the task finds of the shape's history: that the task is refuted, or an order that shows the history;
/// nothing where the budget is spent before either is found. What is refuted on the way the session keeps for later tasks.
pub fn find<'a, H: Scene>(
    session: &mut Session<'a, H>,
    shape: &Arc<Shape>,
    task: &Prefix,
    budget: u64,
) -> Result<Option<Finding>, OutOfMemory>
    requires { session.old ≡ shape.now.value }
    ensures found { IfOk result (IsFound shape.now.value budget task.now) }
    ensures session { session.new ≡ session.old }
{
    match session.explore(task, budget)? {
        Outcome::Refuted => {
            let shared = Arc::try_clone(shape)?;
            let list = task.dup()?;
            Ok(Some(Finding::refuted(shared, list)))
        }
        Outcome::Witness(order) => {
            let shared = Arc::try_clone(shape)?;
            Ok(Some(Finding::witness(shared, order)))
        }
        Outcome::Spent => Ok(None),
    }
}
